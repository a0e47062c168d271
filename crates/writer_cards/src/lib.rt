#![tactic(auto)]

// Cards, plays, hands and deals as text, put into a lent output. (01: Writer, pc and md; play text)
mod deals;
mod hands;
mod letters;
mod play;
mod sizes;
mod tricks;

pub use deals::{md_len, put_md};
pub use play::format_cardplay_by_trick;
pub use sizes::{Sizes, sizes_of};
pub use tricks::{PG_TEXT, put_tricks, tricks_len};
