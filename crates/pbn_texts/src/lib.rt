#![tactic(auto)]

// What a board that is made of a PBN record has: its names, its other texts, where each of them stands, its calls and cards. (01: From PBN)
mod call_rows;
mod calls;
mod layout;
mod names;
mod raw;
mod sources;
mod texts;

pub use call_rows::put_kept_rows;
pub use calls::{kept_calls, kept_cards, pbn_calls_len, put_kept_cards};
pub use layout::{Layout, layout_of};
pub use raw::put_texts;
pub use sources::sources_of;
