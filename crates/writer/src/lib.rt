#![tactic(auto)]

// Boards written as LIN: a board as text, in two parts before and after its calls; `write_lin` and append. (01: Writer and settled form; upstream's
// writer.rs)
mod back;
mod boards;
mod entries;
mod front;
mod heading;

pub use back::put_back;
pub use boards::others_len;
pub use entries::{append, append_head, write_lin};
pub use front::put_front;
