#![tactic(auto)]

// What a board is read by: a run of tokens one at a time, what each gives to a heading, and its calls and cards stored. (01: Board; upstream's mod.rs)
mod calls;
mod dealing;
mod heading;
mod play;
mod storing;

pub use calls::next_call;
pub use dealing::dealt_by;
pub use heading::{ReadHead, read_head};
pub use play::next_card;
pub use storing::read_into;
