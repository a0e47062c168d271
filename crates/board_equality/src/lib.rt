#![tactic(auto)]

// Whether a board equals another, as `LinData` compares them. (01: equality; upstream's mod.rs)
mod boards;
mod hands;
mod texts;

pub use boards::{same_board, same_heads};
