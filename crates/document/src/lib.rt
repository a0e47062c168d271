#![tactic(auto)]

// LIN as its `command|value|` tokens: a cursor over a text. (01: Tokens; upstream's document.rs)
mod tokens;

pub use tokens::{Cursor, Part, Position, Step, Token, command, next_pipe, open, trailing, value};
