#![tactic(auto)]

// The entries of `parse_lin`, and what they share with the reader of a file. (01: Board; upstream's mod.rs)
mod reader;

pub use reader::{board_at, heading_at, names_at, parse_lin, parse_lin_heading, put_cards};
