#![tactic(auto)]

// The boards of a file: their count, and a board by its number. (01: File; upstream's mod.rs)
mod numbers;

pub use numbers::{count_boards, file_board, file_heading, find_board};
