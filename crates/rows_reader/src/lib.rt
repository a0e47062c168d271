#![tactic(auto)]

// A board's calls read into rows of call structs: `parse_lin` and a file's board by its number. (01: Board; File; Language form)
mod reader;

pub use reader::{file_board_rows, parse_lin_rows};
