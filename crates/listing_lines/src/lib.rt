#![tactic(auto)]

// The lines that the program linlist prints: the header, a board's line and a refusal's, each as an entry, and the words of a line. (01: Program linlist)
mod lines;
mod words;

pub use lines::{
    board_line, board_line_len, header_line, put_board_line, put_header, refusal_line,
};
