#![tactic(auto)]

// The commands that a board knows: one token at a time with its command's number. (01: Tokens, Board)
mod commands;
mod plain;
mod steps;

pub use commands::{AH, AN, MB, MC, MD, MN, PC, PN, QX, SV};
pub use steps::{BoardToken, PartToken, board_token, next_command, part_token, span_of};
