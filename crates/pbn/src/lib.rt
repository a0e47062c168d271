#![tactic(auto)]

// Boards made from PBN records: `from_board`. (01: From PBN; upstream's writer.rs)
mod dealing;
mod entry;
mod heading;

pub use entry::{from_board, from_board_with};
