#![tactic(auto)]

// The parts or lines of a file, and the cursor over them. (01: File; upstream's mod.rs)
mod sections;

pub use sections::{BoardCursor, BoardStep, Section, holds_qx, next_board, open_boards};
