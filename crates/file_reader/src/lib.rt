#![tactic(auto)]

// The step of the board cursor that reads the next board. (01: File; Board)
mod steps;

pub use steps::{BoardRead, ReadBoard, read_board};
