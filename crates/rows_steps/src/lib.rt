#![tactic(auto)]

// What the readers into rows of call structs are made of, each of it over plain slices: one call as a row, and a board's heading with the place of its calls. (01: Board; File; Language form)
mod steps;

pub use steps::{Headed, file_headed, next_row, text_headed};
