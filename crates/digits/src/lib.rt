#![tactic(auto)]

// Numbers of ASCII digits. (01: Board, mc; annotations)
mod digits;

pub use digits::{is_digit, read_number};
