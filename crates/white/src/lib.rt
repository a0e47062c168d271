#![tactic(auto)]

// What trimming removes, and case. (01: Records, Tokens; 02: N2)
mod white;

pub use white::{is_blank, lower_byte, same_word, trim};
