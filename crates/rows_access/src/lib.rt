#![tactic(auto)]

// Rows of a lent slice of call structs: how many, one read, one put. (01: Language form, "The calls stand in a list of rows lent by the caller")
mod access;

pub use access::{get_row, put_row, row_count};
