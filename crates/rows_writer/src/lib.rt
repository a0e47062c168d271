#![tactic(auto)]

// Boards written as LIN from lent slices of call structs: `write_lin`, and append. (01: Writer; Language form)
mod checks;
mod entries;
mod scans;

pub use entries::{append_rows, write_lin_rows};
