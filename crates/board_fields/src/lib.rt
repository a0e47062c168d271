#![tactic(auto)]

// What each command gives to a board's heading. (01: Board)
mod fields;

pub use fields::{on_card, on_claim, on_md, on_names, on_present, on_sv, on_value};
