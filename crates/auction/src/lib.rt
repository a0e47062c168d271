#![tactic(auto)]

// The auction of a board, checked before filming: what its bids say, and what their calls are by the laws of bridge. (02: N1)
mod bids;
mod check;

pub use bids::read_bid;
pub use check::{check_auction, check_calls};
