#![tactic(auto)]

// The laws of bridge for the auction: the calls, a state that follows them, and what a list of calls is. Nothing of LIN but the seats.
// (02: N1, "apply the Laws of Duplicate Bridge 2017")
mod calls;
mod state;

pub use calls::{
    Auction, AuctionCall, Contract, Doubling, Strain, bid_rank, doubling_number, doubling_of,
    is_bid, is_double, level_of, strain_number, strain_of,
};
pub use state::{AuctionState, allows, begin_auction, outcome, with_call};
