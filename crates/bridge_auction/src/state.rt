// A state that follows an auction call by call. It is a function of the calls so far (Ties), so that each answer is one about them.
// (02: N1, "Starting from the dealer")
ghost use Rattle.std.specs.Prelude.{◌≡◌, true, ◌&&◌, List, [], ◌∷◌, ◌+◌, ◌%◌, ◌<◌, eqb, ltb, leb};
ghost use Rattle.lin_spec.specs.Base.{pick};
ghost use Rattle.bridge_auction.specs.Auction.{is_bid as a_bid, is_double as a_double, rank, lawful, caller, outcome as outcome_of};
ghost use Rattle.bridge_auction.specs.State.{Ties, state_with_pass, state_with_double, state_with_bid, mark as marked, slot as slot_of};
ghost use Rattle.bridge_auction.specs.declared.calls.AuctionCall.{AuctionCall as TheCall};

use crate::calls::{
    Auction, AuctionCall, Contract, Strain, bid_rank, doubling_of, is_bid, is_double, level_of,
    one_less, strain_number, strain_of,
};
use lin_spec::Seat;

// `seat` is the next caller's, counted clockwise from the dealer's. `passes` are the running passes. `last` is the last bid, and `side` that
// of its caller: 0 for the dealer's. `latest` is the latest call that is no pass. `named` has, for each side's five strains, one more than
// the seat that first named it.
#[derive(Clone, Copy)]
pub struct AuctionState {
    pub seat: u8,
    pub passes: u8,
    pub last: AuctionCall,
    pub latest: AuctionCall,
    pub side: u8,
    pub named: [u8; 10],
}

// The state before the dealer's call.
pub fn begin_auction() -> AuctionState
    ensures { Ties result [] }
{
    AuctionState {
        seat: 0,
        passes: 0,
        last: AuctionCall::Pass,
        latest: AuctionCall::Pass,
        side: 0,
        named: [0; 10],
    }
}

// The place of a side's strain among the ten.
fn slot(side: u8, t: Strain) -> usize
    requires { side < 2 }
    ensures { (result ≡ slot_of side t) × (result < 10) }
{
    (side as usize) * 5 + (strain_number(t) as usize)
}

// The seat after this one, clockwise.
fn next_seat(seat: u8) -> u8
    ensures { result ≡ (seat % 4 + 1) % 4 }
{
    (seat % 4 + 1) % 4
}

// One more; 255 stays 255.
fn next_count(n: u8) -> u8
    ensures { result ≡ pick (ltb n 255) (n + 1) 255 }
{
    if n < 255 {
        return n + 1;
    }
    255
}

// The seat is put at the place k, where none stands yet: the first to name a strain keeps it.
fn mark(named: [u8; 10], k: usize, seat: u8) -> [u8; 10]
    requires { k < 10 }
    ensures { result ≡ marked named k seat }
{
    let mut n = named;
    if 0 < n[k] {
        return n;
    }
    n[k] = seat % 4 + 1;
    n
}

// "The auction ends at four opening passes, or three running passes once a bid is made."
fn is_over(state: AuctionState) -> bool
    ensures { result ≡ pick (a_bid state.last) (leb 3 state.passes) (leb 4 state.passes) }
{
    let last = state.last;
    if is_bid(last) {
        return 3 <= state.passes;
    }
    4 <= state.passes
}

// "a bid must outrank the last one"
fn may_bid(last: AuctionCall, call: AuctionCall) -> bool
    ensures { result ≡ ltb (rank last) (rank call) }
{
    bid_rank(last) < bid_rank(call)
}

// "passes apart, a double must follow an opponent's bid": that was an odd number of calls ago, so that the passes since are even.
fn may_double(latest: AuctionCall, passes: u8) -> bool
    ensures { result ≡ (a_bid latest && eqb (passes % 2) 0) }
{
    is_bid(latest) & (passes % 2 == 0)
}

// "and a redouble an opponent's double"
fn may_redouble(latest: AuctionCall, passes: u8) -> bool
    ensures { result ≡ (a_double latest && eqb (passes % 2) 0) }
{
    is_double(latest) & (passes % 2 == 0)
}

// Whether the call is lawful after the calls so far.
pub fn allows(state: AuctionState, call: AuctionCall) -> bool
    ensures { (h : List TheCall) → Ties state h → result ≡ lawful h call }
{
    if is_over(state) {
        return false;
    }
    let last = state.last;
    let latest = state.latest;
    match call {
        AuctionCall::Pass => true,
        AuctionCall::Double => may_double(latest, state.passes),
        AuctionCall::Redouble => may_redouble(latest, state.passes),
        AuctionCall::Bid(_, _) => may_bid(last, call),
    }
}

// The state after a pass.
fn with_pass(state: AuctionState) -> AuctionState
    ensures { result ≡ state_with_pass state }
{
    let last = state.last;
    let latest = state.latest;
    let named = state.named;
    AuctionState {
        seat: next_seat(state.seat),
        passes: next_count(state.passes),
        last,
        latest,
        side: state.side,
        named,
    }
}

// The state after a double or a redouble.
fn with_double(state: AuctionState, call: AuctionCall) -> AuctionState
    ensures { result ≡ state_with_double state call }
{
    let last = state.last;
    let named = state.named;
    AuctionState {
        seat: next_seat(state.seat),
        passes: 0,
        last,
        latest: call,
        side: state.side,
        named,
    }
}

// The state after a bid of the strain.
fn with_bid(state: AuctionState, call: AuctionCall, t: Strain) -> AuctionState
    ensures { result ≡ state_with_bid state call t }
{
    let seat = state.seat;
    let k = slot(seat % 2, t);
    let old = state.named;
    let named = mark(old, k, seat);
    AuctionState {
        seat: next_seat(seat),
        passes: 0,
        last: call,
        latest: call,
        side: seat % 2,
        named,
    }
}

// The state after a lawful call.
pub fn with_call(state: AuctionState, call: AuctionCall) -> AuctionState
    ensures { (h : List TheCall) → Ties state h → lawful h call ≡ true → Ties result (call ∷ h) }
{
    match call {
        AuctionCall::Pass => with_pass(state),
        AuctionCall::Double => with_double(state, call),
        AuctionCall::Redouble => with_double(state, call),
        AuctionCall::Bid(_, t) => with_bid(state, call, t),
    }
}

// The seat that is so many clockwise from the dealer's.
fn seat_from(dealer: Seat, turns: u8) -> Seat
    ensures { result ≡ caller dealer turns }
{
    Seat::at((dealer.number() + (turns as usize)) % 4)
}

// What the calls so far are.
pub fn outcome(state: AuctionState, dealer: Seat) -> Auction
    ensures { (h : List TheCall) → Ties state h → result ≡ outcome_of dealer h }
{
    if !is_over(state) {
        return Auction::Open;
    }
    let last = state.last;
    let latest = state.latest;
    if !is_bid(last) {
        return Auction::PassedOut;
    }
    let t = strain_of(last);
    let k = slot(state.side % 2, t);
    let named = state.named;
    let declarer = seat_from(dealer, one_less(named[k]));
    Auction::Ended(Contract {
        level: level_of(last),
        strain: t,
        doubling: doubling_of(latest),
        declarer,
    })
}
