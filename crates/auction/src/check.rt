// The auction of a board, checked: the refusals, then what its calls are. (02: N1)
ghost use Rattle.std.specs.Prelude.{◌≡◌, false, ◌-◌, ◌≤◌, length};
ghost use Rattle.lin_spec.specs.Records.{bytes_at};
ghost use Rattle.lin_spec.specs.Lent.{call_rows};
ghost use Rattle.board_lent.specs.Calls.{call_of};
ghost use Rattle.bridge_auction.specs.Auction.{auction};
ghost use Rattle.auction.specs.Bids.{read_bid, unknown_from, calls_of};
ghost use Rattle.auction.specs.Check.{bids_of, check_auction};
ghost use Rattle.auction.specs.Judging.{judged};

use crate::bids::read_bid;
use board_lent::{call_of, check_board, head_of};
use bridge_auction::{Auction, AuctionCall, allows, begin_auction, outcome, with_call};
use lin_spec::{Board, Refusal, Seat};
use text::shown;

// The bid of a row.
fn bid_of(text: &[u8], row: [u32; 6]) -> Option<AuctionCall>
    ensures { result ≡ read_bid (bytes_at text.now (call_of row).bid) }
{
    let c = call_of(row);
    read_bid(shown(text, c.bid))
}

// Looks for a bid that is none of the forms, in all rows.
fn unknown_bid(text: &[u8], rows: &[u32]) -> Option<usize>
    ensures { result ≡ unknown_from 0 (bids_of text.now (call_rows rows.now)) }
{
    for (i, &row) in rows.as_chunks::<6>().0.iter().enumerate() {
        if bid_of(text, row).is_none() {
            return Some(i);
        }
    }
    None
}

// What the calls of the rows are.
fn follow_calls(text: &[u8], dealer: Seat, rows: &[u32]) -> Auction
    ensures { result ≡ auction dealer (calls_of (bids_of text.now (call_rows rows.now))) }
{
    let mut state = begin_auction();
    for (i, &row) in rows.as_chunks::<6>().0.iter().enumerate() {
        // Every bid is one of the forms here.
        let call = bid_of(text, row).unwrap_or(AuctionCall::Pass);
        if !allows(state, call) {
            return Auction::Unlawful(i);
        }
        state = with_call(state, call);
    }
    outcome(state, dealer)
}

// The answer once 1, 8, 5 and 6 are passed: 9 is looked for in all rows before any law of the auction is.
fn judge_calls(text: &[u8], dealer: Seat, rows: &[u32]) -> Result<Auction, Refusal>
    ensures { result ≡ judged dealer (bids_of text.now (call_rows rows.now)) }
{
    match unknown_bid(text, rows) {
        Some(k) => Err(Refusal::BidUnknown(k as u64)),
        None => Ok(follow_calls(text, dealer, rows)),
    }
}

// Checks the auction of the calls that rows are. `other` says whether another number of the call is outside its range. The calls are put to the checks as
// those of a fresh board, which names no text of its own.
pub fn check_calls(other: bool, text: &[u8], dealer: Seat, rows: &[u32]) -> Result<Auction, Refusal>
    ensures { result ≡ check_auction other text.now dealer (call_rows rows.now) }
{
    let head = head_of(Board::new());
    check_board(other, text, head, rows, &text[..0])?;
    judge_calls(text, dealer, rows)
}

// Checks an auction: the calls of a board, with the text that their spans lie in, from the dealer on.
pub fn check_auction(text: &[u8], dealer: Seat, rows: &[u32]) -> Result<Auction, Refusal>
    ensures { result ≡ check_auction false text.now dealer (call_rows rows.now) }
{
    check_calls(false, text, dealer, rows)
}
