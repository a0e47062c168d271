// The entry of auctions: what the calls of a board are by the laws of bridge. (02: N1)
ghost use Rattle.std.specs.Prelude.{◌≡◌};
ghost use Rattle.lin_host.specs.Auctions.{check_numbers};

use auction::check_calls;
use lin_host_numbers::{LinAuction, auction_numbers};
use lin_spec::Seat;

// Checks the auction of the calls that the whole rows are, with the text that their spans lie in. The dealer is 0 to 3 for S W N E, and any other number is
// refusal 8. A bid that is none of the forms is refusal 9, with the least index of one.
pub fn lin_check_auction(text: &[u8], dealer: u32, rows: &[u32]) -> LinAuction
    ensures { result ≡ check_numbers text.now dealer rows.now }
{
    let seat = Seat::at(dealer as usize);
    auction_numbers(check_calls(3 < dealer, text, seat, rows))
}
