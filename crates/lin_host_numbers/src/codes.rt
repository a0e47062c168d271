// A board that is lent as numbers: the board that they are, and whether a code is outside its range. (01: Records; Eight refusals, 8)
ghost use Rattle.std.specs.Prelude.{◌≡◌};
ghost use Rattle.lin_spec.specs.Records.{span};
ghost use Rattle.board_lent.specs.Heads.{head_of};
ghost use Rattle.lin_host_numbers.specs.Codes.{vulnerability_of, word_spans, text_of, coded_claim, coded_board, bad_three, bad_given, bad_codes};

use crate::boards::{LinBoard, LinText};
use board_lent::Head;
use lin_spec::{Seat, Span, Vulnerability};

// The parts of a board, each for any number.

pub(crate) fn vulnerability_of(code: u32) -> Vulnerability
    ensures { result ≡ vulnerability_of code }
{
    match code {
        0 => Vulnerability::None,
        1 => Vulnerability::NorthSouth,
        2 => Vulnerability::EastWest,
        _ => Vulnerability::Both,
    }
}

fn span(start: u32, len: u32) -> Span
    ensures { result ≡ span start len }
{
    Span { start, len }
}

// The four names by their starts and lengths.
fn names_of(words: [u32; 8]) -> [Span; 4]
    ensures { result ≡ word_spans words }
{
    let [s, s_len, w, w_len, n, n_len, e, e_len] = words;
    [
        span(s, s_len),
        span(w, w_len),
        span(n, n_len),
        span(e, e_len),
    ]
}

pub(crate) fn text_of(x: LinText) -> Option<Span>
    ensures { result ≡ text_of x }
{
    (x.present != 0).then_some(span(x.start, x.len))
}

fn claim_of(claimed: u32, claim: u32) -> Option<u8>
    ensures { result ≡ coded_claim claimed claim }
{
    if claimed == 0 {
        return None;
    }
    u8::try_from(claim).ok()
}

// The board of these numbers, without its deal.
#[tactic(auto, unfolding(crate::specs::Codes::coded_board))]
pub fn coded_head(b: LinBoard) -> Head
    ensures { result ≡ head_of (coded_board b) }
{
    Head {
        names: names_of(b.names),
        dealer: Seat::at(b.dealer as usize),
        vulnerability: vulnerability_of(b.vulnerability),
        title: text_of(b.title),
        room_board: text_of(b.room_board),
        board_header: text_of(b.board_header),
        claim: claim_of(b.claimed, b.claim),
    }
}

// Whether one of three texts is neither there nor absent.
pub(crate) fn bad_three(x: LinText, y: LinText, z: LinText) -> bool
    ensures { result ≡ bad_three x y z }
{
    1 < x.present || 1 < y.present || 1 < z.present
}

// Whether a number is neither given nor absent, or is given and more than it may be.
pub(crate) fn bad_given(given: u32, number: u32, most: u32) -> bool
    ensures { result ≡ bad_given given number most }
{
    1 < given || (given == 1 && most < number)
}

// Whether a code is outside its range.
#[tactic(auto, unfolding(crate::specs::Codes::bad_codes))]
pub fn bad_codes(b: LinBoard) -> bool
    ensures { result ≡ bad_codes b }
{
    3 < b.dealer
        || 3 < b.vulnerability
        || bad_three(b.title, b.room_board, b.board_header)
        || bad_given(b.claimed, b.claim, 255)
}
