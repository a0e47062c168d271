// The dealer and the deal of an md value. (01: Board, md)
ghost use Rattle.std.specs.Prelude.{◌≡◌, ◌<◌, ◌^◌, length, replicate};
ghost use Rattle.lin_spec.specs.Board.{dealer_of, undealt, read_md};
ghost use Rattle.board_loop.specs.Dealing.{held, dealt_from};

use cards::count_deal;
use lin_spec::{Seat, Span};
use text::shown;
use white::trim;

// 1 2 3 4 is dealer S W N E.
fn dealer_of(b: u8) -> Option<Seat>
    ensures { result ≡ dealer_of b }
{
    if b == b'1' {
        return Some(Seat::South);
    }
    if b == b'2' {
        return Some(Seat::West);
    }
    if b == b'3' {
        return Some(Seat::North);
    }
    if b == b'4' {
        return Some(Seat::East);
    }
    None
}

// The dealer of a trimmed value, and the deal, counted where none is counted yet. Without a dealer it is North, and no card is counted.
fn read_md(counts: &mut [u32; 208], s: &[u8]) -> Seat
    requires { (counts.old ≡ replicate 208 0) × (length s.now < 2 ^ 32) }
    ensures { held result counts.new ≡ read_md s.now undealt }
{
    if s.len() == 0 {
        return Seat::North;
    }
    let Some(dealer) = dealer_of(s[0]) else {
        return Seat::North;
    };
    count_deal(counts, &s[1..]);
    dealer
}

// The same of the value of the last md that was accepted.
pub fn dealt_by(counts: &mut [u32; 208], text: &[u8], md: Option<Span>) -> Seat
    requires { (counts.old ≡ replicate 208 0) × (length text.now < 2 ^ 32) }
    ensures { held result counts.new ≡ dealt_from text.now md }
{
    match md {
        None => Seat::North,
        Some(v) => read_md(counts, trim(shown(text, v))),
    }
}
