// The entries of boards: the heading that a text gives, and its board with rows and cards. (01: Board, `parse_lin`)
ghost use Rattle.std.specs.Prelude.{◌≡◌};
ghost use Rattle.lin_host_numbers.specs.Boards.{vulnerability_number, place_numbers, text_numbers, board_numbers, heading_numbers};

use crate::answers::{LinAnswer, answer_numbers};
use lin_spec::{Board, Heading, Refusal, Span, Vulnerability};

// A text or its absence, which is 0, 0, 0. present is 0 or 1.
#[repr(C)]
#[derive(Clone, Copy)]
pub struct LinText {
    pub present: u32,
    pub start: u32,
    pub len: u32,
}

// A board without its rows.
#[repr(C)]
#[derive(Clone, Copy)]
pub struct LinBoard {
    // The start and the length of each name, in the order S W N E.
    pub names: [u32; 8],
    // 0 to 3 for S W N E.
    pub dealer: u32,
    // 0 none, 1 NS, 2 EW, 3 both.
    pub vulnerability: u32,
    pub title: LinText,
    pub room_board: LinText,
    pub board_header: LinText,
    // 0 or 1; the claim is 0 where there is none.
    pub claimed: u32,
    pub claim: u32,
    // The count of a card is at seat times 52 plus card.
    pub counts: [u32; 208],
}

// The answer, how many calls and cards the board has, and the board. An accepted call has the value 0; a refusal has a fresh board, and none.
#[repr(C)]
#[derive(Clone, Copy)]
pub struct LinHeading {
    pub answer: LinAnswer,
    pub calls: u64,
    pub cards: u64,
    pub board: LinBoard,
}

// The parts of a heading as numbers.

fn vulnerability_number(v: Vulnerability) -> u32
    ensures { result ≡ vulnerability_number v }
{
    match v {
        Vulnerability::None => 0,
        Vulnerability::NorthSouth => 1,
        Vulnerability::EastWest => 2,
        Vulnerability::Both => 3,
    }
}

// The start and the length of each name.
fn place_numbers(names: [Span; 4]) -> [u32; 8]
    ensures { result ≡ place_numbers names }
{
    let [s, w, n, e] = names;
    [
        s.start, s.len, w.start, w.len, n.start, n.len, e.start, e.len,
    ]
}

fn text_numbers(x: Option<Span>) -> LinText
    ensures { result ≡ text_numbers x }
{
    let place = x.unwrap_or(Span { start: 0, len: 0 });
    LinText {
        present: u32::from(x.is_some()),
        start: place.start,
        len: place.len,
    }
}

#[tactic(auto, unfolding(crate::specs::Boards::board_numbers))]
pub fn board_numbers(b: Board) -> LinBoard
    ensures { result ≡ board_numbers b }
{
    LinBoard {
        names: place_numbers(b.names),
        dealer: b.dealer.number() as u32,
        vulnerability: vulnerability_number(b.vulnerability),
        title: text_numbers(b.title),
        room_board: text_numbers(b.room_board),
        board_header: text_numbers(b.board_header),
        claimed: u32::from(b.claim.is_some()),
        claim: b.claim.map_or(0, u32::from),
        counts: b.deal.counts,
    }
}

#[tactic(auto, unfolding(crate::specs::Boards::heading_numbers))]
pub fn heading_numbers(h: Result<Heading, Refusal>) -> LinHeading
    ensures { result ≡ heading_numbers h }
{
    match h {
        Ok(h) => LinHeading {
            answer: answer_numbers(Ok(0)),
            calls: h.calls as u64,
            cards: h.cards as u64,
            board: board_numbers(h.board),
        },
        Err(r) => LinHeading {
            answer: answer_numbers(Err(r)),
            calls: 0,
            cards: 0,
            board: board_numbers(Board::new()),
        },
    }
}
