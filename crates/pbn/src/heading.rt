// What is answered of a board that was stored: where its texts stand, and what it says beside them. (01: From PBN)
ghost use Rattle.std.specs.Prelude.{◌≡◌};
ghost use Rattle.pbn.specs.Made.{text_between, made_heading};

use crate::dealing::{claim_from, dealer_by};
use lin_spec::{Board, Heading, PbnBoard, Span};
use pbn_texts::Layout;

// The text from one place to another, absent where it has no byte.
fn between(from: u32, to: u32) -> Option<Span>
    ensures { result ≡ text_between from to }
{
    if to <= from {
        return None;
    }
    Some(Span {
        start: from,
        len: to - from,
    })
}

// The heading of a board with this many calls and cards.
pub(crate) fn made_heading(board: PbnBoard, layout: Layout, calls: usize, cards: usize) -> Heading
    ensures { result ≡ made_heading board layout calls cards }
{
    let given = board.dealer;
    let number = board.number;
    let result = board.result;
    let names = layout.names;
    let dealer = dealer_by(given, number);
    let deal = board.deal;
    let vulnerability = board.vulnerability;
    let title = between(layout.title, layout.room_board);
    let room_board = between(layout.room_board, layout.header);
    let board_header = between(layout.header, layout.calls);
    let claim = claim_from(result);
    let made = Board {
        names,
        dealer,
        deal,
        vulnerability,
        title,
        room_board,
        board_header,
        claim,
    };
    Heading {
        board: made,
        calls,
        cards,
    }
}
