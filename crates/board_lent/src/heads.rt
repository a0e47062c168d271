// A lent board without its deal, so that no call has to copy 208 counts. (01: Records)
ghost use Rattle.std.specs.Prelude.{◌≡◌};
ghost use Rattle.board_lent.specs.Heads.{head_of};

use lin_spec::{Board, Seat, Span, Vulnerability};

#[derive(Clone, Copy)]
pub struct Head {
    pub names: [Span; 4],
    pub dealer: Seat,
    pub vulnerability: Vulnerability,
    pub title: Option<Span>,
    pub room_board: Option<Span>,
    pub board_header: Option<Span>,
    pub claim: Option<u8>,
}

// The board without its deal.
pub fn head_of(board: Board) -> Head
    ensures { result ≡ head_of board }
{
    let names = board.names;
    let dealer = board.dealer;
    let vulnerability = board.vulnerability;
    let title = board.title;
    let room_board = board.room_board;
    let board_header = board.board_header;
    let claim = board.claim;
    Head {
        names,
        dealer,
        vulnerability,
        title,
        room_board,
        board_header,
        claim,
    }
}
