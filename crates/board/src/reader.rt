// The entries of `parse_lin`, and what they share with the reader of a file. (01: Board; File, "A heading call ..")
ghost use Rattle.std.specs.Prelude.{◌≡◌, true, ◌-◌, ◌<◌, ◌≤◌, ◌^◌, length};
ghost use Rattle.output.specs.Put.{Room, Put};
ghost use Rattle.lin_spec.specs.Refusals.{unless};
ghost use Rattle.lin_spec.specs.Reading.{heading_of, few_rows, Reading, stored, read_heading, read_board};
ghost use Rattle.board_loop.specs.Head.{board_at};
ghost use Rattle.board.specs.Reader.{with_deal, Places, CountedRows};

use board_loop::{ReadHead, dealt_by, next_card, read_head, read_into};
use document::{Cursor, open};
use lin_spec::{Board, Deal, Heading, Refusal, RowKind, Span};
use output::put;

// Stores every card from a place on.
pub fn put_cards(cards: &mut [u8], text: &[u8], at: usize) -> usize
    requires { Room cards.old 0 (board_at text.now at).play × (length text.now < 2 ^ 32) }
    ensures { Put cards.old 0 (board_at text.now at).play cards.new result }
{
    let mut n = 0;
    let mut cursor = Cursor { at };
    loop {
        match next_card(text, cursor) {
            Some((c, next)) => {
                n = put(cards, n, c);
                cursor = next;
            }
            None => {
                return n;
            }
        }
    }
}

// A heading that was read, with dealer and deal.
fn with_deal(text: &[u8], h: ReadHead) -> Heading
    requires { length text.now < 2 ^ 32 }
    ensures { result ≡ with_deal text.now h }
{
    let mut counts = [0u32; 208];
    let md = h.md;
    let dealer = dealt_by(&mut counts, text, md);
    let names = h.names;
    let vulnerability = h.vulnerability;
    let title = h.title;
    let room_board = h.room;
    let board_header = h.header;
    let claim = h.claim;
    let board = Board {
        names,
        dealer,
        deal: Deal { counts },
        vulnerability,
        title,
        room_board,
        board_header,
        claim,
    };
    Heading {
        board,
        calls: h.calls,
        cards: h.cards,
    }
}

// The heading of the board that the tokens of a text from a place on give.
pub fn heading_at(text: &[u8], at: usize) -> Heading
    requires { (at ≤ length text.now) × (length text.now < 2 ^ 32) }
    ensures { result ≡ heading_of (board_at text.now at) }
{
    with_deal(text, read_head(text, at))
}

// The names of that board alone.
pub fn names_at(text: &[u8], at: usize) -> [Span; 4]
    requires { (at ≤ length text.now) × (length text.now < 2 ^ 32) }
    ensures { result ≡ (board_at text.now at).names }
{
    let h = read_head(text, at);
    h.names
}

// Tests for places enough for any board of the text from a place on: where it says true, there are.
fn roomy(text: &[u8], at: usize, rows: &[u32], cards: &[u8]) -> bool
    requires { at ≤ length text.now }
    ensures { result ≡ true → Places (length text.now - at) rows.now cards.now }
{
    let most = (text.len() - at) / 4;
    (most <= rows.len() / 6) & (most <= cards.len())
}

// Refusal 3, if it meets the call. Most are lent places enough for any board of the text: then nothing is counted.
fn few_rows(text: &[u8], at: usize, rows: &[u32], cards: &[u8]) -> Result<(), Refusal>
    requires { (at ≤ length text.now) × (length text.now < 2 ^ 32) }
    ensures { CountedRows text.now at rows.now cards.now result }
{
    if roomy(text, at, rows, cards) {
        return Ok(());
    }
    let h = read_head(text, at);
    if rows.len() / 6 < h.calls {
        return Err(Refusal::TooFewRows(RowKind::Calls, h.calls as u64));
    }
    if cards.len() < h.cards {
        return Err(Refusal::TooFewRows(RowKind::Cards, h.cards as u64));
    }
    Ok(())
}

// The same board with its rows and cards, where there are enough places.
pub fn board_at(
    text: &[u8],
    at: usize,
    rows: &mut [u32],
    cards: &mut [u8],
) -> Result<Heading, Refusal>
    requires { (at ≤ length text.now) × (length text.now < 2 ^ 32) }
    ensures { ◌≡◌ {A = Reading} (record { heading = result; rows = rows.new; cards = cards.new }) (stored (unless (few_rows (board_at text.now at) rows.old cards.old) (board_at text.now at)) rows.old cards.old) }
{
    few_rows(text, at, rows, cards)?;
    Ok(with_deal(text, read_into(text, at, rows, cards)))
}

// The heading of a text that is one board.
pub fn parse_lin_heading(text: &[u8]) -> Result<Heading, Refusal>
    ensures { result ≡ read_heading text.now }
{
    open(text)?;
    Ok(heading_at(text, 0))
}

// The board that a text is: its calls go into the rows, six words each, and its play into the cards.
pub fn parse_lin(text: &[u8], rows: &mut [u32], cards: &mut [u8]) -> Result<Heading, Refusal>
    ensures { ◌≡◌ {A = Reading} (record { heading = result; rows = rows.new; cards = cards.new }) (read_board text.now rows.old cards.old) }
{
    open(text)?;
    board_at(text, 0, rows, cards)
}
