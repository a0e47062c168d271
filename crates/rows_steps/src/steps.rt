// One call of a run of tokens as a row, and a board's heading with the place of its calls. (01: Board; File; Language form)
ghost use Rattle.std.specs.Prelude.{◌≡◌, ◌<◌, ◌≤◌, ◌^◌, length, take};
ghost use Rattle.board_loop.specs.Head.{board_at};
ghost use Rattle.lin_spec.specs.Refusals.{unless};
ghost use Rattle.rows_steps.specs.Steps.{few_structs, text_answer, file_answer, StepsTo, HeadsBy};

use board::{heading_at, put_cards};
use board_loop::next_call;
use document::{Cursor, open};
use file::find_board;
use file_sections::open_boards;
use lin_spec::{Heading, Refusal, RowKind, Span};
use rows::{CallRow, row_of};

// A board's heading, and the places where its tokens, and so its calls, begin and stop.
#[derive(Clone, Copy)]
pub struct Headed {
    pub heading: Heading,
    pub start: usize,
    pub stop: usize,
}

// The next call of the text up to `stop`, from a place on, as a row, and the place after it. Where there is none, a row of no text, and the place stays.
pub fn next_row(text: &[u8], stop: usize, at: usize) -> (CallRow, usize)
    requires { (stop ≤ length text.now) × (length text.now < 2 ^ 32) }
    ensures { StepsTo (take stop text.now) at result }
{
    match next_call(&text[..stop], Cursor { at }) {
        Some((call, next)) => (row_of(call), next.at),
        None => {
            let bid = Span { start: 0, len: 0 };
            let row = CallRow {
                bid,
                alerted: false,
                annotation: None,
            };
            (row, at)
        }
    }
}

// The heading that the tokens of the text up to `stop` from a place on give, its cards stored, where there are enough rows and places.
fn headed_at(
    text: &[u8],
    start: usize,
    stop: usize,
    rows: usize,
    cards: &mut [u8],
) -> Result<Headed, Refusal>
    requires { (start ≤ stop) × (stop ≤ length text.now) × (length text.now < 2 ^ 32) }
    ensures { HeadsBy text.now (unless (few_structs (board_at (take stop text.now) start) rows cards.old) (board_at (take stop text.now) start)) rows cards.old result cards.new }
{
    let heading = heading_at(&text[..stop], start);
    if rows < heading.calls {
        return Err(Refusal::TooFewRows(RowKind::Calls, heading.calls as u64));
    }
    if cards.len() < heading.cards {
        return Err(Refusal::TooFewRows(RowKind::Cards, heading.cards as u64));
    }
    put_cards(cards, &text[..stop], start);
    Ok(Headed {
        heading,
        start,
        stop,
    })
}

// The heading of a text that is one board.
pub fn text_headed(text: &[u8], rows: usize, cards: &mut [u8]) -> Result<Headed, Refusal>
    ensures { HeadsBy text.now (text_answer text.now rows cards.old) rows cards.old result cards.new }
{
    open(text)?;
    headed_at(text, 0, text.len(), rows, cards)
}

// The heading of the board of a number.
pub fn file_headed(
    text: &[u8],
    number: usize,
    rows: usize,
    cards: &mut [u8],
) -> Result<Headed, Refusal>
    ensures { HeadsBy text.now (file_answer text.now number rows cards.old) rows cards.old result cards.new }
{
    let cursor = open_boards(text)?;
    match find_board(text, cursor, number) {
        Ok(p) => headed_at(text, p.start, p.stop, rows, cards),
        Err(r) => Err(r),
    }
}
