// A board's calls read into rows: the entries of `parse_lin` and of a file's board by its number. (01: Board; File; Language form)
ghost use Rattle.std.specs.Prelude.{◌≡◌, map, ◌<◌, ◌≤◌, ◌^◌, length, take};
ghost use Rattle.board_loop.specs.Head.{board_at};
ghost use Rattle.rows.specs.Rows.{row_in, laid_over};
ghost use Rattle.rows_reader.specs.Reader.{RowReading, read_rows, file_rows};

use lin_spec::{Heading, Refusal};
use rows::CallRow;
use rows_steps::{file_headed, next_row, text_headed};

// Stores the first n calls of the text up to `stop`, from a place on.
fn store_rows(rows: &mut [CallRow], text: &[u8], n: usize, start: usize, stop: usize)
    requires { (n ≤ length rows.old) × (n ≤ length (board_at (take stop text.now) start).calls) × (0 < n → (stop ≤ length text.now) × (length text.now < 2 ^ 32)) }
    ensures { rows.new ≡ laid_over (map row_in (take n (board_at (take stop text.now) start).calls)) rows.old }
{
    let mut at = start;
    for row in rows[..n].iter_mut() {
        let (call, next) = next_row(text, stop, at);
        *row = call;
        at = next;
    }
}

// The board that a text is: its calls go into the rows, and its play into the cards.
pub fn parse_lin_rows(
    text: &[u8],
    rows: &mut [CallRow],
    cards: &mut [u8],
) -> Result<Heading, Refusal>
    ensures { ◌≡◌ {A = RowReading} (record { heading = result; rows = rows.new; cards = cards.new }) (read_rows text.now rows.old cards.old) }
{
    let h = text_headed(text, rows.len(), cards)?;
    store_rows(rows, text, h.heading.calls, h.start, h.stop);
    Ok(h.heading)
}

// The board of a number: its calls go into the rows, and its play into the cards.
pub fn file_board_rows(
    text: &[u8],
    number: usize,
    rows: &mut [CallRow],
    cards: &mut [u8],
) -> Result<Heading, Refusal>
    ensures { ◌≡◌ {A = RowReading} (record { heading = result; rows = rows.new; cards = cards.new }) (file_rows text.now number rows.old cards.old) }
{
    let h = file_headed(text, number, rows.len(), cards)?;
    store_rows(rows, text, h.heading.calls, h.start, h.stop);
    Ok(h.heading)
}
