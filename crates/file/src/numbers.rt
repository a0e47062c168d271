// How many boards a file has, and a board by its number. (01: File; refusal 4)
ghost use Rattle.std.specs.Prelude.{◌≡◌};
ghost use Rattle.lin_spec.specs.Reading.{Reading};
ghost use Rattle.lin_spec.specs.File.{count_boards, file_heading, file_board};
ghost use Rattle.file.specs.Numbers.{Counts, Numbers};
ghost use Rattle.file_sections.specs.Sections.{AtFirst};

use board::{board_at, heading_at};
use file_sections::{BoardCursor, Section, open_boards};
use lin_spec::{Heading, Refusal};

// How many boards there are, from a cursor at the first section.
fn count_from(text: &[u8], cursor: BoardCursor) -> usize
    requires { AtFirst text.now cursor }
    ensures { Counts text.now result }
{
    let mut c = cursor;
    loop {
        let step = c.next(text);
        let Some(_) = step.found else {
            return c.number;
        };
        c = step.cursor;
    }
}

// How many boards a file has.
pub fn count_boards(text: &[u8]) -> Result<usize, Refusal>
    ensures { result ≡ count_boards text.now }
{
    let cursor = open_boards(text)?;
    Ok(count_from(text, cursor))
}

// The section of the board of a number, from a cursor at the first section; or refusal 4, with how many boards there are.
pub fn find_board(text: &[u8], cursor: BoardCursor, number: usize) -> Result<Section, Refusal>
    requires { AtFirst text.now cursor }
    ensures { Numbers text.now number result }
{
    let mut c = cursor;
    loop {
        let step = c.next(text);
        let Some((n, p)) = step.found else {
            return Err(Refusal::NoBoard(c.number as u64));
        };
        if p.board & (n == number) {
            return Ok(p);
        }
        c = step.cursor;
    }
}

// The heading of the board of a number.
pub fn file_heading(text: &[u8], number: usize) -> Result<Heading, Refusal>
    ensures { result ≡ file_heading text.now number }
{
    let cursor = open_boards(text)?;
    let p = find_board(text, cursor, number)?;
    Ok(heading_at(&text[..p.stop], p.start))
}

// The board of a number: its calls go into the rows, six words each, and its play into the cards.
pub fn file_board(
    text: &[u8],
    number: usize,
    rows: &mut [u32],
    cards: &mut [u8],
) -> Result<Heading, Refusal>
    ensures { ◌≡◌ {A = Reading} (record { heading = result; rows = rows.new; cards = cards.new }) (file_board text.now number rows.old cards.old) }
{
    let cursor = open_boards(text)?;
    let p = find_board(text, cursor, number)?;
    board_at(&text[..p.stop], p.start, rows, cards)
}
