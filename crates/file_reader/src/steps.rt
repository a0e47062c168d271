// The step of the board cursor that reads the next board. (01: File, Board; refusals 1, 2 and 3)
ghost use Rattle.std.specs.Prelude.{◌≡◌, [], ◌∷◌, ◌-◌, ◌≤◌, ◌<◌, length, drop};
ghost use Rattle.lin_spec.specs.Records.{part};
ghost use Rattle.lin_spec.specs.Refusals.{unless};
ghost use Rattle.lin_spec.specs.Reading.{few_rows};
ghost use Rattle.lin_spec.specs.File.{board_in, not_utf8_from, read_by, read_step};
ghost use Rattle.lin_spec.specs.File.Visit.{found};
ghost use Rattle.file_sections.specs.Sections.{section_of, standing_of, Inside};
ghost use Rattle.file_reader.specs.Steps.{check_of, NoneLeft, read_of};

use board::board_at;
use file_sections::{BoardCursor, Section, next_board};
use lin_spec::{Heading, LIMIT, Refusal};
use text::well_formed_len;

// A board that a step read, with its number and its section.
#[derive(Clone, Copy)]
pub struct ReadBoard {
    pub number: usize,
    pub section: Section,
    pub heading: Heading,
}

// What a step gives: a board with the cursor after it; or none, or the refusal, with the cursor where it stood.
#[derive(Clone, Copy)]
pub struct BoardRead {
    pub board: Result<Option<ReadBoard>, Refusal>,
    pub cursor: BoardCursor,
}

// Refusal 2 over the bytes from one place up to another.
fn check_utf8(text: &[u8], at: usize, stop: usize) -> Result<(), Refusal>
    requires { (at ≤ stop) × (stop ≤ length text.now) }
    ensures { check_of result ≡ not_utf8_from at (part text.now at (stop - at)) }
{
    let n = well_formed_len(&text[at..stop]);
    if n < stop - at {
        return Err(Refusal::NotUtf8((at + n) as u64));
    }
    Ok(())
}

// None from a place on, if 2 does not refuse the bytes that are left.
fn none_left(text: &[u8], at: usize) -> Result<Option<ReadBoard>, Refusal>
    ensures { NoneLeft text.now at result }
{
    if at < text.len() {
        check_utf8(text, at, text.len())?;
    }
    Ok(None)
}

// A step that is refused: the cursor stays.
fn refused(r: Refusal, cursor: BoardCursor) -> BoardRead
    ensures { result ≡ record { board = Err r; cursor = cursor } }
{
    BoardRead {
        board: Err(r),
        cursor,
    }
}

// The board of a section that was found, with the cursor after it, read if 2 and 3 do not refuse it.
fn read_found(
    text: &[u8],
    cursor: BoardCursor,
    number: usize,
    section: Section,
    next: BoardCursor,
    rows: &mut [u32],
    cards: &mut [u8],
) -> BoardRead
    requires { (cursor.at ≤ section.start) × Inside text.now section }
    ensures { read_of result rows.new cards.new ≡ read_by text.now (standing_of cursor) (unless (not_utf8_from cursor.at (part text.now cursor.at (section.stop - cursor.at)) ∷ few_rows (board_in text.now (section_of section)) rows.old cards.old) (found number (section_of section) (standing_of next))) rows.old cards.old }
{
    if let Err(ill) = check_utf8(text, cursor.at, section.stop) {
        return refused(ill, cursor);
    }
    match board_at(&text[..section.stop], section.start, rows, cards) {
        Ok(heading) => BoardRead {
            board: Ok(Some(ReadBoard {
                number,
                section,
                heading,
            })),
            cursor: next,
        },
        Err(few) => refused(few, cursor),
    }
}

// The next board from a cursor on; sections that are none are passed. Its calls go into the rows, six words each, and its play into the cards. 1, 2 and 3
// refuse the step.
pub fn read_board(text: &[u8], cursor: BoardCursor, rows: &mut [u32], cards: &mut [u8]) -> BoardRead
    ensures { read_of result rows.new cards.new ≡ read_step text.now (standing_of cursor) rows.old cards.old }
{
    if LIMIT < text.len() {
        return refused(Refusal::TextTooLong, cursor);
    }
    let step = next_board(text, cursor);
    let Some((number, section)) = step.found else {
        return BoardRead {
            board: none_left(text, cursor.at),
            cursor,
        };
    };
    read_found(text, cursor, number, section, step.cursor, rows, cards)
}
