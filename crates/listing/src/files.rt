// All that linlist prints for an input, as one entry: the sections of the file are passed twice, once to measure the lines and once to
// put them. (01: Program linlist)
ghost use Rattle.std.specs.Prelude.{◌≡◌, ◌++◌, length};
ghost use Rattle.lin_spec.specs.Refusals.{sat};
ghost use Rattle.lin_spec.specs.Output.{Outcome};
ghost use Rattle.lin_spec.specs.Reading.{heading_of};
ghost use Rattle.lin_spec.specs.File.{board_in, file_spans};
ghost use Rattle.lin_spec.specs.Listing.{header, board_lines, listing, write_line};
ghost use Rattle.file_sections.specs.Sections.{section_of, Inside, AtFirst};
ghost use Rattle.output.specs.Put.{Room, Put};
ghost use Rattle.listing.specs.Lines.{section_line};

use board::heading_at;
use file_sections::{BoardCursor, Section, open_boards};
use lin_spec::{Heading, Refusal, room};
use listing_lines::{board_line_len, put_board_line, put_header, refusal_line};
use output::sat_add;

// The bytes that linlist takes.
pub const LIST_LIMIT: usize = 65_536;

// The largest room of an output. No listing has more bytes.
pub const LIST_ROOM: usize = 1_048_576;

// The heading of a section.
fn section_heading(text: &[u8], p: Section) -> Heading
    requires { Inside text.now p }
    ensures { result ≡ heading_of (board_in text.now (section_of p)) }
{
    heading_at(&text[..p.stop], p.start)
}

// A section that is no board has no line, and its length is 0.
fn section_len(text: &[u8], number: usize, p: Section) -> u64
    requires { Inside text.now p }
    ensures { result ≡ sat (length (section_line text.now number (section_of p))) }
{
    if !p.board {
        return 0;
    }
    board_line_len(number as u64, section_heading(text, p))
}

// Puts a section's line, if it is a board.
fn put_section(out: &mut [u8], at: usize, text: &[u8], number: usize, p: Section) -> usize
    requires { Room out.old at (section_line text.now number (section_of p)) × Inside text.now p }
    ensures { Put out.old at (section_line text.now number (section_of p)) out.new result }
{
    if !p.board {
        return at;
    }
    put_board_line(out, at, number as u64, section_heading(text, p))
}

// All boards' lines together, from a cursor at the first section.
fn lines_len(text: &[u8], cursor: BoardCursor) -> u64
    requires { AtFirst text.now cursor }
    ensures { result ≡ sat (length (board_lines 0 (file_spans text.now))) }
{
    let mut n = 0;
    let mut c = cursor;
    loop {
        let step = c.next(text);
        let Some((number, p)) = step.found else {
            return n;
        };
        n = sat_add(n, section_len(text, number, p));
        c = step.cursor;
    }
}

// Puts the lines of the boards, from a cursor at the first section.
fn put_lines(out: &mut [u8], at: usize, text: &[u8], cursor: BoardCursor) -> usize
    requires { Room out.old at (board_lines 0 (file_spans text.now)) × AtFirst text.now cursor }
    ensures { Put out.old at (board_lines 0 (file_spans text.now)) out.new result }
{
    let mut n = at;
    let mut c = cursor;
    loop {
        let step = c.next(text);
        let Some((number, p)) = step.found else {
            return n;
        };
        n = put_section(out, n, text, number, p);
        c = step.cursor;
    }
}

// The header and the lines of the boards, from a cursor at the first section.
fn list_from(text: &[u8], cursor: BoardCursor, out: &mut [u8]) -> Result<usize, Refusal>
    requires { AtFirst text.now cursor }
    ensures { ◌≡◌ {A = Outcome} (record { answer = result; output = out.new }) (write_line (header ++ board_lines 0 (file_spans text.now)) out.old) }
{
    let need = sat_add(43, lines_len(text, cursor));
    if (room(out.len()) as u64) < need {
        return Err(Refusal::OutputTooSmall(need));
    }
    let a = put_header(out, 0);
    let n = put_lines(out, a, text, cursor);
    Ok(n)
}

// What linlist prints for an input: the listing of a file, or the line of a refusal.
pub fn list_file(text: &[u8], out: &mut [u8]) -> Result<usize, Refusal>
    ensures { ◌≡◌ {A = Outcome} (record { answer = result; output = out.new }) (write_line (listing text.now) out.old) }
{
    if LIST_LIMIT < text.len() {
        return refusal_line(Refusal::TextTooLong, out);
    }
    match open_boards(text) {
        Ok(c) => list_from(text, c, out),
        Err(r) => refusal_line(r, out),
    }
}

// The same into an output that has room for every listing.
pub fn list_whole(text: &[u8], out: &mut [u8; LIST_ROOM]) -> usize
    ensures { Put out.old 0 (listing text.now) out.new result }
{
    list_file(text, out).unwrap_or(0)
}
