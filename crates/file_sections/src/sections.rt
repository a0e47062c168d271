// The sections of a file, parts or lines, and the cursor that gives them. (01: File)
ghost use Rattle.std.specs.Prelude.{◌≡◌, ◌||◌, ◌+◌, ◌≤◌, length, eqb};
ghost use Rattle.lin_spec.specs.Base.{pick, ascii};
ghost use Rattle.lin_spec.specs.Refusals.{sat};
ghost use Rattle.lin_spec.specs.Reading.{stream};
ghost use Rattle.lin_spec.specs.File.{holds, visit, next_board, open_boards};
ghost use Rattle.lin_spec.specs.Visits.{line_at, part_from};
ghost use Rattle.document_commands.specs.Commands.{mn_no, pn_no};
ghost use Rattle.file_sections.specs.Sections.{section_of, standing_of, opened_of, visit_of, past};

use document::{Cursor, open};
use document_commands::{MD, MN, PN, PartToken, QX, next_command, part_token};
use lin_spec::Refusal;
use text::find_byte;
use white::is_blank;

// A part or a line of a file, from one place up to another, and whether it is a board.
#[derive(Clone, Copy)]
pub struct Section {
    pub start: usize,
    pub stop: usize,
    pub board: bool,
}

// A place where a part or a line begins, and the number of the next board. It may hold any numbers: a step is defined from all of them.
#[derive(Clone, Copy)]
pub struct BoardCursor {
    pub at: usize,
    pub number: usize,
    pub lines: bool,
}

// A section with the number that it has if it is a board, and the cursor after it; or none, with the cursor where it was.
#[derive(Clone, Copy)]
pub struct BoardStep {
    pub found: Option<(usize, Section)>,
    pub cursor: BoardCursor,
}

// Whether the text has a qx token.
pub fn holds_qx(text: &[u8]) -> bool
    ensures { result ≡ holds (ascii "qx") (stream text.now 0) }
{
    let mut c = Cursor { at: 0 };
    while let Some((k, _, next)) = next_command(text, c) {
        if k == QX {
            return true;
        }
        c = next;
    }
    false
}

// The place to which a qx is moved back: over mn and pn it stays, else it is the place after the token.
fn moved_back(k: u8, back: usize, next: usize) -> usize
    ensures { result ≡ pick (eqb k mn_no || eqb k pn_no) back next }
{
    if (k == MN) | (k == PN) {
        return back;
    }
    next
}

// The part that begins at a place. Where there is no token, it ends there too.
fn part_from(text: &[u8], at: usize) -> Section
    ensures { section_of result ≡ part_from text.now at }
{
    let mut back = at;
    let mut board = false;
    let mut c = at;
    loop {
        match part_token(text, c) {
            PartToken::Passed(next) => {
                c = next;
                back = next;
            }
            PartToken::Command(k, next) => {
                if (k == QX) & (at < back) {
                    return Section {
                        start: at,
                        stop: back,
                        board,
                    };
                }
                c = next;
                back = moved_back(k, back, c);
                board = board | (k == MD);
            }
            PartToken::Ended => {
                return Section {
                    start: at,
                    stop: c,
                    board,
                };
            }
        }
    }
}

// The line that begins at a place of the text.
fn line_from(text: &[u8], at: usize) -> Section
    requires { at ≤ length text.now }
    ensures { section_of result ≡ line_at text.now at }
{
    let stop = find_byte(text, b'\n', at);
    Section {
        start: at,
        stop,
        board: !is_blank(&text[at..stop]),
    }
}

// The number of the next board after a section.
fn next_number(number: usize, board: bool) -> usize
    ensures { result ≡ pick board (sat (number + 1)) number }
{
    if !board {
        return number;
    }
    if number < 18_446_744_073_709_551_615 {
        return number + 1;
    }
    number
}

// A section, with the cursor after it.
fn passed(c: BoardCursor, p: Section, at: usize) -> BoardStep
    ensures { visit_of result ≡ past (standing_of c) (section_of p) at }
{
    let cursor = BoardCursor {
        at,
        number: next_number(c.number, p.board),
        lines: c.lines,
    };
    BoardStep {
        found: Some((c.number, p)),
        cursor,
    }
}

impl BoardCursor {
    // The section at the cursor, with the cursor after it.
    pub fn next(self, text: &[u8]) -> BoardStep
        ensures { visit_of result ≡ visit text.now (standing_of self) }
    {
        let cursor = self;
        let stays = BoardStep {
            found: None,
            cursor,
        };
        if self.lines {
            if text.len() < self.at {
                return stays;
            }
            let line = line_from(text, self.at);
            return passed(self, line, line.stop + 1);
        }
        let p = part_from(text, self.at);
        if p.stop <= self.at {
            return stays;
        }
        passed(self, p, p.stop)
    }
}

// The next board's section, with the cursor after it; sections that are no board are passed. Without one, the cursor where it was.
pub fn next_board(text: &[u8], cursor: BoardCursor) -> BoardStep
    ensures { visit_of result ≡ next_board text.now (standing_of cursor) }
{
    let mut c = cursor;
    loop {
        let step = c.next(text);
        let Some((_, p)) = step.found else {
            return BoardStep {
                found: None,
                cursor,
            };
        };
        if p.board {
            return step;
        }
        c = step.cursor;
    }
}

// A cursor at the first section of a text that is short enough and UTF-8.
pub fn open_boards(text: &[u8]) -> Result<BoardCursor, Refusal>
    ensures { opened_of result ≡ open_boards text.now }
{
    open(text)?;
    let lines = !holds_qx(text);
    Ok(BoardCursor {
        at: 0,
        number: 0,
        lines,
    })
}
