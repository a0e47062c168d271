// The entries of files: how many boards, a board by its number, the name finder and the board cursor. (01: File; names; 02: N3)
ghost use Rattle.std.specs.Prelude.{◌≡◌, ℕ, List};
ghost use Rattle.lin_spec.specs.Fresh.{fresh_board};
ghost use Rattle.lin_spec.specs.File.{count_boards, file_heading, file_board, open_boards, visit, read_step};
ghost use Rattle.file_sections.specs.Sections.{standing_of, opened_of, visit_of};
ghost use Rattle.lin_host_numbers.specs.Answers.{numbers_of};
ghost use Rattle.lin_host_numbers.specs.Boards.{board_numbers, heading_numbers, Reading, reading_numbers};
ghost use Rattle.file_reader.specs.Steps.{read_of};
ghost use Rattle.lin_host.specs.Files.{FindsNumbers, standing, opened_numbers, visit_numbers, StepRead, read_numbers};

use file::{count_boards, file_board, file_heading};
use file_finder::find_name;
use file_reader::{BoardRead, read_board};
use file_sections::{BoardCursor, BoardStep, open_boards};
use lin_host_numbers::{
    LinAnswer, LinBoard, LinHeading, answer_numbers, board_numbers, heading_numbers,
};
use lin_spec::{Board, Refusal};

// The answer and the cursor: the place of the next part or line, the number of the next board, lines 0 or 1. An accepted call has the value 0; a refusal
// has the cursor 0, 0, 0.
#[repr(C)]
#[derive(Clone, Copy)]
pub struct LinBoards {
    pub answer: LinAnswer,
    pub at: u64,
    pub number: u64,
    pub lines: u32,
}

// found 1: a part or a line from start up to stop, board 0 or 1, with the number that it has if it is a board, and the cursor after it.
// found 0: none, and the cursor as it was.
#[repr(C)]
#[derive(Clone, Copy)]
pub struct LinSection {
    pub found: u32,
    pub number: u64,
    pub start: u64,
    pub stop: u64,
    pub board: u32,
    pub next_at: u64,
    pub next_number: u64,
}

// A step that reads. answer: the value 0, or the refusal. found 1: a board by its number, from start up to stop, the cursor after it, and how many calls
// and cards it has. found 0: none, the cursor where it stood, and a fresh board.
#[repr(C)]
#[derive(Clone, Copy)]
pub struct LinRead {
    pub answer: LinAnswer,
    pub found: u32,
    pub number: u64,
    pub start: u64,
    pub stop: u64,
    pub next_at: u64,
    pub next_number: u64,
    pub board: LinBoard,
    pub calls: u64,
    pub cards: u64,
}

// The answers as numbers.

#[tactic(auto, unfolding(crate::specs::Files::opened_numbers))]
fn opened_numbers(o: Result<BoardCursor, Refusal>) -> LinBoards
    ensures { result ≡ opened_numbers (opened_of o) }
{
    match o {
        Ok(c) => LinBoards {
            answer: answer_numbers(Ok(0)),
            at: c.at as u64,
            number: c.number as u64,
            lines: u32::from(c.lines),
        },
        Err(r) => LinBoards {
            answer: answer_numbers(Err(r)),
            at: 0,
            number: 0,
            lines: 0,
        },
    }
}

#[tactic(auto, unfolding(crate::specs::Files::visit_numbers))]
fn section_numbers(s: BoardStep) -> LinSection
    ensures { result ≡ visit_numbers (visit_of s) }
{
    match s.found {
        Some((n, p)) => LinSection {
            found: 1,
            number: n as u64,
            start: p.start as u64,
            stop: p.stop as u64,
            board: u32::from(p.board),
            next_at: s.cursor.at as u64,
            next_number: s.cursor.number as u64,
        },
        None => LinSection {
            found: 0,
            number: 0,
            start: 0,
            stop: 0,
            board: 0,
            next_at: s.cursor.at as u64,
            next_number: s.cursor.number as u64,
        },
    }
}

// A step without a board.
fn none_read(answer: LinAnswer, c: BoardCursor) -> LinRead
    ensures { result ≡ record { answer = answer; found = 0; number = 0; start = 0; stop = 0; next_at = c.at; next_number = c.number; board = board_numbers fresh_board; calls = 0; cards = 0 } }
{
    LinRead {
        answer,
        found: 0,
        number: 0,
        start: 0,
        stop: 0,
        next_at: c.at as u64,
        next_number: c.number as u64,
        board: board_numbers(Board::new()),
        calls: 0,
        cards: 0,
    }
}

#[tactic(auto, unfolding(crate::specs::Files::read_numbers, crate::specs::Files::visit_numbers))]
fn read_numbers(r: BoardRead) -> LinRead
    ensures { (rows cards : List ℕ) → result ≡ (read_numbers (read_of r rows cards)).read }
{
    match r.board {
        Ok(Some(b)) => LinRead {
            answer: answer_numbers(Ok(0)),
            found: 1,
            number: b.number as u64,
            start: b.section.start as u64,
            stop: b.section.stop as u64,
            next_at: r.cursor.at as u64,
            next_number: r.cursor.number as u64,
            board: board_numbers(b.heading.board),
            calls: b.heading.calls as u64,
            cards: b.heading.cards as u64,
        },
        Ok(None) => none_read(answer_numbers(Ok(0)), r.cursor),
        Err(e) => none_read(answer_numbers(Err(e)), r.cursor),
    }
}

// A cursor of any numbers; lines other than 0 counts as 1.
fn standing(at: u64, number: u64, lines: u32) -> BoardCursor
    ensures { standing_of result ≡ standing at number lines }
{
    BoardCursor {
        at: at as usize,
        number: number as usize,
        lines: lines != 0,
    }
}

// What lin_host_c exports.

pub fn lin_count_boards(text: &[u8]) -> LinAnswer
    ensures { result ≡ numbers_of (count_boards text.now) }
{
    answer_numbers(count_boards(text))
}

pub fn lin_file_heading(text: &[u8], number: u64) -> LinHeading
    ensures { result ≡ heading_numbers (file_heading text.now number) }
{
    heading_numbers(file_heading(text, number as usize))
}

// Rows and cards are as for lin_parse_lin.
pub fn lin_file_board(text: &[u8], number: u64, rows: &mut [u32], cards: &mut [u8]) -> LinHeading
    ensures { ◌≡◌ {A = Reading} (record { heading = result; rows = rows.new; cards = cards.new }) (reading_numbers (file_board text.now number rows.old cards.old)) }
{
    heading_numbers(file_board(text, number as usize, rows, cards))
}

// A refusal leaves the work space as it was; after a success it may hold anything.
pub fn lin_find_name(text: &[u8], name: &[u8], work: &mut [u32]) -> LinAnswer
    ensures { FindsNumbers text.now name.now work.old result work.new }
{
    answer_numbers(find_name(text, name, work))
}

pub fn lin_open_boards(text: &[u8]) -> LinBoards
    ensures { result ≡ opened_numbers (open_boards text.now) }
{
    opened_numbers(open_boards(text))
}

// The part or the line at a cursor of any numbers; lines other than 0 counts as 1.
pub fn lin_next_board(text: &[u8], at: u64, number: u64, lines: u32) -> LinSection
    ensures { result ≡ visit_numbers (visit text.now (standing at number lines)) }
{
    section_numbers(standing(at, number, lines).next(text))
}

// The next board from a cursor of any numbers, read; parts or lines that are none are passed. Rows and cards are as for lin_parse_lin. 1, 2 and 3 refuse
// the step, and 2 looks at the bytes from the cursor's place to the board's end.
pub fn lin_read_board(
    text: &[u8],
    at: u64,
    number: u64,
    lines: u32,
    rows: &mut [u32],
    cards: &mut [u8],
) -> LinRead
    ensures { ◌≡◌ {A = StepRead} (record { read = result; rows = rows.new; cards = cards.new }) (read_numbers (read_step text.now (standing at number lines) rows.old cards.old)) }
{
    read_numbers(read_board(text, standing(at, number, lines), rows, cards))
}
