// The exports of the entries of files: how many boards, a board by its number, the name finder and the board cursor. (01: File; names; 02: N3)
ghost use Rattle.std.specs.Prelude.{◌≡◌};
ghost use Rattle.lin_spec.specs.File.{count_boards, file_heading, file_board, open_boards, visit, read_step};
ghost use Rattle.lin_host_numbers.specs.Answers.{numbers_of};
ghost use Rattle.lin_host_numbers.specs.Boards.{heading_numbers, Reading, reading_numbers};
ghost use Rattle.lin_host.specs.Files.{FindsNumbers, standing, opened_numbers, visit_numbers, StepRead, read_numbers};

use lin_host::{LinAnswer, LinBoards, LinHeading, LinRead, LinSection};

#[unsafe(no_mangle)]
pub extern "C" fn lin_count_boards(text: &[u8]) -> LinAnswer
    ensures { result ≡ numbers_of (count_boards text.now) }
{
    lin_host::lin_count_boards(text)
}

#[unsafe(no_mangle)]
pub extern "C" fn lin_file_heading(text: &[u8], number: u64) -> LinHeading
    ensures { result ≡ heading_numbers (file_heading text.now number) }
{
    lin_host::lin_file_heading(text, number)
}

// Rows and cards are as for lin_parse_lin.
#[unsafe(no_mangle)]
pub extern "C" fn lin_file_board(
    text: &[u8],
    number: u64,
    rows: &mut [u32],
    cards: &mut [u8],
) -> LinHeading
    ensures { ◌≡◌ {A = Reading} (record { heading = result; rows = rows.new; cards = cards.new }) (reading_numbers (file_board text.now number rows.old cards.old)) }
{
    lin_host::lin_file_board(text, number, rows, cards)
}

// A refusal leaves the work space as it was; after a success it may hold anything.
#[unsafe(no_mangle)]
pub extern "C" fn lin_find_name(text: &[u8], name: &[u8], work: &mut [u32]) -> LinAnswer
    ensures { FindsNumbers text.now name.now work.old result work.new }
{
    lin_host::lin_find_name(text, name, work)
}

#[unsafe(no_mangle)]
pub extern "C" fn lin_open_boards(text: &[u8]) -> LinBoards
    ensures { result ≡ opened_numbers (open_boards text.now) }
{
    lin_host::lin_open_boards(text)
}

// The part or the line at a cursor of any numbers; lines other than 0 counts as 1.
#[unsafe(no_mangle)]
pub extern "C" fn lin_next_board(text: &[u8], at: u64, number: u64, lines: u32) -> LinSection
    ensures { result ≡ visit_numbers (visit text.now (standing at number lines)) }
{
    lin_host::lin_next_board(text, at, number, lines)
}

// The next board from a cursor of any numbers, read; parts or lines that are none are passed. Rows and cards are as for lin_parse_lin. 1, 2 and 3 refuse
// the step, and 2 looks at the bytes from the cursor's place to the board's end.
#[unsafe(no_mangle)]
pub extern "C" fn lin_read_board(
    text: &[u8],
    at: u64,
    number: u64,
    lines: u32,
    rows: &mut [u32],
    cards: &mut [u8],
) -> LinRead
    ensures { ◌≡◌ {A = StepRead} (record { read = result; rows = rows.new; cards = cards.new }) (read_numbers (read_step text.now (standing at number lines) rows.old cards.old)) }
{
    lin_host::lin_read_board(text, at, number, lines, rows, cards)
}
