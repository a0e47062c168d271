// The entries of boards: the heading that a text gives, and its board with rows and cards. (01: Board, `parse_lin`)
ghost use Rattle.std.specs.Prelude.{◌≡◌};
ghost use Rattle.lin_spec.specs.Reading.{read_heading, read_board};
ghost use Rattle.lin_host_numbers.specs.Boards.{heading_numbers, Reading, reading_numbers};

use board::{parse_lin, parse_lin_heading};
use lin_host_numbers::{LinHeading, heading_numbers};

// What lin_host_c exports.
pub fn lin_parse_heading(text: &[u8]) -> LinHeading
    ensures { result ≡ heading_numbers (read_heading text.now) }
{
    heading_numbers(parse_lin_heading(text))
}

// A call takes a row of six words: bid start and length, alerted, annotated, annotation start and length.
pub fn lin_parse_lin(text: &[u8], rows: &mut [u32], cards: &mut [u8]) -> LinHeading
    ensures { ◌≡◌ {A = Reading} (record { heading = result; rows = rows.new; cards = cards.new }) (reading_numbers (read_board text.now rows.old cards.old)) }
{
    heading_numbers(parse_lin(text, rows, cards))
}
