// The entry of PBN records: the board that is made of one. (01: From PBN, `from_board`)
ghost use Rattle.std.specs.Prelude.{◌≡◌};
ghost use Rattle.lin_host.specs.Converting.{converted_numbers, Conversion, from_board_numbers};

use lin_host_numbers::{LinHeading, LinPbn, bad_record_codes, heading_numbers, record_of};
use lin_spec::{Converted, Refusal};
use pbn::from_board_with;
use writer_texts::PLAIN;

// The heading of the board, whose texts are places of the output, and how many bytes they have together. A refusal has none.
#[repr(C)]
#[derive(Clone, Copy)]
pub struct LinConverted {
    pub heading: LinHeading,
    pub len: u64,
}

fn converted_numbers(c: Result<Converted, Refusal>) -> LinConverted
    ensures { result ≡ converted_numbers c }
{
    LinConverted {
        heading: heading_numbers(c.map(|c| c.heading)),
        len: c.map_or(0, |c| c.len as u64),
    }
}

// Makes a board of a record. A call of the record takes six words: kind 0 to 5 for pass, double, redouble, bid, continue, blank; level 1 to 7 and strain
// 0 to 4 for C D H S N, of a bid; annotated 0 or 1; the raw annotation's start and length. An entry of the play is a card or, for a gap, 255. Notes are
// as for lin_annotation_text; rows and cards are filled as by lin_parse_lin. A code outside its range is refusal 8.
pub fn lin_from_board(
    text: &[u8],
    board: LinPbn,
    calls: &[u32],
    plays: &[u8],
    notes: &[u32; 768],
    out: &mut [u8],
    rows: &mut [u32],
    cards: &mut [u8],
) -> LinConverted
    ensures { ◌≡◌ {A = Conversion} (record { heading = result.heading; len = result.len; rows = rows.new; cards = cards.new; output = out.new }) (from_board_numbers text.now board calls.now plays.now notes.now out.old rows.old cards.old) }
{
    converted_numbers(from_board_with(
        bad_record_codes(board),
        PLAIN,
        text,
        record_of(board),
        calls,
        plays,
        notes,
        out,
        rows,
        cards,
    ))
}
