// The exports of the entry of PBN records: the board that is made of one. (01: From PBN, `from_board`)
ghost use Rattle.std.specs.Prelude.{◌≡◌};
ghost use Rattle.lin_host.specs.Converting.{Conversion, from_board_numbers};

use lin_host::{LinConverted, LinPbn};

// Makes a board of a record. A call of the record takes six words: kind 0 to 5 for pass, double, redouble, bid, continue, blank; level 1 to 7 and strain
// 0 to 4 for C D H S N, of a bid; annotated 0 or 1; the raw annotation's start and length. An entry of the play is a card or, for a gap, 255. Notes are
// as for lin_annotation_text; rows and cards are filled as by lin_parse_lin. A code outside its range is refusal 8.
#[unsafe(no_mangle)]
pub extern "C" fn lin_from_board(
    text: &[u8],
    board: LinPbn,
    calls: &[u32],
    plays: &[u8],
    notes: &[u32; 768],
    out: &mut [u8],
    rows: &mut [u32],
    cards: &mut [u8],
) -> LinConverted
    ensures { ◌≡◌ {A = Conversion} (record { heading = result.heading; len = result.len; rows = rows.new; cards = cards.new; output = out.new }) (from_board_numbers text.now board calls.now plays.now notes.now out.old rows.old cards.old) }
{
    lin_host::lin_from_board(text, board, calls, plays, notes, out, rows, cards)
}
