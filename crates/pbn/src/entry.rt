// The entry: 1, 8, 5 and 6 over the whole record; 3, by how many calls and cards are kept; 7, by where the texts end; then texts, rows and cards,
// all of them. (01: From PBN; Eight refusals)
ghost use Rattle.std.specs.Prelude.{◌≡◌, false, ◌≤◌, length};
ghost use Rattle.lin_spec.specs.Records.{limit};
ghost use Rattle.lin_spec.specs.Pbn.{pbn, bad_pbn, Conversion, convert_board, convert};
ghost use Rattle.pbn.specs.Made.{KeptCounted, fitted_record};

use crate::heading::made_heading;
use lin_spec::{Converted, PbnBoard, Refusal, RowKind, room};
use output::sat_add;
use pbn_checks::{check_record, pbn_names};
use pbn_texts::{
    kept_calls, kept_cards, layout_of, pbn_calls_len, put_kept_cards, put_kept_rows, put_texts,
    sources_of,
};
use writer_texts::{Marks, PLAIN};

// Stores the board of a record that the checks before 7 have passed, with n of its calls and k of its cards kept, if the output has room for its
// texts.
fn convert_counted(
    marks: Marks,
    text: &[u8],
    board: PbnBoard,
    calls: &[u32],
    plays: &[u8],
    notes: &[u32; 768],
    out: &mut [u8],
    rows: &mut [u32],
    cards: &mut [u8],
    n: usize,
    k: usize,
) -> Result<Converted, Refusal>
    requires { KeptCounted text.now calls.now plays.now rows.old cards.old n k }
    ensures { ◌≡◌ {A = Conversion} (record { answer = result; rows = rows.new; cards = cards.new; output = out.new }) (fitted_record marks.pipe marks.line (pbn text.now board calls.now plays.now notes.now) out.old rows.old cards.old) }
{
    let names = pbn_names(board);
    let sources = sources_of(text, board);
    let layout = layout_of(text, names, sources, marks);
    let need = sat_add(layout.calls as u64, pbn_calls_len(text, calls, notes));
    if (room(out.len()) as u64) < need {
        return Err(Refusal::OutputTooSmall(need));
    }
    let len = put_texts(out, text, names, sources, marks, calls, notes);
    put_kept_rows(rows, layout.calls, text, calls, notes);
    put_kept_cards(cards, plays);
    let heading = made_heading(board, layout, n, k);
    Ok(Converted { heading, len })
}

// Stores the board of a record that the checks before 3 have passed, if there are rows, places and room for all of it.
fn convert_checked(
    marks: Marks,
    text: &[u8],
    board: PbnBoard,
    calls: &[u32],
    plays: &[u8],
    notes: &[u32; 768],
    out: &mut [u8],
    rows: &mut [u32],
    cards: &mut [u8],
) -> Result<Converted, Refusal>
    requires { (length text.now ≤ limit) × (bad_pbn (pbn text.now board calls.now plays.now notes.now) ≡ false) }
    ensures { ◌≡◌ {A = Conversion} (record { answer = result; rows = rows.new; cards = cards.new; output = out.new }) (fitted_record marks.pipe marks.line (pbn text.now board calls.now plays.now notes.now) out.old rows.old cards.old) }
{
    let n = kept_calls(calls);
    if rows.len() / 6 < n {
        return Err(Refusal::TooFewRows(RowKind::Calls, n as u64));
    }
    let k = kept_cards(plays);
    if cards.len() < k {
        return Err(Refusal::TooFewRows(RowKind::Cards, k as u64));
    }
    convert_counted(
        marks, text, board, calls, plays, notes, out, rows, cards, n, k,
    )
}

// Makes a board of a record with these marks: its texts go into the output from the first byte on, its calls into the rows, its cards into the
// places; or refuses, and changes nothing. `other` says whether another number of the call is outside its range.
pub fn from_board_with(
    other: bool,
    marks: Marks,
    text: &[u8],
    board: PbnBoard,
    calls: &[u32],
    plays: &[u8],
    notes: &[u32; 768],
    out: &mut [u8],
    rows: &mut [u32],
    cards: &mut [u8],
) -> Result<Converted, Refusal>
    ensures { ◌≡◌ {A = Conversion} (record { answer = result; rows = rows.new; cards = cards.new; output = out.new }) (convert_board other marks.pipe marks.line (pbn text.now board calls.now plays.now notes.now) out.old rows.old cards.old) }
{
    check_record(other, text, board, calls, plays, notes)?;
    convert_checked(marks, text, board, calls, plays, notes, out, rows, cards)
}

// Makes a board of a record: its texts go into the output from the first byte on, its calls into the rows, its cards into the places; or
// refuses, and changes nothing.
pub fn from_board(
    text: &[u8],
    board: PbnBoard,
    calls: &[u32],
    plays: &[u8],
    notes: &[u32; 768],
    out: &mut [u8],
    rows: &mut [u32],
    cards: &mut [u8],
) -> Result<Converted, Refusal>
    ensures { ◌≡◌ {A = Conversion} (record { answer = result; rows = rows.new; cards = cards.new; output = out.new }) (convert (pbn text.now board calls.now plays.now notes.now) out.old rows.old cards.old) }
{
    let marks = PLAIN;
    from_board_with(
        false, marks, text, board, calls, plays, notes, out, rows, cards,
    )
}
