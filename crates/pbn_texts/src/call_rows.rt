// The rows of the kept calls: where the texts of each stand. (01: From PBN; Records, "The calls stand in a list of rows lent by the caller")
ghost use Rattle.std.specs.Prelude.{◌≡◌, ◌+◌, ◌≤◌, length};
ghost use Rattle.lin_spec.specs.Records.{limit};
ghost use Rattle.lin_spec.specs.Pbn.{pbn_rows};
ghost use Rattle.output.specs.Put.{Room, Put};
ghost use Rattle.pbn_texts.specs.Rows.{three_text, noted_text, kept_row_text, placed_row, placed_rows};
ghost use Rattle.pbn_texts.specs.Calls.{pbn_call_bytes, pbn_calls_bytes};

use crate::calls::{is_kept, pbn_bid_len, pbn_note_len};
use lin_spec::PbnCall;
use output::put;
use pbn_checks::pbn_call_of;

// Stores three words.
fn put_three(out: &mut [u32], at: usize, x: u32, y: u32, z: u32) -> usize
    requires { Room out.old at (three_text x y z) }
    ensures { Put out.old at (three_text x y z) out.new result }
{
    let a = put(out, at, x);
    let b = put(out, a, y);
    put(out, b, z)
}

// Stores where an annotation stands: one without a byte is absent.
fn put_noted(out: &mut [u32], at: usize, start: u32, len: u32) -> usize
    requires { Room out.old at (noted_text start len) }
    ensures { Put out.old at (noted_text start len) out.new result }
{
    if len == 0 {
        return put_three(out, at, 0, 0, 0);
    }
    put_three(out, at, 1, start, len)
}

// Stores the row of a call: its bid, no alert, its annotation.
fn put_kept_row(out: &mut [u32], at: usize, bid: u32, len: u32, start: u32, note: u32) -> usize
    requires { Room out.old at (kept_row_text bid len start note) }
    ensures { Put out.old at (kept_row_text bid len start note) out.new result }
{
    let a = put_three(out, at, bid, len, 0);
    put_noted(out, a, start, note)
}

// Where the next row goes, and the next text.
#[derive(Clone, Copy)]
struct Places {
    row: usize,
    text: u32,
}

// Stores the row of a call whose texts stand at their place, nothing for a call that is dropped.
fn put_placed(rows: &mut [u32], p: Places, text: &[u8], c: PbnCall, notes: &[u32; 768]) -> Places
    requires { Room rows.old p.row (placed_row text.now notes.now p.text c) × (p.text + length (pbn_call_bytes text.now notes.now c) ≤ limit) }
    ensures { Put rows.old p.row (placed_row text.now notes.now p.text c) rows.new result.row × (result.text ≡ p.text + length (pbn_call_bytes text.now notes.now c)) }
{
    if !is_kept(c) {
        return p;
    }
    let at = p.text;
    let bid = pbn_bid_len(c) as u32;
    let note = pbn_note_len(text, c, notes) as u32;
    let row = put_kept_row(rows, p.row, at, bid, at + bid, note);
    Places {
        row,
        text: at + bid + note,
    }
}

// Stores the rows of the calls, whose texts stand from `at` on.
pub fn put_kept_rows(
    rows: &mut [u32],
    at: u32,
    text: &[u8],
    calls: &[u32],
    notes: &[u32; 768],
) -> usize
    requires { Room rows.old 0 (placed_rows text.now notes.now at (pbn_rows calls.now)) × (at + length (pbn_calls_bytes text.now notes.now (pbn_rows calls.now)) ≤ limit) }
    ensures { Put rows.old 0 (placed_rows text.now notes.now at (pbn_rows calls.now)) rows.new result }
{
    let mut p = Places { row: 0, text: at };
    for &row in calls.as_chunks::<6>().0 {
        p = put_placed(rows, p, text, pbn_call_of(row), notes);
    }
    p.row
}
