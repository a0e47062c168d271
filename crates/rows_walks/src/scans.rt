// What checks 5 and 6 find in lent rows, and how many bytes their calls are written with. (01: Eight refusals, 5 to 7)
ghost use Rattle.std.specs.Prelude.{◌≡◌, take};
ghost use Rattle.text.specs.Index.{Indexed};
ghost use Rattle.rows_walks.specs.Walks.{looked_at_call, measured, scan_row, scanned};

use crate::Scan;
use board_lent::{call_bytes, call_meets, call_past};
use lin_spec::Call;
use output::sat_add;
use rows::{CallRow, row_numbers};
use writer_texts::call_len;

// Looks at the bytes of a call's texts.
fn look_at_call(text: &[u8], next: &[u32], c: Call, scan: Scan) -> Scan
    requires { Indexed text.now (take scan.blocks next.now) }
    ensures { result ≡ looked_at_call text.now c scan }
{
    let n = scan.blocks.min(next.len());
    let ill = scan.ill | call_meets(text, &next[..n], c);
    Scan {
        look: scan.look,
        blocks: scan.blocks,
        past: scan.past,
        ill,
        spans: scan.spans,
        need: scan.need,
    }
}

// Looks at the numbers of a call.
fn measure(text: &[u8], c: Call, scan: Scan) -> Scan
    ensures { result ≡ measured text.now c scan }
{
    let past = scan.past | call_past(text, c);
    let spans = sat_add(scan.spans, call_bytes(c));
    let need = sat_add(scan.need, call_len(text, c));
    Scan {
        look: scan.look,
        blocks: scan.blocks,
        past,
        ill: scan.ill,
        spans,
        need,
    }
}

// Looks at a row.
fn scan_row(text: &[u8], next: &[u32], row: CallRow, scan: Scan) -> Scan
    requires { Indexed text.now (take scan.blocks next.now) }
    ensures { result ≡ scan_row text.now row scan }
{
    let c = row_numbers(row);
    if scan.look {
        return look_at_call(text, next, c, scan);
    }
    measure(text, c, scan)
}

// Looks at all rows.
pub fn scan_rows(text: &[u8], next: &[u32], rows: &[CallRow], scan: Scan) -> Scan
    requires { Indexed text.now (take scan.blocks next.now) }
    ensures { result ≡ scanned text.now rows.now scan }
{
    let mut z = scan;
    for &row in rows {
        z = scan_row(text, next, row, z);
    }
    z
}
