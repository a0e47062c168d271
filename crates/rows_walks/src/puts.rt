// The calls of lent rows, their texts cleaned, put into an output at a place that has room. (01: Writer, mb and an)
ghost use Rattle.std.specs.Prelude.{◌≤◌, length, take};
ghost use Rattle.output.specs.Put.{Room, Put};
ghost use Rattle.rows_walks.specs.Walks.{row_bytes, rows_bytes};

use rows::{CallRow, row_numbers};
use writer_texts::{Marks, put_call};

// Puts the call of a row.
fn put_row_call(out: &mut [u8], at: usize, text: &[u8], row: CallRow, marks: Marks) -> usize
    requires { Room out.old at (row_bytes marks.pipe marks.line text.now row) }
    ensures { Put out.old at (row_bytes marks.pipe marks.line text.now row) out.new result }
{
    put_call(out, at, text, row_numbers(row), marks)
}

// Puts the calls of the rows.
pub fn put_rows(out: &mut [u8], at: usize, text: &[u8], rows: &[CallRow], marks: Marks) -> usize
    requires { Room out.old at (rows_bytes marks.pipe marks.line text.now rows.now) }
    ensures { Put out.old at (rows_bytes marks.pipe marks.line text.now rows.now) out.new result }
{
    let mut o = at;
    for &row in rows {
        o = put_row_call(out, o, text, row, marks);
    }
    o
}
