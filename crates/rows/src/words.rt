// Rows filled from words, and spilled into words, six to a row. (01: Records, "The calls stand in a list of rows lent by the caller")
ghost use Rattle.std.specs.Prelude.{◌≡◌, ℕ, ◌-◌, ◌≤◌, length};
ghost use Rattle.lin_spec.specs.Lent.{call_in};
ghost use Rattle.output.specs.Put.{Room, Put};
ghost use Rattle.rows.specs.declared.CallRow.{CallRow};
ghost use Rattle.rows.specs.Rows.{row_in, row_numbers, struct_words, Moving, fill_of, spill_of};

use crate::CallRow;
use crate::answers::{fill_answer, spill_answer};
use board_lent::call_of;
use lin_spec::{Call, Refusal};
use output::put_all;

// The row of a call's six numbers.
pub fn row_of(c: Call) -> CallRow
    ensures { result ≡ row_in (call_in c) }
{
    CallRow {
        bid: c.bid,
        alerted: c.alerted != 0,
        annotation: (c.annotated != 0).then_some(c.annotation),
    }
}

// Fills the rows, from the first on, with those that the words give, and says how many; or refuses, and changes nothing.
pub fn fill_rows(rows: &mut [CallRow], words: &[u32]) -> Result<usize, Refusal>
    ensures { ◌≡◌ {A = Moving CallRow} (record { answer = result; after = rows.new }) (fill_of words.now rows.old) }
{
    let moved = fill_answer(rows.len(), words);
    if let Ok(_) = moved {
        for (i, &row) in words.as_chunks::<6>().0.iter().enumerate() {
            rows[i] = row_of(call_of(row));
        }
    }
    moved
}

// The six numbers of a row: an annotation that is absent has no place.
pub fn row_numbers(row: CallRow) -> Call
    ensures { result ≡ row_numbers row }
{
    Call::new(row.bid, row.alerted, row.annotation)
}

// The six words of a row.
pub(crate) fn words_of(row: CallRow) -> [u32; 6]
    ensures { result ≡ struct_words row }
{
    let c = row_numbers(row);
    [
        c.bid.start,
        c.bid.len,
        c.alerted,
        c.annotated,
        c.annotation.start,
        c.annotation.len,
    ]
}

// Puts the words of a row.
fn put_row_words(out: &mut [u32], at: usize, row: CallRow) -> usize
    requires { Room out.old at (struct_words row) }
    ensures { Put out.old at (struct_words row) out.new result }
{
    put_all(out, at, &words_of(row))
}

// Spills the rows into the words, from the first on, and says how many; or refuses, and changes nothing.
pub fn spill_rows(rows: &[CallRow], words: &mut [u32]) -> Result<usize, Refusal>
    ensures { ◌≡◌ {A = Moving ℕ} (record { answer = result; after = words.new }) (spill_of rows.now words.old) }
{
    let moved = spill_answer(rows.len(), words.len());
    if let Ok(_) = moved {
        let mut at = 0;
        for &row in rows {
            at = put_row_words(words, at, row);
        }
    }
    moved
}
