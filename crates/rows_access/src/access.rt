// How many rows there are, and one row of them. (01: Records, "The calls stand in a list of rows lent by the caller")
ghost use Rattle.std.specs.Prelude.{◌≡◌, length, set, get_or, ltb};

use rows::CallRow;

// How many rows there are.
pub fn row_count(rows: &[CallRow]) -> usize
    ensures { result ≡ length rows.now }
{
    rows.len()
}

// The row at i, or the other where there is none.
pub fn get_row(rows: &[CallRow], i: usize, other: CallRow) -> CallRow
    ensures { result ≡ get_or rows.now i other }
{
    if i < rows.len() {
        return rows[i];
    }
    other
}

// Stores a row at i, if there is one, and says whether there is.
pub fn put_row(rows: &mut [CallRow], i: usize, row: CallRow) -> bool
    ensures { (result ≡ ltb i (length rows.old)) × (rows.new ≡ set rows.old i row) }
{
    if i < rows.len() {
        rows[i] = row;
        return true;
    }
    false
}
