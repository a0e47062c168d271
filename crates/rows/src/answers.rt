// What moving rows answers, before any is moved: how many rows, or a refusal. (01: Eight refusals, 8 and 3)
ghost use Rattle.std.specs.Prelude.{◌≡◌};
ghost use Rattle.lin_spec.specs.Base.{any};
ghost use Rattle.lin_spec.specs.Lent.{call_rows, bad_flag};
ghost use Rattle.rows.specs.Rows.{spill_answer, fill_answer};

use board_lent::{bad_flag, call_of};
use lin_spec::{Refusal, RowKind};

// The answer to rows that are spilled into so many words.
pub(crate) fn spill_answer(structs: usize, words: usize) -> Result<usize, Refusal>
    ensures { result ≡ spill_answer structs words }
{
    if words / 6 < structs {
        return Err(Refusal::TooFewRows(RowKind::Calls, structs as u64));
    }
    Ok(structs)
}

// Whether a flag of a row in the words is neither 0 nor 1.
fn bad_flags(words: &[u32]) -> bool
    ensures { result ≡ any bad_flag (call_rows words.now) }
{
    words
        .as_chunks::<6>()
        .0
        .iter()
        .any(|&row| bad_flag(call_of(row)))
}

// The answer to so many rows that are filled from words.
pub(crate) fn fill_answer(structs: usize, words: &[u32]) -> Result<usize, Refusal>
    ensures { result ≡ fill_answer structs words.now }
{
    if bad_flags(words) {
        return Err(Refusal::OutOfRange);
    }
    let needed = words.len() / 6;
    if structs < needed {
        return Err(Refusal::TooFewRows(RowKind::Calls, needed as u64));
    }
    Ok(needed)
}
