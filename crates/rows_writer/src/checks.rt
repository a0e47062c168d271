// The checks before 7 of a board whose calls are lent in rows. (01: Eight refusals)
ghost use Rattle.std.specs.Prelude.{◌≡◌, ℕ, List};
ghost use Rattle.board_lent.specs.Heads.{board_of};
ghost use Rattle.board_lent.specs.Checks.{checked};
ghost use Rattle.rows.specs.declared.CallRow.{CallRow};
ghost use Rattle.rows.specs.Rows.{lent_rows};
ghost use Rattle.rows_writer.specs.Seen.{Seen};

use board_lent::{Head, bad_cards, head_meets, head_past};
use lin_spec::{LIMIT, Refusal};
use rows_walks::Scan;

// The first of the checks that meets the call, whatever the deal. `beyond` says whether the used bytes are beyond the room.
pub(crate) fn check_rows(
    text: &[u8],
    head: Head,
    cards: &[u8],
    seen: Scan,
    beyond: bool,
) -> Result<(), Refusal>
    ensures { (counts : List ℕ) (rs : List CallRow) → Seen text.now rs seen → result ≡ checked beyond (lent_rows text.now (board_of head counts) rs cards.now) }
{
    if LIMIT < text.len() {
        return Err(Refusal::TextTooLong);
    }
    if beyond {
        return Err(Refusal::OutOfRange);
    }
    if bad_cards(cards) {
        return Err(Refusal::OutOfRange);
    }
    if head_past(text, head) | seen.past {
        return Err(Refusal::SpanPastEnd);
    }
    let none: [u32; 1] = [0; 1];
    if head_meets(text, &none[..0], head) | seen.ill {
        return Err(Refusal::SpanNotUtf8);
    }
    Ok(())
}
