// The calls that rows of six words give. (01: Records, "The calls stand in a list of rows lent by the caller")
ghost use Rattle.std.specs.Prelude.{◌≡◌};
ghost use Rattle.board_lent.specs.Calls.{call_of};

use lin_spec::{Call, Span};

// The call of a row.
pub fn call_of(row: [u32; 6]) -> Call
    ensures { result ≡ call_of row }
{
    let [bid, len, alerted, annotated, annotation, annotation_len] = row;
    Call {
        bid: Span { start: bid, len },
        alerted,
        annotated,
        annotation: Span {
            start: annotation,
            len: annotation_len,
        },
    }
}
