// The calls of a run of tokens, one at a time. (01: Board, mb and an)
ghost use Rattle.std.specs.Prelude.{◌≡◌, ◌<◌, ◌≤◌, ◌^◌, length};
ghost use Rattle.lin_spec.specs.Board.{without_end, call_of};
ghost use Rattle.lin_spec.specs.Records.{end_of};
ghost use Rattle.lin_spec.specs.Reading.{span_text};
ghost use Rattle.lin_spec.specs.Lent.{row_of};
ghost use Rattle.board_loop.specs.Calls.{with, Bids, Notes, GivesCall};

use board_fields::on_present;
use document::Cursor;
use document_commands::{AN, MB, next_command, span_of};
use lin_spec::{Call, Span};
use text::shown;

// An annotation, with the cursor at the next mb or at the end.
#[derive(Clone, Copy)]
struct Note {
    annotation: Option<Span>,
    cursor: Cursor,
}

// How long a value is without the exclamation marks at its end.
fn bid_len(value: &[u8]) -> usize
    ensures { (result ≡ length (without_end 0x21 value.now)) × (result ≤ length value.now) }
{
    let mut rest = value;
    while let Some((&last, before)) = rest.split_last() {
        if last != b'!' {
            break;
        }
        rest = before;
    }
    rest.len()
}

// The call of an mb value with an annotation or none.
pub(crate) fn call_of(text: &[u8], v: Span, annotation: Option<Span>) -> Call
    requires { end_of v ≤ length text.now }
    ensures { result ≡ row_of (with (call_of (span_text text.now) v) annotation) }
{
    let n = bid_len(shown(text, v));
    let bid = Span {
        start: v.start,
        len: n as u32,
    };
    Call::new(bid, n < v.len as usize, annotation)
}

// The next mb.
fn next_bid(text: &[u8], cursor: Cursor) -> Option<(Span, Cursor)>
    requires { length text.now < 2 ^ 32 }
    ensures { Bids text.now cursor.at result }
{
    let mut c = cursor;
    loop {
        match next_command(text, c) {
            Some((k, value, next)) => {
                if k == MB {
                    let v = span_of(value);
                    return Some((v, next));
                }
                c = next;
            }
            None => {
                return None;
            }
        }
    }
}

// The last an before the next mb.
fn next_note(text: &[u8], cursor: Cursor) -> Note
    requires { length text.now < 2 ^ 32 }
    ensures { Notes text.now cursor.at result }
{
    let mut annotation = None;
    let mut c = cursor;
    loop {
        match next_command(text, c) {
            Some((k, value, next)) => {
                if k == MB {
                    return Note {
                        annotation,
                        cursor: c,
                    };
                }
                annotation = on_present(k == AN, span_of(value), annotation);
                c = next;
            }
            None => {
                return Note {
                    annotation,
                    cursor: c,
                };
            }
        }
    }
}

// The next call.
pub fn next_call(text: &[u8], cursor: Cursor) -> Option<(Call, Cursor)>
    requires { length text.now < 2 ^ 32 }
    ensures { GivesCall text.now cursor.at result }
{
    match next_bid(text, cursor) {
        Some((v, c)) => {
            let note = next_note(text, c);
            let annotation = note.annotation;
            let after = note.cursor;
            let call = call_of(text, v, annotation);
            Some((call, after))
        }
        None => None,
    }
}
