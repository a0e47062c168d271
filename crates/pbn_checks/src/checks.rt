// The checks of a PBN record: 1, 8, 5 and 6, each over all that is lent before the next. (01: From PBN; Eight refusals)
ghost use Rattle.std.specs.Prelude.{◌≡◌, ◌||◌, [], ◌^◌, ◌≤◌, ◌<◌, length};
ghost use Rattle.lin_spec.specs.Base.{any};
ghost use Rattle.lin_spec.specs.Records.{limit};
ghost use Rattle.lin_spec.specs.Refusals.{passes_end, ill_span};
ghost use Rattle.lin_spec.specs.Lent.{span_in};
ghost use Rattle.lin_spec.specs.Pbn.{pbn, pbn_names, pbn_rows, raw_of, bad_entry, bad_call, bad_board_number, raw_spans, name_spans, pbn_spans};
ghost use Rattle.text.specs.Fault.{fault_of};
ghost use Rattle.text.specs.Index.{Indexed};
ghost use Rattle.pbn_checks.specs.Checks.{record_checked};

use crate::records::{pbn_call_of, pbn_names};
use lin_spec::{LIMIT, PbnBoard, PbnCall, Refusal, Span};
use pbn_annotation::{any_note_faulty, notes_pass};
use text::{Fault, faulty, index_text};

// Whether a number of a call is outside its range. Level and strain are those of a bid alone.
fn bad_call(c: PbnCall) -> bool
    ensures { result ≡ bad_call c }
{
    let bid = (c.level == 0) | ((7 < c.level) | (4 < c.strain));
    (5 < c.kind) | (((c.kind == 3) & bid) | (1 < c.annotated))
}

// Whether a call has such a number.
fn bad_calls(calls: &[u32]) -> bool
    ensures { result ≡ any bad_call (pbn_rows calls.now) }
{
    calls
        .as_chunks::<6>()
        .0
        .iter()
        .any(|&row| bad_call(pbn_call_of(row)))
}

// Whether an entry of a play is neither a card nor a gap.
fn bad_entry(b: u8) -> bool
    ensures { result ≡ bad_entry b }
{
    (51 < b) & (b != 255)
}

// Whether a play has such an entry.
fn bad_plays(plays: &[u8]) -> bool
    ensures { result ≡ any bad_entry plays.now }
{
    plays.iter().any(|&b| bad_entry(b))
}

// Whether a board number is outside 1 to 65,535.
fn bad_board_number(n: Option<u32>) -> bool
    ensures { result ≡ bad_board_number n }
{
    match n {
        None => false,
        Some(k) => (k == 0) | (65_535 < k),
    }
}

// Whether a text that is present has this fault.
fn present_faulty(text: &[u8], next: &[u32], x: Option<Span>, fault: Fault) -> bool
    requires { Indexed text.now next.now }
    ensures { result ≡ any (fault_of fault text.now) (span_in x) }
{
    match x {
        None => false,
        Some(s) => faulty(text, next, s, fault),
    }
}

// Whether the raw annotation of a call has this fault.
fn raw_faulty(text: &[u8], next: &[u32], c: PbnCall, fault: Fault) -> bool
    requires { Indexed text.now next.now }
    ensures { result ≡ any (fault_of fault text.now) (span_in (raw_of c)) }
{
    if c.annotated == 0 {
        return false;
    }
    faulty(text, next, c.annotation, fault)
}

// Whether the raw annotation of a call has it, dropped calls among them.
fn raws_faulty(text: &[u8], next: &[u32], calls: &[u32], fault: Fault) -> bool
    requires { Indexed text.now next.now }
    ensures { result ≡ any (fault_of fault text.now) (raw_spans (pbn_rows calls.now)) }
{
    calls
        .as_chunks::<6>()
        .0
        .iter()
        .any(|&row| raw_faulty(text, next, pbn_call_of(row), fault))
}

// Whether a name of the record has it.
fn names_faulty(text: &[u8], next: &[u32], board: PbnBoard, fault: Fault) -> bool
    requires { Indexed text.now next.now }
    ensures { result ≡ any (fault_of fault text.now) (name_spans (pbn_names board)) }
{
    pbn_names(board)
        .iter()
        .any(|&name| present_faulty(text, next, name, fault))
}

// Whether a number of the record is outside its range.
fn bad_record(number: Option<u32>, calls: &[u32], plays: &[u8]) -> bool
    ensures { result ≡ (bad_board_number number || (any bad_call (pbn_rows calls.now) || any bad_entry plays.now)) }
{
    if bad_board_number(number) {
        return true;
    }
    if bad_calls(calls) {
        return true;
    }
    bad_plays(plays)
}

// Whether a text that the record names has this fault.
fn record_faulty(
    text: &[u8],
    next: &[u32],
    board: PbnBoard,
    calls: &[u32],
    notes: &[u32; 768],
    fault: Fault,
) -> bool
    requires { Indexed text.now next.now }
    ensures { result ≡ any (fault_of fault text.now) (pbn_spans (pbn text.now board calls.now [] notes.now)) }
{
    let event = board.event;
    let date = board.date;
    let id = board.id;
    if names_faulty(text, next, board, fault) {
        return true;
    }
    if present_faulty(text, next, event, fault) {
        return true;
    }
    if present_faulty(text, next, date, fault) {
        return true;
    }
    if present_faulty(text, next, id, fault) {
        return true;
    }
    if raws_faulty(text, next, calls, fault) {
        return true;
    }
    any_note_faulty(text, next, notes, fault)
}

// Whether a text that the record names passes the end, for which no index is needed.
fn record_past(text: &[u8], board: PbnBoard, calls: &[u32], notes: &[u32; 768]) -> bool
    ensures { result ≡ any (passes_end text.now) (pbn_spans (pbn text.now board calls.now [] notes.now)) }
{
    record_faulty(text, &calls[..0], board, calls, notes, Fault::PastEnd)
}

// 0 where the raw annotation of a call is absent.
fn raw_annotation_len(c: PbnCall) -> u64
    ensures { result < 2 ^ 32 }
{
    if c.annotated == 0 {
        return 0;
    }
    let raw = c.annotation;
    raw.len as u64
}

// Whether the raw annotations have together more bytes than so many. It says only how to look, which no answer depends on, so it promises nothing.
fn raws_pass(bytes: usize, calls: &[u32]) -> bool {
    let mut left = bytes as u64;
    for &row in calls.as_chunks::<6>().0 {
        let n = raw_annotation_len(pbn_call_of(row));
        if left < n {
            return true;
        }
        left -= n;
    }
    false
}

// Whether a text that the record names is not UTF-8. Where its raw annotations, or its notes, are together longer than the text, that is looked at once.
fn record_ill(text: &[u8], board: PbnBoard, calls: &[u32], notes: &[u32; 768]) -> bool
    requires { length text.now ≤ limit }
    ensures { result ≡ any (ill_span text.now) (pbn_spans (pbn text.now board calls.now [] notes.now)) }
{
    let once = raws_pass(text.len(), calls) | notes_pass(text.len(), notes);
    if !once {
        return record_faulty(text, &calls[..0], board, calls, notes, Fault::NotUtf8);
    }
    let mut next = [0; 1025];
    index_text(text, &mut next);
    record_faulty(text, &next, board, calls, notes, Fault::NotUtf8)
}

// The first of the checks that meets the record. `other` says whether another number of the call is outside its range.
pub fn check_record(
    other: bool,
    text: &[u8],
    board: PbnBoard,
    calls: &[u32],
    plays: &[u8],
    notes: &[u32; 768],
) -> Result<(), Refusal>
    ensures { result ≡ record_checked other (pbn text.now board calls.now plays.now notes.now) }
{
    let number = board.number;
    if LIMIT < text.len() {
        return Err(Refusal::TextTooLong);
    }
    if other {
        return Err(Refusal::OutOfRange);
    }
    if bad_record(number, calls, plays) {
        return Err(Refusal::OutOfRange);
    }
    if record_past(text, board, calls, notes) {
        return Err(Refusal::SpanPastEnd);
    }
    if record_ill(text, board, calls, notes) {
        return Err(Refusal::SpanNotUtf8);
    }
    Ok(())
}
