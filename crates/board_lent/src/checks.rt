// The checks of a lent board: 1, 8, 5 and 6, each over all that is lent before the next. (01: Eight refusals)
ghost use Rattle.std.specs.Prelude.{◌≡◌, Bool, List, ℕ, ◌+◌, ◌≤◌, ◌<◌, length};
ghost use Rattle.lin_spec.specs.Base.{any};
ghost use Rattle.lin_spec.specs.Records.{limit};
ghost use Rattle.lin_spec.specs.Refusals.{passes_end};
ghost use Rattle.lin_spec.specs.Lent.{call_rows, lent, lent_spans, span_in, bad_flag, bad_cards};
ghost use Rattle.lin_spec.specs.declared.Span.{Span};
ghost use Rattle.text.specs.Index.{Indexed};
ghost use Rattle.board_lent.specs.Calls.{spans_of_call, text_bytes};
ghost use Rattle.board_lent.specs.Heads.{board_of, head_spans};
ghost use Rattle.board_lent.specs.Checks.{checked, amiss, Started, RowsBounded, Bounded};

use crate::calls::call_of;
use crate::heads::Head;
use lin_spec::{Call, LIMIT, Refusal, Span};
use text::{index_text, past_end, span_ill, well_formed_len};

// Whether a card is none of the 52. Each is looked at, so that many are at once.
pub fn bad_cards(cards: &[u8]) -> bool
    ensures { result ≡ bad_cards cards.now }
{
    let mut bad = false;
    for &card in cards {
        bad |= 51 < card;
    }
    bad
}

// Whether a flag of a call is neither 0 nor 1.
pub fn bad_flag(c: Call) -> bool
    ensures { result ≡ bad_flag c }
{
    (1 < c.alerted) | (1 < c.annotated)
}

// Whether 5 or 6 meets a span.
fn meets(text: &[u8], next: &[u32], x: Span) -> bool
    requires { Indexed text.now next.now }
    ensures { result ≡ amiss text.now x }
{
    if past_end(text, x) {
        return true;
    }
    span_ill(text, next, x)
}

// Whether 5 or 6 meets a text of a call. The place of an annotation that is absent is not looked at.
pub fn call_meets(text: &[u8], next: &[u32], c: Call) -> bool
    requires { Indexed text.now next.now }
    ensures { result ≡ any (amiss text.now) (spans_of_call c) }
{
    if meets(text, next, c.bid) {
        return true;
    }
    if c.annotated == 0 {
        return false;
    }
    meets(text, next, c.annotation)
}

// Whether a text that is present passes a test.
fn any_present<F: Fn(Span) -> bool>(x: Option<Span>, test: F) -> bool
    requires { F.IsAlwaysCallable test }
    ensures { (p : Span → Bool) → ((y : Span) (r : Bool) → F.post test y r → r ≡ p y) → result ≡ any p (span_in x) }
{
    match x {
        None => false,
        Some(s) => test(s),
    }
}

// Whether a text of the heading passes a test.
fn any_text<F: Fn(Span) -> bool>(head: Head, test: F) -> bool
    requires { F.IsAlwaysCallable test }
    ensures { (p : Span → Bool) → ((y : Span) (r : Bool) → F.post test y r → r ≡ p y) → result ≡ any p (head_spans head) }
{
    head.names.iter().any(|&x| test(x))
        | any_present(head.title, &test)
        | any_present(head.room_board, &test)
        | any_present(head.board_header, &test)
}

// Whether 5 or 6 meets a text of the heading.
pub fn head_meets(text: &[u8], next: &[u32], head: Head) -> bool
    requires { Indexed text.now next.now }
    ensures { result ≡ any (amiss text.now) (head_spans head) }
{
    any_text(head, |x| meets(text, next, x))
}

// What is wrong with the numbers of what is lent: whether 8 meets a card or a flag, and 5 a span.
#[derive(Clone, Copy)]
pub struct Bounds {
    pub number: bool,
    pub past: bool,
}

// Whether a text of a call passes the end. Both texts are looked at.
pub fn call_past(text: &[u8], c: Call) -> bool
    ensures { result ≡ any (passes_end text.now) (spans_of_call c) }
{
    let bid = past_end(text, c.bid);
    let annotation = past_end(text, c.annotation);
    bid | ((c.annotated != 0) & annotation)
}

// What is wrong with the numbers of the rows. Each is looked at once.
fn row_bounds(text: &[u8], rows: &[u32]) -> Bounds
    ensures { RowsBounded text.now rows.now result }
{
    let mut number = false;
    let mut past = false;
    for &row in rows.as_chunks::<6>().0 {
        let c = call_of(row);
        number |= bad_flag(c);
        past |= call_past(text, c);
    }
    Bounds { number, past }
}

// Whether a text of the heading passes the end.
pub fn head_past(text: &[u8], head: Head) -> bool
    ensures { result ≡ any (passes_end text.now) (head_spans head) }
{
    any_text(head, |x| past_end(text, x))
}

// What is wrong with the numbers of a lent board, whatever its deal.
pub fn bounds_of(text: &[u8], head: Head, rows: &[u32], cards: &[u8]) -> Bounds
    ensures { (counts : List ℕ) → Bounded (lent text.now (board_of head counts) rows.now cards.now) result }
{
    let row = row_bounds(text, rows);
    let number = bad_cards(cards) | row.number;
    let past = head_past(text, head) | row.past;
    Bounds { number, past }
}

// Whether 5 or 6 meets a text of a row.
fn rows_meet(text: &[u8], next: &[u32], rows: &[u32]) -> bool
    requires { Indexed text.now next.now }
    ensures { result ≡ any (λ c. any (amiss text.now) (spans_of_call c)) (call_rows rows.now) }
{
    rows.as_chunks::<6>()
        .0
        .iter()
        .any(|&row| call_meets(text, next, call_of(row)))
}

// The bid and the annotation together.
pub fn call_bytes(c: Call) -> u64
    ensures { result ≡ text_bytes c }
{
    if c.annotated == 0 {
        return c.bid.len as u64;
    }
    (c.bid.len as u64) + (c.annotation.len as u64)
}

// Whether the texts of the rows have together more bytes than the text. It says only how to look, which no answer depends on, so it promises nothing.
pub fn spans_pass(len: usize, rows: &[u32]) -> bool {
    let mut left = len as u64;
    for &row in rows.as_chunks::<6>().0 {
        let n = call_bytes(call_of(row));
        if left < n {
            return true;
        }
        left -= n;
    }
    false
}

// Whether the texts of the rows are best looked at one by one: in a text that is long for its rows, and has no fewer bytes than they have together. It promises
// nothing either.
pub fn one_by_one(len: usize, rows: &[u32]) -> bool {
    if (len <= 256) | (len / 4 <= rows.len()) {
        return false;
    }
    !spans_pass(len, rows)
}

// The index that a lent board is looked at with first: its first word, and how many words it has, one or none.
#[derive(Clone, Copy)]
struct Start {
    first: u32,
    words: usize,
}

// No word where the texts of the rows are looked at one by one; else the longest well-formed start. (A text that is too long was refused before.)
fn start_of(text: &[u8], rows: &[u32]) -> Start
    ensures { Started text.now result }
{
    if LIMIT < text.len() {
        return Start { first: 0, words: 0 };
    }
    if one_by_one(text.len(), rows) {
        return Start { first: 0, words: 0 };
    }
    let n = well_formed_len(text);
    Start {
        first: n as u32,
        words: 1,
    }
}

// Whether 5 or 6 meets a text of a row, with a word for each block of the text: no text is looked at for longer than a block.
fn rows_by_blocks(text: &[u8], rows: &[u32]) -> bool
    requires { length text.now ≤ limit }
    ensures { result ≡ any (λ c. any (amiss text.now) (spans_of_call c)) (call_rows rows.now) }
{
    let mut next = [0u32; 1025];
    index_text(text, &mut next);
    rows_meet(text, &next, rows)
}

// The same. The index of all blocks is made only where the text is ill-formed and the rows have more bytes than it.
fn rows_ill(text: &[u8], next: &[u32], rows: &[u32]) -> bool
    requires { Indexed text.now next.now × (0 < length next.now → length text.now ≤ limit) }
    ensures { result ≡ any (λ c. any (amiss text.now) (spans_of_call c)) (call_rows rows.now) }
{
    if next.len() == 0 {
        return rows_meet(text, next, rows);
    }
    if text.len() <= next[0] as usize {
        return rows_meet(text, next, rows);
    }
    if spans_pass(text.len(), rows) {
        return rows_by_blocks(text, rows);
    }
    rows_meet(text, next, rows)
}

// Whether 5 or 6 meets a text of a lent board, whatever its deal and its cards, in time linear in the text and the rows. (The heading has seven texts at most.)
pub fn ill_texts(text: &[u8], head: Head, rows: &[u32]) -> bool
    ensures { (counts cards : List ℕ) → result ≡ any (amiss text.now) (lent_spans (lent text.now (board_of head counts) rows.now cards)) }
{
    let start = start_of(text, rows);
    let words = start.words;
    let word = start.first;
    let first = [word; 1];
    let row = rows_ill(text, &first[..words], rows);
    head_meets(text, &first[..words], head) | row
}

// The first of the checks that meets the call, whatever the deal. `other` says whether another number of the call is outside its range.
pub fn check_board(
    other: bool,
    text: &[u8],
    head: Head,
    rows: &[u32],
    cards: &[u8],
) -> Result<(), Refusal>
    ensures { (counts : List ℕ) → result ≡ checked other (lent text.now (board_of head counts) rows.now cards.now) }
{
    if LIMIT < text.len() {
        return Err(Refusal::TextTooLong);
    }
    if other {
        return Err(Refusal::OutOfRange);
    }
    let found = bounds_of(text, head, rows, cards);
    if found.number {
        return Err(Refusal::OutOfRange);
    }
    if found.past {
        return Err(Refusal::SpanPastEnd);
    }
    if ill_texts(text, head, rows) {
        return Err(Refusal::SpanNotUtf8);
    }
    Ok(())
}
