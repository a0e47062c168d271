// Texts and calls compared by bytes, each span out of its own text. (01: equality)
ghost use Rattle.std.specs.Prelude.{◌≡◌, not, ◌&&◌, map, ◌≤◌, length, eqb, leb};
ghost use Rattle.lin_spec.specs.Base.{eq_all, eq_list};
ghost use Rattle.lin_spec.specs.Records.{limit, end_of, bytes_at};
ghost use Rattle.lin_spec.specs.Board.{map_option};
ghost use Rattle.lin_spec.specs.Equality.{eq_option, eq_flag, eq_call};
ghost use Rattle.text.specs.Apart.{common, Apart};
ghost use Rattle.board_equality.specs.Parts.{call_in_bytes, calls_in_bytes};

use board_lent::{call_of, one_by_one, spans_pass};
use lin_spec::{Call, LIMIT, Span};
use text::{index_apart, next_apart, same_at, same_bytes, shown};

// Two texts have at least so many bytes in common from the first on. It is 0 where the texts of the rows are looked at one by one, and else all they have.
pub(crate) fn front_of(text: &[u8], rows: &[u32], text2: &[u8]) -> usize
    ensures { result ≤ common text.now text2.now }
{
    if one_by_one(text.len(), rows) {
        return 0;
    }
    next_apart(text, text2, 0)
}

// Whether two spans stand at one place, and end at or before `first`.
fn near(first: usize, x: Span, y: Span) -> bool
    ensures { result ≡ ((eqb x.start y.start && eqb x.len y.len) && leb (end_of x) first) }
{
    let end = x.start as usize + x.len as usize;
    ((x.start == y.start) & (x.len == y.len)) & (end <= first)
}

// Whether two spans name the same bytes. Those that stand at one place, among the first bytes that the texts have in common, do.
fn same_span(first: usize, text: &[u8], x: Span, text2: &[u8], y: Span) -> bool
    requires { first ≤ common text.now text2.now }
    ensures { result ≡ eq_list (bytes_at text.now x) (bytes_at text2.now y) }
{
    if near(first, x, y) {
        return true;
    }
    same_bytes(shown(text, x), shown(text2, y))
}

// The same, by an index of the places where the texts differ: of two spans that stand at one place it tells whether such a place lies in them.
fn same_indexed(next: &[u32], text: &[u8], x: Span, text2: &[u8], y: Span) -> bool
    requires { Apart text.now text2.now next.now }
    ensures { result ≡ eq_list (bytes_at text.now x) (bytes_at text2.now y) }
{
    if (x.start == y.start) & (x.len == y.len) {
        let start = x.start as usize;
        return same_at(text, text2, next, start, start + x.len as usize);
    }
    same_bytes(shown(text, x), shown(text2, y))
}

// Whether the names of each seat are the same.
pub(crate) fn same_names(
    first: usize,
    text: &[u8],
    names: [Span; 4],
    text2: &[u8],
    names2: [Span; 4],
) -> bool
    requires { first ≤ common text.now text2.now }
    ensures { result ≡ eq_all eq_list (map (bytes_at text.now) names) (map (bytes_at text2.now) names2) }
{
    names
        .iter()
        .zip(names2.iter())
        .all(|(&x, &y)| same_span(first, text, x, text2, y))
}

// Whether two texts are the same, or both are absent.
pub(crate) fn same_text(
    first: usize,
    text: &[u8],
    x: Option<Span>,
    text2: &[u8],
    y: Option<Span>,
) -> bool
    requires { first ≤ common text.now text2.now }
    ensures { result ≡ eq_option eq_list (map_option (bytes_at text.now) x) (map_option (bytes_at text2.now) y) }
{
    match (x, y) {
        (None, None) => true,
        (Some(a), Some(b)) => same_span(first, text, a, text2, b),
        _ => false,
    }
}

// Whether both flags are 0, or neither is.
fn same_flag(a: u32, b: u32) -> bool
    ensures { result ≡ eq_flag (not (eqb a 0)) (not (eqb b 0)) }
{
    (a != 0) == (b != 0)
}

// Whether two calls have the same annotation, or none.
fn same_annotation(next: &[u32], text: &[u8], c: Call, text2: &[u8], d: Call) -> bool
    requires { Apart text.now text2.now next.now }
    ensures { result ≡ eq_option eq_list (call_in_bytes text.now c).annotation (call_in_bytes text2.now d).annotation }
{
    if c.annotated == 0 {
        return d.annotated == 0;
    }
    if d.annotated == 0 {
        return false;
    }
    same_indexed(next, text, c.annotation, text2, d.annotation)
}

// Whether two calls have the same bid, are both alerted or neither, and have the same annotation or none.
fn same_call(next: &[u32], text: &[u8], c: Call, text2: &[u8], d: Call) -> bool
    requires { Apart text.now text2.now next.now }
    ensures { result ≡ eq_call (call_in_bytes text.now c) (call_in_bytes text2.now d) }
{
    if !same_indexed(next, text, c.bid, text2, d.bid) {
        return false;
    }
    if !same_flag(c.alerted, d.alerted) {
        return false;
    }
    same_annotation(next, text, c, text2, d)
}

// Whether there are as many calls, and each is the same.
fn each_same(next: &[u32], text: &[u8], rows: &[u32], text2: &[u8], rows2: &[u32]) -> bool
    requires { Apart text.now text2.now next.now }
    ensures { result ≡ eq_all eq_call (calls_in_bytes text.now rows.now) (calls_in_bytes text2.now rows2.now) }
{
    let (rows, rows2) = (rows.as_chunks::<6>().0, rows2.as_chunks::<6>().0);
    if rows.len() != rows2.len() {
        return false;
    }
    rows.iter().zip(rows2.iter()).all(|(&row, &row2)| {
        let (c, d) = (call_of(row), call_of(row2));
        same_call(next, text, c, text2, d)
    })
}

// Whether the calls are the same, with a word for each block of the texts: no two texts at one place are compared for longer than a block.
fn calls_by_blocks(text: &[u8], rows: &[u32], text2: &[u8], rows2: &[u32]) -> bool
    requires { length text.now ≤ limit }
    ensures { result ≡ eq_all eq_call (calls_in_bytes text.now rows.now) (calls_in_bytes text2.now rows2.now) }
{
    let mut next = [0u32; 1025];
    index_apart(text, text2, &mut next);
    each_same(&next, text, rows, text2, rows2)
}

// The same, of texts that may differ anywhere. The index is made only where the text is longer than a block and the rows have more bytes than it; else there is
// none. (A text that is too long was refused before.)
fn calls_apart(text: &[u8], rows: &[u32], text2: &[u8], rows2: &[u32]) -> bool
    ensures { result ≡ eq_all eq_call (calls_in_bytes text.now rows.now) (calls_in_bytes text2.now rows2.now) }
{
    if (1024 < text.len()) & (text.len() <= LIMIT) {
        if spans_pass(text.len(), rows) {
            return calls_by_blocks(text, rows, text2, rows2);
        }
    }
    each_same(&rows[..0], text, rows, text2, rows2)
}

// The same. Those of the same rows over the same text are the same.
pub(crate) fn same_calls(
    first: usize,
    text: &[u8],
    rows: &[u32],
    text2: &[u8],
    rows2: &[u32],
) -> bool
    requires { first ≤ common text.now text2.now }
    ensures { result ≡ eq_all eq_call (calls_in_bytes text.now rows.now) (calls_in_bytes text2.now rows2.now) }
{
    let alike = (first == text.len()) & (first == text2.len());
    if alike && rows == rows2 {
        return true;
    }
    calls_apart(text, rows, text2, rows2)
}
