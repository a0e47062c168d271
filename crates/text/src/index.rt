// What can be wrong with a span. An index of the ill-formed places of a text says whether a span is UTF-8 without a look at each of its bytes, so that
// check 6 takes time linear in the text and the rows, whatever the spans. (01: Eight refusals, 5 and 6)
ghost use Rattle.std.specs.Prelude.{◌≡◌, false, ◌&&◌, ◌+◌, ◌*◌, ◌-◌, ◌/◌, ◌≤◌, ◌<◌, length, ltb};
ghost use Rattle.lin_spec.specs.Records.{limit, end_of};
ghost use Rattle.lin_spec.specs.Refusals.{ill_span};
ghost use Rattle.lin_spec.specs.Utf8.{longest};
ghost use Rattle.text.specs.Utf8.{tail_at};
ghost use Rattle.text.specs.Index.{next_ill, ill_part, Indexed, Filled};
ghost use Rattle.text.specs.Fault.{fault_of};

use crate::parts::{part, past_end};
use crate::utf8::{is_utf8, pass_chars, well_formed_len};
use lin_spec::Span;

// What can be wrong with a span: refusals 5 and 6.
#[derive(Clone, Copy)]
pub enum Fault {
    PastEnd,
    NotUtf8,
}

// Stores the place p for the blocks from k on that begin at or before it, and gives the block after them.
pub fn put_blocks(next: &mut [u32], k: usize, p: usize) -> usize
    requires { p ≤ limit }
    ensures { Filled next.old k p next.new result × (result < length next.new → p < result * 1024) }
{
    let end = next.len().min(p / 1024 + 1);
    if end <= k {
        return k;
    }
    next[k..end].fill(p as u32);
    end
}

// Makes the index of a text, a run of whole characters at a time: all blocks that begin in a run have its end for their next ill-formed place.
pub fn index_text(text: &[u8], next: &mut [u32])
    requires { length text.now ≤ limit }
    ensures { Indexed text.now next.new }
{
    let mut from = 0;
    let mut k = 0;
    while from <= text.len() {
        let p = from + well_formed_len(&text[from..]);
        k = put_blocks(next, k, p);
        from = p + 1;
    }
}

// Whether a place before `end` has a byte that is not the first of its character.
fn tail_before(text: &[u8], end: usize, i: usize) -> bool
    requires { end ≤ length text.now }
    ensures { result ≡ (ltb i end && tail_at text.now i) }
{
    if end <= i {
        return false;
    }
    (0x80 <= text[i]) & (text[i] <= 0xBF)
}

// Whether the byte at a place is not the first of its character.
fn tail_at(text: &[u8], i: usize) -> bool
    ensures { result ≡ tail_at text.now i }
{
    tail_before(text, text.len(), i)
}

// The next ill-formed place at or after a, which is no tail, in a block that is not the last. Where one in the block stands before a, whole characters are
// passed up to the next block.
fn next_ill(text: &[u8], next: &[u32], a: usize) -> usize
    requires { Indexed text.now next.now × (tail_at text.now a ≡ false) × (a / 1024 + 1 < length next.now) × ((a / 1024 + 1) * 1024 ≤ length text.now) }
    ensures { result ≡ next_ill text.now a }
{
    let k = a / 1024;
    let here = next[k] as usize;
    if a <= here {
        return here;
    }
    let end = (k + 1) * 1024;
    let mut i = a;
    while i < end {
        let j = pass_chars(text, i);
        if j == i {
            return i;
        }
        i = j;
    }
    next[k + 1] as usize
}

// Whether the bytes from start up to end, which may pass the first ill-formed place, are not UTF-8. They are looked at one by one where they are few, or pass the
// end, or have no word in the index.
fn far_ill(text: &[u8], next: &[u32], start: usize, end: usize) -> bool
    requires { Indexed text.now next.now × (start ≤ end) }
    ensures { result ≡ ill_part text.now start (end - start) }
{
    let len = end - start;
    if (len <= 1024) | (text.len() < end) | (next.len() <= start / 1024 + 1) {
        return !is_utf8(part(text, start, len));
    }
    if tail_at(text, start) {
        return true;
    }
    let ill = next_ill(text, next, start);
    (ill < end) | ((end != ill) & tail_at(text, end))
}

// Whether a span that ends at or before the first ill-formed place is not UTF-8: it starts or ends within a character.
pub fn near_ill(text: &[u8], first: usize, x: Span) -> bool
    requires { (first ≡ longest text.now) × (end_of x ≤ first) }
    ensures { result ≡ ill_span text.now x }
{
    let start = x.start as usize;
    let end = start + x.len as usize;
    (x.len != 0) & (tail_before(text, first, start) | tail_before(text, first, end))
}

// Whether a span is not UTF-8. (The slices are lent on anew, so that the look at a near one keeps them in registers.)
pub fn span_ill(text: &[u8], next: &[u32], x: Span) -> bool
    requires { Indexed text.now next.now }
    ensures { result ≡ ill_span text.now x }
{
    let m = text.len();
    let k = next.len();
    let start = x.start as usize;
    let end = start + x.len as usize;
    if k == 0 {
        return far_ill(&text[..m], &next[..k], start, end);
    }
    let first = next[0] as usize;
    if first < end {
        return far_ill(&text[..m], &next[..k], start, end);
    }
    near_ill(text, first, x)
}

// Whether a span of the text has this fault.
pub fn faulty(text: &[u8], next: &[u32], x: Span, fault: Fault) -> bool
    requires { Indexed text.now next.now }
    ensures { result ≡ fault_of fault text.now x }
{
    match fault {
        Fault::PastEnd => past_end(text, x),
        Fault::NotUtf8 => span_ill(text, next, x),
    }
}
