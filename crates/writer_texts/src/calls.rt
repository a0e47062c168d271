// Calls, their texts cleaned, into an output at a place that has room, and how many bytes they have. (01: Writer, mb and an)
ghost use Rattle.std.specs.Prelude.{◌≡◌, ℕ, length};
ghost use Rattle.lin_spec.specs.Refusals.{sat};
ghost use Rattle.output.specs.Put.{Room, Put};
ghost use Rattle.writer_texts.specs.Calls.{alert_text, an_text, call_bytes, calls_bytes};

use crate::texts::{Marks, clean_len, put_after, put_clean};
use board_lent::call_of;
use lin_spec::Call;
use output::{put, put_all, sat_add};

const MB_TEXT: [u8; 3] = *b"mb|";

const AN_TEXT: [u8; 3] = *b"an|";

// Puts an exclamation mark for a flag that is set.
fn put_alert(out: &mut [u8], at: usize, alerted: u32) -> usize
    requires { Room out.old at (alert_text alerted) }
    ensures { Put out.old at (alert_text alerted) out.new result }
{
    if alerted == 0 {
        return at;
    }
    put(out, at, b'!')
}

fn alert_len(alerted: u32) -> u64
    ensures { result ≡ length (alert_text alerted) }
{
    if alerted != 0 {
        return 1;
    }
    0
}

// Puts the annotation of a call, nothing where it is absent.
fn put_an(out: &mut [u8], at: usize, text: &[u8], c: Call, marks: Marks) -> usize
    requires { Room out.old at (an_text marks.pipe marks.line text.now c) }
    ensures { Put out.old at (an_text marks.pipe marks.line text.now c) out.new result }
{
    if c.annotated == 0 {
        return at;
    }
    put_after(out, at, &AN_TEXT, text, c.annotation, marks)
}

fn an_len(text: &[u8], c: Call) -> u64
    ensures { (p q : ℕ) → result ≡ sat (length (an_text p q text.now c)) }
{
    if c.annotated == 0 {
        return 0;
    }
    sat_add(4, clean_len(text, c.annotation))
}

// Puts a call.
pub fn put_call(out: &mut [u8], at: usize, text: &[u8], c: Call, marks: Marks) -> usize
    requires { Room out.old at (call_bytes marks.pipe marks.line text.now c) }
    ensures { Put out.old at (call_bytes marks.pipe marks.line text.now c) out.new result }
{
    let a = put_all(out, at, &MB_TEXT);
    let b = put_clean(out, a, text, c.bid, marks);
    let d = put_alert(out, b, c.alerted);
    let e = put(out, d, b'|');
    put_an(out, e, text, c, marks)
}

pub fn call_len(text: &[u8], c: Call) -> u64
    ensures { (p q : ℕ) → result ≡ sat (length (call_bytes p q text.now c)) }
{
    let a = sat_add(4, clean_len(text, c.bid));
    let b = sat_add(a, alert_len(c.alerted));
    sat_add(b, an_len(text, c))
}

// Puts the calls of the rows.
pub fn put_calls(out: &mut [u8], at: usize, text: &[u8], rows: &[u32], marks: Marks) -> usize
    requires { Room out.old at (calls_bytes marks.pipe marks.line text.now rows.now) }
    ensures { Put out.old at (calls_bytes marks.pipe marks.line text.now rows.now) out.new result }
{
    let mut o = at;
    for &row in rows.as_chunks::<6>().0 {
        o = put_call(out, o, text, call_of(row), marks);
    }
    o
}

pub fn calls_len(text: &[u8], rows: &[u32]) -> u64
    ensures { (p q : ℕ) → result ≡ sat (length (calls_bytes p q text.now rows.now)) }
{
    let mut n = 0;
    for &row in rows.as_chunks::<6>().0 {
        n = sat_add(n, call_len(text, call_of(row)));
    }
    n
}
