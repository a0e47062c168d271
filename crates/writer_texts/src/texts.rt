// Texts by their spans, cleaned into an output at a place that has room, and how many bytes they have. (01: Writer, clean)
ghost use Rattle.std.specs.Prelude.{◌≡◌, ℕ, ◌-◌, ◌≤◌, length};
ghost use Rattle.lin_spec.specs.Output.{overlay};
ghost use Rattle.lin_spec.specs.Records.{bytes_at, part};
ghost use Rattle.lin_spec.specs.Refusals.{sat};
ghost use Rattle.lin_spec.specs.Writer.{clean};
ghost use Rattle.output.specs.Put.{Room, Put};
ghost use Rattle.writer_texts.specs.Texts.{clean_byte, after_text, empty_or, header_text};

use lin_spec::Span;
use output::{put, put_all, sat_add};
use text::shown;

// What cleaning puts for a pipe, and for each CR and LF.
#[derive(Clone, Copy)]
pub struct Marks {
    pub pipe: u8,
    pub line: u8,
}

// "pipe to `/`, CR and LF each to a space"
pub const PLAIN: Marks = Marks {
    pipe: b'/',
    line: b' ',
};

const AH_TEXT: [u8; 3] = *b"ah|";

// A byte, cleaned.
pub(crate) fn clean_byte(b: u8, marks: Marks) -> u8
    ensures { result ≡ clean_byte marks.pipe marks.line b }
{
    if b == b'|' {
        return marks.pipe;
    }
    if (b == b'\r') | (b == b'\n') {
        return marks.line;
    }
    b
}

// Cleans the bytes of an output from one place to another, where they stand.
pub fn clean_part(out: &mut [u8], from: usize, to: usize, marks: Marks)
    requires { (from ≤ to) × (to ≤ length out.old) }
    ensures { out.new ≡ overlay out.old from (clean marks.pipe marks.line (part out.old from (to - from))) }
{
    for b in out[from..to].iter_mut() {
        *b = clean_byte(*b, marks);
    }
}

// Puts a text, cleaned.
fn put_clean_bytes(out: &mut [u8], at: usize, s: &[u8], marks: Marks) -> usize
    requires { Room out.old at (clean marks.pipe marks.line s.now) }
    ensures { Put out.old at (clean marks.pipe marks.line s.now) out.new result }
{
    let mut o = at;
    for &b in s {
        out[o] = clean_byte(b, marks);
        o += 1;
    }
    o
}

// Puts the text of a span, cleaned.
pub(crate) fn put_clean(out: &mut [u8], at: usize, text: &[u8], x: Span, marks: Marks) -> usize
    requires { Room out.old at (clean marks.pipe marks.line (bytes_at text.now x)) }
    ensures { Put out.old at (clean marks.pipe marks.line (bytes_at text.now x)) out.new result }
{
    put_clean_bytes(out, at, shown(text, x), marks)
}

pub(crate) fn clean_len(text: &[u8], x: Span) -> u64
    ensures { result ≡ length (bytes_at text.now x) }
{
    shown(text, x).len() as u64
}

// Puts a word, the text of a span, cleaned, and a pipe.
pub(crate) fn put_after(
    out: &mut [u8],
    at: usize,
    word: &[u8],
    text: &[u8],
    x: Span,
    marks: Marks,
) -> usize
    requires { Room out.old at (after_text marks.pipe marks.line word.now (bytes_at text.now x)) }
    ensures { Put out.old at (after_text marks.pipe marks.line word.now (bytes_at text.now x)) out.new result }
{
    let a = put_all(out, at, word);
    let b = put_clean(out, a, text, x, marks);
    put(out, b, b'|')
}

// Puts a text, cleaned, nothing where it is absent.
pub fn put_text(out: &mut [u8], at: usize, text: &[u8], x: Option<Span>, marks: Marks) -> usize
    requires { Room out.old at (clean marks.pipe marks.line (empty_or text.now x)) }
    ensures { Put out.old at (clean marks.pipe marks.line (empty_or text.now x)) out.new result }
{
    match x {
        None => at,
        Some(y) => put_clean(out, at, text, y, marks),
    }
}

pub fn text_len(text: &[u8], x: Option<Span>) -> u64
    ensures { result ≡ length (empty_or text.now x) }
{
    match x {
        None => 0,
        Some(y) => clean_len(text, y),
    }
}

// Puts the header, nothing where it is absent.
pub fn put_ah(out: &mut [u8], at: usize, text: &[u8], x: Option<Span>, marks: Marks) -> usize
    requires { Room out.old at (header_text marks.pipe marks.line text.now x) }
    ensures { Put out.old at (header_text marks.pipe marks.line text.now x) out.new result }
{
    match x {
        None => at,
        Some(y) => put_after(out, at, &AH_TEXT, text, y, marks),
    }
}

pub fn header_len(text: &[u8], x: Option<Span>) -> u64
    ensures { (p q : ℕ) → result ≡ sat (length (header_text p q text.now x)) }
{
    match x {
        None => 0,
        Some(y) => sat_add(4, clean_len(text, y)),
    }
}
