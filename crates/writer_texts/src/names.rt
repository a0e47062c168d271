// The four names, cleaned and without commas, into an output at a place that has room, and how many bytes they have. (01: Writer, clean)
ghost use Rattle.std.specs.Prelude.{◌≡◌, length};
ghost use Rattle.lin_spec.specs.Records.{bytes_at};
ghost use Rattle.lin_spec.specs.Refusals.{sat};
ghost use Rattle.lin_spec.specs.Writer.{clean_name};
ghost use Rattle.output.specs.Put.{Room, Put};
ghost use Rattle.writer_texts.specs.Texts.{kept, names_text};

use crate::texts::{Marks, clean_byte};
use lin_spec::Span;
use output::{put, sat_add};
use text::shown;

// Puts a byte of a name, unless it is a comma.
fn put_kept(out: &mut [u8], at: usize, b: u8) -> usize
    requires { Room out.old at (kept b) }
    ensures { Put out.old at (kept b) out.new result }
{
    if b == b',' {
        return at;
    }
    put(out, at, b)
}

// Puts a name.
fn put_name_bytes(out: &mut [u8], at: usize, s: &[u8], marks: Marks) -> usize
    requires { Room out.old at (clean_name marks.pipe marks.line s.now) }
    ensures { Put out.old at (clean_name marks.pipe marks.line s.now) out.new result }
{
    let mut o = at;
    for &b in s {
        o = put_kept(out, o, clean_byte(b, marks));
    }
    o
}

fn name_bytes_len(s: &[u8], marks: Marks) -> u64
    ensures { result ≡ length (clean_name marks.pipe marks.line s.now) }
{
    s.iter().filter(|b| clean_byte(**b, marks) != b',').count() as u64
}

// Puts the name of a span.
pub fn put_name(out: &mut [u8], at: usize, text: &[u8], x: Span, marks: Marks) -> usize
    requires { Room out.old at (clean_name marks.pipe marks.line (bytes_at text.now x)) }
    ensures { Put out.old at (clean_name marks.pipe marks.line (bytes_at text.now x)) out.new result }
{
    put_name_bytes(out, at, shown(text, x), marks)
}

pub fn name_len(text: &[u8], x: Span, marks: Marks) -> u64
    ensures { result ≡ length (clean_name marks.pipe marks.line (bytes_at text.now x)) }
{
    name_bytes_len(shown(text, x), marks)
}

// Puts the four names, with a comma between each two.
pub fn put_names(out: &mut [u8], at: usize, text: &[u8], names: [Span; 4], marks: Marks) -> usize
    requires { Room out.old at (names_text marks.pipe marks.line text.now names) }
    ensures { Put out.old at (names_text marks.pipe marks.line text.now names) out.new result }
{
    let a = put_name(out, at, text, names[0], marks);
    let b = put(out, a, b',');
    let c = put_name(out, b, text, names[1], marks);
    let d = put(out, c, b',');
    let e = put_name(out, d, text, names[2], marks);
    let f = put(out, e, b',');
    put_name(out, f, text, names[3], marks)
}

pub fn names_len(text: &[u8], names: [Span; 4], marks: Marks) -> u64
    ensures { result ≡ sat (length (names_text marks.pipe marks.line text.now names)) }
{
    let s = name_len(text, names[0], marks);
    let w = name_len(text, names[1], marks);
    let n = name_len(text, names[2], marks);
    let e = name_len(text, names[3], marks);
    sat_add(sat_add(s, w), sat_add(sat_add(n, e), 3))
}
