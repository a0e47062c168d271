// The four names, cleaned and back to back from the first byte of an output, and where each stands. (01: From PBN)
ghost use Rattle.std.specs.Prelude.{◌≡◌, map, ◌≤◌, length};
ghost use Rattle.lin_spec.specs.Records.{limit};
ghost use Rattle.lin_spec.specs.Pbn.{name_by, laid_names};
ghost use Rattle.output.specs.Put.{Room, Put};
ghost use Rattle.pbn_texts.specs.Names.{pbn_names_text};

use lin_spec::Span;
use writer_texts::{Marks, name_len, put_name};

// Puts a name, nothing where it is absent.
fn put_one(out: &mut [u8], at: usize, text: &[u8], x: Option<Span>, marks: Marks) -> usize
    requires { Room out.old at (name_by marks.pipe marks.line text.now x) }
    ensures { Put out.old at (name_by marks.pipe marks.line text.now x) out.new result }
{
    match x {
        None => at,
        Some(y) => put_name(out, at, text, y, marks),
    }
}

// 0 where it is absent.
fn one_len(text: &[u8], x: Option<Span>, marks: Marks) -> u64
    ensures { result ≡ length (name_by marks.pipe marks.line text.now x) }
{
    match x {
        None => 0,
        Some(y) => name_len(text, y, marks),
    }
}

// Puts the names back to back.
pub(crate) fn put_pbn_names(
    out: &mut [u8],
    at: usize,
    text: &[u8],
    names: [Option<Span>; 4],
    marks: Marks,
) -> usize
    requires { Room out.old at (pbn_names_text marks.pipe marks.line text.now names) }
    ensures { Put out.old at (pbn_names_text marks.pipe marks.line text.now names) out.new result }
{
    let s = names[0];
    let w = names[1];
    let n = names[2];
    let e = names[3];
    let a = put_one(out, at, text, s, marks);
    let b = put_one(out, a, text, w, marks);
    let c = put_one(out, b, text, n, marks);
    put_one(out, c, text, e, marks)
}

// Where each name stands.
pub(crate) fn name_spans(text: &[u8], names: [Option<Span>; 4], marks: Marks) -> [Span; 4]
    requires { length text.now ≤ limit }
    ensures { result ≡ laid_names 0 (map (name_by marks.pipe marks.line text.now) names) }
{
    let s = names[0];
    let w = names[1];
    let n = names[2];
    let e = names[3];
    let a = one_len(text, s, marks) as u32;
    let b = one_len(text, w, marks) as u32;
    let c = one_len(text, n, marks) as u32;
    let d = one_len(text, e, marks) as u32;
    let south = Span { start: 0, len: a };
    let west = Span { start: a, len: b };
    let north = Span {
        start: a + b,
        len: c,
    };
    let east = Span {
        start: a + b + c,
        len: d,
    };
    [south, west, north, east]
}
