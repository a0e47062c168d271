// The text of a raw annotation: how many bytes it has, and put into a lent output, each in one pass over the parts. (01: From PBN, "Words join
// with a space, none means absent")
ghost use Rattle.std.specs.Prelude.{◌≡◌, ◌+◌, length, ltb};
ghost use Rattle.lin_spec.specs.Records.{bytes_at};
ghost use Rattle.lin_spec.specs.Refusals.{sat};
ghost use Rattle.lin_spec.specs.Writer.{or_empty};
ghost use Rattle.lin_spec.specs.Annotation.{annotation_text};
ghost use Rattle.output.specs.Put.{Room, Put};
ghost use Rattle.pbn_words.specs.Words.{spaced_length, parts_text};

use lin_spec::Span;
use output::sat_add;
use pbn_words::{part_len, part_word, put_spaced_word, word_len};
use text::shown;

// The length of words that have n bytes, with a word of w bytes after them.
fn joined_len(n: u64, w: u64) -> u64
    ensures { result ≡ sat (n + spaced_length (ltb 0 n) w) }
{
    if w == 0 {
        return n;
    }
    if n == 0 {
        return w;
    }
    sat_add(sat_add(n, 1), w)
}

// The length of the words of a raw annotation, joined.
fn words_len(text: &[u8], raw: &[u8], notes: &[u32; 768]) -> u64
    ensures { result ≡ sat (length (parts_text text.now notes.now raw.now)) }
{
    let mut rest = raw;
    let mut n = 0;
    while !rest.is_empty() {
        let (part, after) = rest.split_at(part_len(rest));
        n = joined_len(n, word_len(text, part, part_word(part, notes)));
        rest = after;
    }
    n
}

// Puts the words of a raw annotation.
fn put_annotation_words(
    out: &mut [u8],
    at: usize,
    text: &[u8],
    raw: &[u8],
    notes: &[u32; 768],
) -> usize
    requires { Room out.old at (parts_text text.now notes.now raw.now) }
    ensures { Put out.old at (parts_text text.now notes.now raw.now) out.new result }
{
    let mut rest = raw;
    let mut o = at;
    while !rest.is_empty() {
        let (part, after) = rest.split_at(part_len(rest));
        o = put_spaced_word(out, o, at < o, text, part, part_word(part, notes));
        rest = after;
    }
    o
}

// 0 where a raw annotation has no text.
pub fn annotation_len(text: &[u8], raw: Span, notes: &[u32; 768]) -> u64
    ensures { result ≡ sat (length (or_empty (annotation_text text.now notes.now (bytes_at text.now raw)))) }
{
    words_len(text, shown(text, raw), notes)
}

// Puts the text of a raw annotation, nothing where it is absent.
pub fn put_annotation(
    out: &mut [u8],
    at: usize,
    text: &[u8],
    raw: Span,
    notes: &[u32; 768],
) -> usize
    requires { Room out.old at (or_empty (annotation_text text.now notes.now (bytes_at text.now raw))) }
    ensures { Put out.old at (or_empty (annotation_text text.now notes.now (bytes_at text.now raw))) out.new result }
{
    put_annotation_words(out, at, text, shown(text, raw), notes)
}
