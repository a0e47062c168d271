// Parts of a text, spans, and the next place of a byte. (01: Records; refusal 5)
ghost use Rattle.std.specs.Prelude.{◌≡◌, min, true};
ghost use Rattle.lin_spec.specs.Records.{part as part_of, bytes_at};
ghost use Rattle.lin_spec.specs.Refusals.{passes_end};
ghost use Rattle.lin_spec.specs.Cursor.{find_from};
ghost use Rattle.text.specs.Find.{Without};

use lin_spec::Span;

// The lesser of two numbers.
pub fn lesser(a: usize, b: usize) -> usize
    ensures { result ≡ min a b }
{
    a.min(b)
}

// The len bytes of s from start on, or as many as there are.
pub fn part(s: &[u8], start: usize, len: usize) -> &[u8]
    ensures { result.now ≡ part_of s.now start len }
{
    if s.len() <= start {
        return &s[..0];
    }
    if s.len() - start <= len {
        return &s[start..];
    }
    &s[start..start + len]
}

// The bytes of a span, or as many as there are.
pub fn shown(text: &[u8], x: Span) -> &[u8]
    ensures { result.now ≡ bytes_at text.now x }
{
    part(text, x.start as usize, x.len as usize)
}

// Whether a span passes the end of the text. Its end is a number of 33 bits.
pub fn past_end(text: &[u8], x: Span) -> bool
    ensures { result ≡ passes_end text.now x }
{
    (text.len() as u64) < (x.start as u64) + (x.len as u64)
}

// Tests sixteen bytes from `i` on for c. Where it says true, they are there and none of them is c.
fn sixteen_without(s: &[u8], c: u8, i: usize) -> bool
    ensures { result ≡ true → Without s.now c i }
{
    if s.len() < 16 {
        return false;
    }
    if s.len() - 16 < i {
        return false;
    }
    (s[i] != c)
        & (s[i + 1] != c)
        & (s[i + 2] != c)
        & (s[i + 3] != c)
        & (s[i + 4] != c)
        & (s[i + 5] != c)
        & (s[i + 6] != c)
        & (s[i + 7] != c)
        & (s[i + 8] != c)
        & (s[i + 9] != c)
        & (s[i + 10] != c)
        & (s[i + 11] != c)
        & (s[i + 12] != c)
        & (s[i + 13] != c)
        & (s[i + 14] != c)
        & (s[i + 15] != c)
}

// Passes bytes other than c from `from` on, by sixteens for speed, and gives the place after them.
fn sixteens_without(s: &[u8], c: u8, from: usize) -> usize
    ensures { find_from c s.now result ≡ find_from c s.now from }
{
    let mut i = from;
    while sixteen_without(s, c, i) {
        i += 16;
    }
    i
}

// The place of the first byte c at or after from, however far it is.
fn find_far(s: &[u8], c: u8, from: usize) -> usize
    ensures { result ≡ find_from c s.now from }
{
    for i in sixteens_without(s, c, from)..s.len() {
        if s[i] == c {
            return i;
        }
    }
    s.len()
}

// The place of the first byte c at or after from, or the length where there is none. Most are near: four bytes are looked at first.
pub fn find_byte(s: &[u8], c: u8, from: usize) -> usize
    ensures { result ≡ find_from c s.now from }
{
    if s.len() < 4 {
        return find_far(s, c, from);
    }
    if s.len() - 4 < from {
        return find_far(s, c, from);
    }
    if s[from] == c {
        return from;
    }
    if s[from + 1] == c {
        return from + 1;
    }
    if s[from + 2] == c {
        return from + 2;
    }
    if s[from + 3] == c {
        return from + 3;
    }
    find_far(s, c, from + 4)
}
