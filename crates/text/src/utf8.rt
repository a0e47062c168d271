// UTF-8 by RFC 3629: how much of a text is well formed, in one pass. (01: Eight refusals, 2 and 6)
ghost use Rattle.std.specs.Prelude.{◌≡◌, true, ◌&&◌, ◌+◌, ◌≤◌, length, leb};
ghost use Rattle.lin_spec.specs.Utf8.{first, utf8, longest};
ghost use Rattle.text.specs.Utf8.{bytes_of, low_of, high_of, Front, Past, Block, PassesChars};

// The length of a character by its first byte, 0 where none begins so. RFC 3629, 4: UTF8-1 to UTF8-4
pub fn width(a: u8) -> usize
    ensures { result ≡ bytes_of (first a) }
{
    if a <= 0x7F {
        return 1;
    }
    if (a < 0xC2) | (0xF4 < a) {
        return 0;
    }
    if a <= 0xDF {
        return 2;
    }
    if a <= 0xEF {
        return 3;
    }
    4
}

// The least second byte after `a`. RFC 3629, 4: %xE0 %xA0-BF, %xF0 %x90-BF
fn lowest(a: u8) -> u8
    ensures { result ≡ low_of (first a) }
{
    if a == 0xE0 {
        return 0xA0;
    }
    if a == 0xF0 {
        return 0x90;
    }
    0x80
}

// The greatest second byte after `a`. RFC 3629, 4: %xED %x80-9F, %xF4 %x80-8F
fn highest(a: u8) -> u8
    ensures { result ≡ high_of (first a) }
{
    if a == 0xED {
        return 0x9F;
    }
    if a == 0xF4 {
        return 0x8F;
    }
    0xBF
}

// Whether `b` is from `low` to `high`.
fn in_range(b: u8, low: u8, high: u8) -> bool
    ensures { result ≡ (leb low b && leb b high) }
{
    (low <= b) & (b <= high)
}

// The length of the character at the front of `t`, 0 where none is well formed there.
fn char_len(t: &[u8]) -> usize
    ensures { Front t.now result }
{
    if t.len() == 0 {
        return 0;
    }
    let a = t[0];
    let n = width(a);
    if t.len() < n {
        return 0;
    }
    // Most have two.
    if n == 2 {
        if !in_range(t[1], lowest(a), highest(a)) {
            return 0;
        }
        return n;
    }
    let mut low = lowest(a);
    let mut high = highest(a);
    for k in 1..n {
        if !in_range(t[k], low, high) {
            return 0;
        }
        low = 0x80;
        high = 0xBF;
    }
    n
}

// Whether the sixteen bytes from `i` on are ASCII: they are whole characters then.
fn sixteen_ascii(s: &[u8], i: usize) -> bool
    requires { i + 16 ≤ length s.now }
    ensures { result ≡ true → Past s.now i (i + 16) }
{
    (s[i] <= 0x7F)
        & (s[i + 1] <= 0x7F)
        & (s[i + 2] <= 0x7F)
        & (s[i + 3] <= 0x7F)
        & (s[i + 4] <= 0x7F)
        & (s[i + 5] <= 0x7F)
        & (s[i + 6] <= 0x7F)
        & (s[i + 7] <= 0x7F)
        & (s[i + 8] <= 0x7F)
        & (s[i + 9] <= 0x7F)
        & (s[i + 10] <= 0x7F)
        & (s[i + 11] <= 0x7F)
        & (s[i + 12] <= 0x7F)
        & (s[i + 13] <= 0x7F)
        & (s[i + 14] <= 0x7F)
        & (s[i + 15] <= 0x7F)
}

// Tests sixteen bytes from `i` on for ASCII. Where it says true, they are there and are whole characters.
fn ascii_sixteen(s: &[u8], i: usize) -> bool
    ensures { result ≡ true → Block s.now i 16 }
{
    if s.len() < 16 {
        return false;
    }
    if s.len() - 16 < i {
        return false;
    }
    sixteen_ascii(s, i)
}

// The same of sixty-four bytes.
fn ascii_sixty_four(s: &[u8], i: usize) -> bool
    ensures { result ≡ true → Block s.now i 64 }
{
    if s.len() < 64 {
        return false;
    }
    if s.len() - 64 < i {
        return false;
    }
    let a = sixteen_ascii(s, i);
    let b = sixteen_ascii(s, i + 16);
    let c = sixteen_ascii(s, i + 32);
    let d = sixteen_ascii(s, i + 48);
    (a & b) & (c & d)
}

// Passes bytes of ASCII from `from` on, by sixty-fours for speed, and gives the place after them: whole characters are passed.
fn sixty_fours_end(s: &[u8], from: usize) -> usize
    ensures { Past s.now from result }
{
    let mut i = from;
    while ascii_sixty_four(s, i) {
        i += 64;
    }
    i
}

// Passes bytes of ASCII from `from` on, by sixteens for speed, and gives the place after them: whole characters are passed.
fn sixteens_ascii(s: &[u8], from: usize) -> usize
    ensures { Past s.now from result }
{
    let mut i = from;
    while ascii_sixteen(s, i) {
        i += 16;
    }
    i
}

// Passes bytes of ASCII from `from` on, and gives the place after them: whole characters are passed.
fn ascii_end(s: &[u8], from: usize) -> usize
    ensures { Past s.now from result }
{
    let start = sixteens_ascii(s, from);
    for i in start..s.len() {
        if 0x7F < s[i] {
            return i;
        }
    }
    start.max(s.len())
}

// The same, where most often there is none.
fn past_ascii(s: &[u8], from: usize) -> usize
    ensures { Past s.now from result }
{
    if s.len() <= from {
        return from;
    }
    if 0x7F < s[from] {
        return from;
    }
    ascii_end(s, from)
}

// Passes sixteen bytes of ASCII from `i` on, or one character, and gives the place after them; `i` where there is no character.
pub(crate) fn pass_chars(s: &[u8], i: usize) -> usize
    requires { i ≤ length s.now }
    ensures { PassesChars s.now i result }
{
    if ascii_sixteen(s, i) {
        return i + 16;
    }
    i + char_len(&s[i..])
}

// The length of the longest well-formed start of `s`. Many texts are ASCII up to their end, or for long: these go by sixty-fours.
pub fn well_formed_len(s: &[u8]) -> usize
    ensures { result ≡ longest s.now }
{
    let mut i = ascii_end(s, sixty_fours_end(s, 0));
    while i < s.len() {
        let n = char_len(&s[i..]);
        if n == 0 {
            return i;
        }
        i = past_ascii(s, i + n);
    }
    i
}

// Whether all of `s` is UTF-8.
pub fn is_utf8(s: &[u8]) -> bool
    ensures { result ≡ utf8 s.now }
{
    well_formed_len(s) == s.len()
}
