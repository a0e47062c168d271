// White characters at both ends of a text, which are white space and U+FEFF, and words compared ignoring ASCII case. (01: Records, Tokens; 02: N2)
ghost use Rattle.std.specs.Prelude.{◌≡◌, true, [], ◌∷◌, ◌≤◌, length, take, drop, get_or};
ghost use Rattle.lin_spec.specs.White.{white_at, trim_start, trim_end, trim, blank, lower, same_word};
ghost use Rattle.white.specs.White.{is_white, white_back, last};

// One byte that is a white character: U+0009 to U+000D, 0020.
fn white1(a: u8) -> bool
    ensures { result ≡ is_white (a ∷ []) }
{
    ((0x9 <= a) & (a <= 0xD)) | (a == 0x20)
}

// Two bytes: U+0085, 00A0.
fn white2(a: u8, b: u8) -> bool
    ensures { result ≡ is_white (a ∷ b ∷ []) }
{
    (a == 0xC2) & ((b == 0x85) | (b == 0xA0))
}

// Three bytes: U+1680, 2000 to 200A, 2028, 2029, 202F, 205F, 3000, FEFF.
fn white3(a: u8, b: u8, c: u8) -> bool
    ensures { result ≡ is_white (a ∷ b ∷ c ∷ []) }
{
    ((a == 0xE1) & (b == 0x9A) & (c == 0x80))
        | ((a == 0xE2)
            & (b == 0x80)
            & (((0x80 <= c) & (c <= 0x8A)) | (c == 0xA8) | (c == 0xA9) | (c == 0xAF)))
        | ((a == 0xE2) & (b == 0x81) & (c == 0x9F))
        | ((a == 0xE3) & (b == 0x80) & (c == 0x80))
        | ((a == 0xEF) & (b == 0xBB) & (c == 0xBF))
}

// The byte at i, 0 beyond the end.
fn byte_at(s: &[u8], i: usize) -> u8
    ensures { result ≡ get_or s.now i 0 }
{
    if i < s.len() {
        return s[i];
    }
    0
}

// The byte that is k before the end, 0 before the start.
fn byte_back(s: &[u8], k: usize) -> u8
    ensures { result ≡ last s.now k }
{
    if k <= s.len() {
        return byte_at(s, s.len() - k);
    }
    0
}

// The length of the white character at the front, 0 where there is none.
fn white_front(s: &[u8]) -> usize
    ensures { result ≡ white_at s.now }
{
    let a = byte_at(s, 0);
    if white1(a) {
        return 1;
    }
    // A byte below 80 hex is a character by itself.
    if a < 0x80 {
        return 0;
    }
    let b = byte_at(s, 1);
    if white2(a, b) {
        return 2;
    }
    if white3(a, b, byte_at(s, 2)) {
        return 3;
    }
    0
}

// The length of the white character at the end, 0 where there is none.
fn white_back(s: &[u8]) -> usize
    ensures { result ≡ white_back s.now }
{
    let c = byte_back(s, 1);
    if white1(c) {
        return 1;
    }
    // A byte below 80 hex is a character by itself.
    if c < 0x80 {
        return 0;
    }
    let b = byte_back(s, 2);
    if white2(b, c) {
        return 2;
    }
    if white3(byte_back(s, 3), b, c) {
        return 3;
    }
    0
}

// Where the text starts after the white characters at its front.
fn trim_start(s: &[u8]) -> usize
    ensures { (drop result s.now ≡ trim_start s.now) × (result ≤ length s.now) }
{
    let mut i = 0;
    while i < s.len() {
        let w = white_front(&s[i..]);
        if w == 0 {
            return i;
        }
        i += w;
    }
    i
}

// How long the text is without the white characters at its end.
fn trim_end(s: &[u8]) -> usize
    ensures { (take result s.now ≡ trim_end s.now) × (result ≤ length s.now) }
{
    let mut n = s.len();
    while 0 < n {
        let w = white_back(&s[..n]);
        if w == 0 {
            return n;
        }
        n -= w;
    }
    n
}

// Whether the first and the last byte are of ASCII and not white. Where it says true, the text stays.
fn plain_ends(s: &[u8]) -> bool
    ensures { result ≡ true → trim s.now ≡ s.now }
{
    if s.len() == 0 {
        return false;
    }
    let a = s[0];
    let b = s[s.len() - 1];
    (0x20 < a) & (a < 0x80) & (0x20 < b) & (b < 0x80)
}

// The text without the white characters at its ends.
fn trim_ends(s: &[u8]) -> &[u8]
    ensures { result.now ≡ trim s.now }
{
    let a = trim_start(s);
    let t = &s[a..];
    let n = trim_end(t);
    &t[..n]
}

// The part of the text between the white characters at its ends.
pub fn trim(s: &[u8]) -> &[u8]
    ensures { result.now ≡ trim s.now }
{
    if plain_ends(s) {
        return s;
    }
    trim_ends(s)
}

// Nothing is left after trimming.
pub fn is_blank(s: &[u8]) -> bool
    ensures { result ≡ blank s.now }
{
    trim_ends(s).len() == 0
}

// A capital of ASCII as the small letter, any other byte as it is.
pub fn lower_byte(b: u8) -> u8
    ensures { result ≡ lower b }
{
    b.to_ascii_lowercase()
}

// Two texts are the same, ignoring ASCII case; w is in small letters.
pub fn same_word(s: &[u8], w: &[u8]) -> bool
    ensures { result ≡ same_word s.now w.now }
{
    if s.len() != w.len() {
        return false;
    }
    for (&a, &b) in s.iter().zip(w) {
        if lower_byte(a) != b {
            return false;
        }
    }
    true
}
