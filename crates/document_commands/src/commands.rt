// The commands that a board knows, by their numbers in the list `words`. (01: Tokens, "Commands are trimmed .."; Board)
ghost use Rattle.std.specs.Prelude.{◌≡◌, [], ◌∷◌, ◌-◌, ◌≤◌, length, drop};
ghost use Rattle.document_commands.specs.Commands.{words, first_word, code_of, command_of, SameFrom};
ghost use Rattle.lin_spec.specs.Records.{part};

use white::{lower_byte, same_word, trim};

pub const PC: u8 = 0;

pub const MB: u8 = 1;

pub const AN: u8 = 2;

pub const MD: u8 = 3;

pub const PN: u8 = 4;

pub const QX: u8 = 5;

pub const MN: u8 = 6;

pub const SV: u8 = 7;

pub const AH: u8 = 8;

pub const MC: u8 = 9;

// The number of a command that is none of them.
const OTHER: u8 = 10;

// The number of the word of two small letters, the first neither p nor m.
fn other_pair(x: u8, y: u8) -> u8
    requires { (x ≡ 112 → ⊥) × (x ≡ 109 → ⊥) }
    ensures { result ≡ code_of x y }
{
    if (x == b'a') & (y == b'n') {
        return AN;
    }
    if (x == b'q') & (y == b'x') {
        return QX;
    }
    if (x == b's') & (y == b'v') {
        return SV;
    }
    if (x == b'a') & (y == b'h') {
        return AH;
    }
    OTHER
}

// The number of a command of two bytes, as nearly all are.
pub(crate) fn pair_of(a: u8, b: u8) -> u8
    ensures { result ≡ command_of (a ∷ b ∷ []) }
{
    let x = lower_byte(a);
    let y = lower_byte(b);
    if x == b'p' {
        if y == b'c' {
            return PC;
        }
        if y == b'n' {
            return PN;
        }
        return OTHER;
    }
    if x == b'm' {
        if y == b'b' {
            return MB;
        }
        if y == b'd' {
            return MD;
        }
        if y == b'n' {
            return MN;
        }
        if y == b'c' {
            return MC;
        }
        return OTHER;
    }
    other_pair(x, y)
}

fn word_of(t: &[u8]) -> u8
    ensures { result ≡ first_word 0 words t.now }
{
    if same_word(t, b"pc") {
        return PC;
    }
    if same_word(t, b"mb") {
        return MB;
    }
    if same_word(t, b"an") {
        return AN;
    }
    if same_word(t, b"md") {
        return MD;
    }
    if same_word(t, b"pn") {
        return PN;
    }
    other_word_of(t)
}

fn other_word_of(t: &[u8]) -> u8
    ensures { result ≡ first_word 5 (drop 5 words) t.now }
{
    if same_word(t, b"qx") {
        return QX;
    }
    if same_word(t, b"mn") {
        return MN;
    }
    if same_word(t, b"sv") {
        return SV;
    }
    if same_word(t, b"ah") {
        return AH;
    }
    if same_word(t, b"mc") {
        return MC;
    }
    OTHER
}

// The place after an LF, if one is there: the command is the same without it.
fn after_lf(text: &[u8], at: usize, p: usize) -> usize
    requires { (at ≤ p) × (p ≤ length text.now) }
    ensures { SameFrom text.now at p result }
{
    if p <= at {
        return at;
    }
    if text[at] == b'\n' {
        return at + 1;
    }
    at
}

// The number of a command of any length that stands from `at` up to p.
fn word_at(text: &[u8], at: usize, p: usize) -> u8
    requires { (at ≤ p) × (p ≤ length text.now) }
    ensures { result ≡ command_of (part text.now at (p - at)) }
{
    word_of(trim(&text[at..p]))
}

// The number of the command that stands from `at` up to p. Nearly all are two bytes, perhaps after an LF.
pub(crate) fn command_at(text: &[u8], at: usize, p: usize) -> u8
    requires { (at ≤ p) × (p ≤ length text.now) }
    ensures { result ≡ command_of (part text.now at (p - at)) }
{
    let a = after_lf(text, at, p);
    if p - a == 2 {
        return pair_of(text[a], text[a + 1]);
    }
    word_at(text, a, p)
}
