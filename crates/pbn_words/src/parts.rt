// The part at the front of a raw annotation. (01: From PBN, "`=` to the next `=` (or the end); `$` with its digits; a run of `!` and `?`; else
// one character")
ghost use Rattle.std.specs.Prelude.{◌≡◌, ◌+◌, min, length, take_while};
ghost use Rattle.lin_spec.specs.Cursor.{find_from};
ghost use Rattle.lin_spec.specs.Utf8.{first};
ghost use Rattle.lin_spec.specs.Board.{is_digit};
ghost use Rattle.lin_spec.specs.Annotation.{is_mark, char_bytes, part_length};

use digits::is_digit;
use text::{find_byte, width};

// Whether a byte is `!` or `?`.
pub(crate) fn is_mark(b: u8) -> bool
    ensures { result ≡ is_mark b }
{
    (b == b'!') | (b == b'?')
}

// How many digits are at the front of a text.
fn digits_len(s: &[u8]) -> usize
    ensures { result ≡ length (take_while is_digit s.now) }
{
    s.iter().take_while(|b| is_digit(**b)).count()
}

// How many marks are at the front of a text.
fn marks_len(s: &[u8]) -> usize
    ensures { result ≡ length (take_while is_mark s.now) }
{
    s.iter().take_while(|b| is_mark(**b)).count()
}

// How many bytes a text has up to and with the first `=` after its first byte, or to its end.
fn equals_len(s: &[u8]) -> usize
    ensures { result ≡ min (find_from 0x3D s.now 1 + 1) (length s.now) }
{
    let at = find_byte(s, b'=', 1);
    if at < s.len() {
        return at + 1;
    }
    s.len()
}

// How many bytes a character has, by its first; a byte that begins none stands alone.
fn char_bytes(b: u8) -> usize
    ensures { result ≡ char_bytes (first b) }
{
    let n = width(b);
    if n == 0 {
        return 1;
    }
    n
}

// How many bytes the part at the front of a text has. A character that the end cuts has as many as there are.
pub fn part_len(s: &[u8]) -> usize
    ensures { result ≡ min (part_length s.now) (length s.now) }
{
    if s.len() == 0 {
        return 0;
    }
    let b = s[0];
    if b == b'=' {
        return equals_len(s);
    }
    if b == b'$' {
        return 1 + digits_len(&s[1..]);
    }
    if is_mark(b) {
        return marks_len(s);
    }
    let n = char_bytes(b);
    if n < s.len() {
        return n;
    }
    s.len()
}
