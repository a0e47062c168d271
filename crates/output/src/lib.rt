#![tactic(auto)]

// Bytes, words and spans put into a lent output, one after the other, and lengths that stop at the largest number. Nothing of LIN.
// Here and in the crates above: beside a function that puts a text, the one whose name ends in `_len` gives that text's length, up to 2^64 less 1.
// (01: Writer, "Every output's room ..", and refusal 7)
ghost use Rattle.std.specs.Prelude.{◌≡◌, ◌∷◌, [], ◌+◌};
ghost use Rattle.lin_spec.specs.Records.{bytes_at};
ghost use Rattle.lin_spec.specs.Refusals.{sat};
ghost use Rattle.output.specs.Put.{Room, Put};

use lin_spec::Span;
use text::shown;

mod decimal;

pub use decimal::{decimal_len, put_decimal};

// Each of these puts at a place that has room, and gives the place after it.

pub fn put<T: Copy>(out: &mut [T], at: usize, x: T) -> usize
    requires { Room out.old at (x ∷ []) }
    ensures { Put out.old at (x ∷ []) out.new result }
{
    out[at] = x;
    at + 1
}

// By a loop: `copy_from_slice` calls memmove, which an archive for C then needs from outside, and which takes longer for a few bytes.
pub fn put_all<T: Copy>(out: &mut [T], at: usize, s: &[T]) -> usize
    requires { Room out.old at s.now }
    ensures { Put out.old at s.now out.new result }
{
    for (j, &x) in s.iter().enumerate() {
        out[at + j] = x;
    }
    at + s.len()
}

// Puts the bytes of a span.
pub fn put_span(out: &mut [u8], at: usize, text: &[u8], x: Span) -> usize
    requires { Room out.old at (bytes_at text.now x) }
    ensures { Put out.old at (bytes_at text.now x) out.new result }
{
    put_all(out, at, shown(text, x))
}

// The sum of two lengths, or 2^64 less 1 where it is more.
pub fn sat_add(a: u64, b: u64) -> u64
    ensures { result ≡ sat (a + b) }
{
    a.saturating_add(b)
}
