// Bytes, numbers and refusals on standard output.
use lin::{Refusal, refusal_line};
use std::io;
use text::part;

// The bytes that the longest line of a board or of a refusal may have.
pub const LINE: usize = 256;

pub fn say_bytes(rt: &impl Print, s: &[u8]) -> io::Result<()> {
    rt.write_all(s)
}

pub fn say_decimal(rt: &impl Print, n: usize) -> io::Result<()> {
    rt.print(n)
}

// A name and a number, on a line of their own.
pub fn say_number(rt: &impl Print, name: &[u8], n: usize) -> io::Result<()> {
    say_bytes(rt, name)?;
    say_bytes(rt, b" ")?;
    say_decimal(rt, n)?;
    say_bytes(rt, b"\n")
}

// What a writer wrote into an output from its first byte on, or nothing where it refused.
pub fn say_written(rt: &impl Print, out: &[u8], written: Result<usize, Refusal>) -> io::Result<()> {
    match written {
        Ok(n) => say_bytes(rt, part(out, 0, n)),
        Err(_) => Ok(()),
    }
}

// The line of a refusal.
pub fn say_refusal(rt: &impl Print, refusal: Refusal) -> io::Result<()> {
    let mut line = [0u8; LINE];
    let written = refusal_line(refusal, &mut line);
    say_written(rt, &line, written)
}
