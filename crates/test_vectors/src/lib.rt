#![tactic(auto)]

// What the replay programs share: files of stored answers, and the lines that they print. Nothing of the library is in it.
// A file of listings is a run of fields, each a little-endian length of four bytes and that many bytes.
ghost use Rattle.std.specs.Prelude.{◌^◌, ◌<◌, ◌≤◌};

use input::read_full;
use std::rt::Files;
use std::{fs, io};
use text::part;

// The place after a field that a file does not have. No field begins there and no file ends there, so that a replay that
// comes to it finds the file cut short.
pub const BEYOND: usize = usize::MAX;

// Where a field's bytes stand, and where the next field begins.
#[derive(Clone, Copy)]
pub struct Field {
    pub start: usize,
    pub len: usize,
    pub next: usize,
}

// How far a replay came: the cases that agree, and whether all do.
#[derive(Clone, Copy)]
pub struct Score {
    pub cases: u64,
    pub ok: bool,
}

fn wide(b: u8) -> usize
    ensures { result ≤ 255 }
{
    b as usize
}

// The number in the four bytes at a place of a file, 0 where the file ends before.
pub fn number_at(file: &[u8], at: usize) -> usize
    ensures { result < 2 ^ 32 }
{
    if file.len() < 4 {
        return 0;
    }
    if file.len() - 4 < at {
        return 0;
    }
    let low = wide(file[at]) + 256 * wide(file[at + 1]);
    let high = wide(file[at + 2]) + 256 * wide(file[at + 3]);
    low + 65536 * high
}

// The field at a place of a file; where the file has none there, an empty one at its end, with all that follows beyond.
pub fn vector_at(file: &[u8], at: usize) -> Field {
    let end = file.len();
    let none = Field {
        start: end,
        len: 0,
        next: BEYOND,
    };
    if end < 4 {
        return none;
    }
    if end - 4 < at {
        return none;
    }
    let start = at + 4;
    let len = number_at(file, at);
    if end - start < len {
        return none;
    }
    Field {
        start,
        len,
        next: start + len,
    }
}

// Whether the field holds these bytes.
pub fn field_is(file: &[u8], f: Field, bytes: &[u8]) -> bool {
    part(file, f.start, f.len) == bytes
}

// Whether every byte from a place on is this one.
pub fn all_are(s: &[u8], from: usize, byte: u8) -> bool {
    s.iter().skip(from).all(|&b| b == byte)
}

// The first n words, or all there are.
pub fn words(rows: &[u32], n: usize) -> &[u32] {
    if rows.len() <= n {
        return rows;
    }
    &rows[..n]
}

// Reads a file whole, or as much as fits, and answers its length.
pub fn load<R: Files>(rt: &R, name: &str, buf: &mut [u8]) -> io::Result<usize> {
    let mut file = fs::open(rt, name)?;
    read_full(&mut file, buf)
}

// The score before the first case.
pub fn fresh() -> Score {
    Score { cases: 0, ok: true }
}

// The score after one case more. From the first that differs on it stays, so that its count says which that was.
pub fn after_case(score: Score, agrees: bool) -> Score {
    if score.ok & agrees {
        return Score {
            cases: score.cases.wrapping_add(1),
            ok: true,
        };
    }
    Score {
        cases: score.cases,
        ok: false,
    }
}

// Prints a group's name, the number of its cases, and `ok`; or where it differs, which is at 0 where it has no cases.
pub fn say(rt: &impl Print, group: &[u8], score: Score) -> io::Result<()> {
    rt.write_all(group)?;
    rt.write_all(b" ")?;
    if score.ok & (0 < score.cases) {
        rt.print(score.cases)?;
        rt.write_all(b" ok\n")
    } else {
        rt.write_all(b"differs at ")?;
        rt.print(score.cases)?;
        rt.write_all(b"\n")
    }
}
