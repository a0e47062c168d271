#![tactic(auto)]

// Shows the tokens and the sections of the LIN file on standard input, copies its boards into an output, and reads them back from there. It calls the
// library by `lin`, and prints what each call gives. (01: Tokens, File, Writer)
mod copying;
mod printing;
mod section_lines;
mod token_lines;

use copying::{copy_boards, read_back};
use input::read_full;
use section_lines::show_sections;
use std::io;
use std::io::Read;
use text::part;
use token_lines::show_tokens;

// The bytes of the input that are read.
const READ: usize = 4_096;

// The bytes that the copy may have.
const ROOM: usize = 8_192;

// Reads the file, and does all that is shown of it. The boards of its copy are settled: a copy of these is compared too.
fn show_and_copy<R: Read>(
    rt: &impl Print,
    input: &mut R,
    file: &mut [u8; READ],
    out: &mut [u8; ROOM],
    again: &mut [u8; ROOM],
) -> io::Result<()> {
    let read = read_full(input, file)?;
    let text = part(file, 0, read);
    show_tokens(rt, text)?;
    show_sections(rt, text)?;
    let used = copy_boards(rt, text, out)?;
    let copy = part(out, 0, used);
    read_back(rt, text, copy)?;
    let used2 = copy_boards(rt, copy, again)?;
    read_back(rt, copy, part(again, 0, used2))
}

fn main(rt: HostRuntime) -> io::Result<()> {
    let mut file = [0u8; READ];
    let mut out = [0u8; ROOM];
    let mut again = [0u8; ROOM];
    show_and_copy(&rt, &mut rt.stdin(), &mut file, &mut out, &mut again)
}
