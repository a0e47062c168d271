// The sections of a file, parts or lines, each with its number if it is a board, and its places in the text. (01: File)
use crate::printing::{say_bytes, say_decimal, say_number, say_refusal};
use lin::{BoardCursor, Section, open_boards};
use std::io;

// A section: its number, or that it is no board, and where it begins and stops.
fn say_section(rt: &impl Print, number: usize, section: Section) -> io::Result<()> {
    if section.board {
        say_bytes(rt, b"board ")?;
        say_decimal(rt, number)?;
    } else {
        say_bytes(rt, b"no board")?;
    }
    say_bytes(rt, b" from ")?;
    say_decimal(rt, section.start)?;
    say_number(rt, b" to", section.stop)
}

// The sections from a cursor on.
fn say_sections(rt: &impl Print, text: &[u8], cursor: BoardCursor) -> io::Result<()> {
    let mut c = cursor;
    loop {
        let step = c.next(text);
        let Some((number, section)) = step.found else {
            return Ok(());
        };
        say_section(rt, number, section)?;
        c = step.cursor;
    }
}

pub fn show_sections(rt: &impl Print, text: &[u8]) -> io::Result<()> {
    match open_boards(text) {
        Ok(cursor) => say_sections(rt, text, cursor),
        Err(r) => say_refusal(rt, r),
    }
}
