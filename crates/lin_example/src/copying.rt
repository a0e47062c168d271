// The boards of a file, read step by step and appended to an output; and the boards of that output, by their numbers, compared with those of the file.
// (01: File, Writer, equality)
use crate::printing::{LINE, say_bytes, say_number, say_refusal, say_written};
use lin::{
    BoardCursor, Heading, Refusal, append, board_line, count_boards, file_board, file_heading,
    format_cardplay_by_trick, open_boards, read_board, same_board,
};
use std::io;
use text::part;

// The words of rows and the places for cards that a board of the file may need.
const WORDS: usize = 384;

const PLACES: usize = 64;

// The words of so many calls, or all there are.
fn rows_of(rows: &[u32], calls: usize) -> &[u32] {
    if rows.len() / 6 < calls {
        return rows;
    }
    &rows[..6 * calls]
}

// A board's line: its number, dealer, vulnerability, hand lengths, counts and claim; or the line of its refusal.
fn say_board(rt: &impl Print, number: usize, heading: Result<Heading, Refusal>) -> io::Result<()> {
    let mut line = [0u8; LINE];
    let written = board_line(number as u64, heading, &mut line);
    say_written(rt, &line, written)
}

// The part of a text that two words of a row name.
fn row_part(text: &[u8], start: u32, len: u32) -> &[u8] {
    part(text, start as usize, len as usize)
}

// The call of a row, with `!` if it is alerted, and its annotation in parentheses.
fn say_call(rt: &impl Print, text: &[u8], row: [u32; 6]) -> io::Result<()> {
    let [bid, bid_len, alerted, annotated, annotation, annotation_len] = row;
    say_bytes(rt, row_part(text, bid, bid_len))?;
    if alerted == 1 {
        say_bytes(rt, b"!")?;
    }
    if annotated == 1 {
        say_bytes(rt, b" (")?;
        say_bytes(rt, row_part(text, annotation, annotation_len))?;
        say_bytes(rt, b")")?;
    }
    say_bytes(rt, b"\n")
}

// The calls of a board.
fn say_calls(rt: &impl Print, text: &[u8], rows: &[u32]) -> io::Result<()> {
    for &row in rows.as_chunks::<6>().0 {
        say_call(rt, text, row)?;
    }
    Ok(())
}

// The play of a board by tricks.
fn say_play(rt: &impl Print, cards: &[u8]) -> io::Result<()> {
    let mut line = [0u8; LINE];
    let written = format_cardplay_by_trick(cards, &mut line);
    say_written(rt, &line, written)?;
    say_bytes(rt, b"\n")
}

// The used bytes after an append, and what is said of it.
fn used_after(rt: &impl Print, written: Result<usize, Refusal>, used: usize) -> io::Result<usize> {
    match written {
        Ok(n) => {
            say_number(rt, b"used", n)?;
            Ok(n)
        }
        Err(r) => {
            say_refusal(rt, r)?;
            Ok(used)
        }
    }
}

// Shows a board that was read, and appends it to the output. Gives the used bytes.
fn copy_board(
    rt: &impl Print,
    text: &[u8],
    number: usize,
    heading: Heading,
    calls: &[u32],
    play: &[u8],
    out: &mut [u8],
    used: usize,
) -> io::Result<usize> {
    say_board(rt, number, Ok(heading))?;
    say_calls(rt, text, calls)?;
    say_play(rt, play)?;
    let written = append(text, heading.board, calls, play, out, used);
    used_after(rt, written, used)
}

// Copies the boards of a file from a cursor on, each read by a step. Gives the used bytes.
fn copy_from(
    rt: &impl Print,
    text: &[u8],
    cursor: BoardCursor,
    out: &mut [u8],
) -> io::Result<usize> {
    let mut rows = [0u32; WORDS];
    let mut cards = [0u8; PLACES];
    let mut used = 0;
    let mut c = cursor;
    loop {
        let step = read_board(text, c, &mut rows, &mut cards);
        match step.board {
            Ok(Some(read)) => {
                let heading = read.heading;
                let calls = rows_of(&rows, heading.calls);
                let play = part(&cards, 0, heading.cards);
                used = copy_board(rt, text, read.number, heading, calls, play, out, used)?;
                c = step.cursor;
            }
            Ok(None) => {
                return Ok(used);
            }
            Err(r) => {
                say_refusal(rt, r)?;
                return Ok(used);
            }
        }
    }
}

// How many boards a file has, or why it was refused.
fn say_count(rt: &impl Print, text: &[u8]) -> io::Result<usize> {
    match count_boards(text) {
        Ok(count) => {
            say_number(rt, b"boards", count)?;
            Ok(count)
        }
        Err(r) => {
            say_refusal(rt, r)?;
            Ok(0)
        }
    }
}

// Copies every board of a file into an output, from its first byte on. Gives the used bytes.
pub fn copy_boards(rt: &impl Print, text: &[u8], out: &mut [u8]) -> io::Result<usize> {
    say_count(rt, text)?;
    match open_boards(text) {
        Ok(c) => copy_from(rt, text, c, out),
        Err(r) => {
            say_refusal(rt, r)?;
            Ok(0)
        }
    }
}

// What was found of two boards.
fn say_equality(rt: &impl Print, equality: Result<bool, Refusal>) -> io::Result<()> {
    match equality {
        Ok(true) => say_bytes(rt, b"the same\n"),
        Ok(false) => say_bytes(rt, b"different\n"),
        Err(r) => say_refusal(rt, r),
    }
}

// Compares the board of a number in a file with the board of that number in its copy.
fn compare_board(rt: &impl Print, text: &[u8], copy: &[u8], number: usize) -> io::Result<()> {
    let mut rows = [0u32; WORDS];
    let mut cards = [0u8; PLACES];
    let read = file_board(text, number, &mut rows, &mut cards);
    let mut rows2 = [0u32; WORDS];
    let mut cards2 = [0u8; PLACES];
    let read2 = file_board(copy, number, &mut rows2, &mut cards2);
    if let Err(r) = read {
        say_refusal(rt, r)?;
    }
    if let Err(r) = read2 {
        say_refusal(rt, r)?;
    }
    let (Ok(heading), Ok(heading2)) = (read, read2) else {
        return Ok(());
    };
    let equality = same_board(
        text,
        heading.board,
        rows_of(&rows, heading.calls),
        part(&cards, 0, heading.cards),
        copy,
        heading2.board,
        rows_of(&rows2, heading2.calls),
        part(&cards2, 0, heading2.cards),
    );
    say_equality(rt, equality)
}

// Shows and compares the boards of a copy by their numbers.
fn compare_all(rt: &impl Print, text: &[u8], copy: &[u8], count: usize) -> io::Result<()> {
    for number in 0..count {
        say_board(rt, number, file_heading(copy, number))?;
        compare_board(rt, text, copy, number)?;
    }
    Ok(())
}

// Shows the copy of a file's boards, how many boards it has, and each beside that of the file.
pub fn read_back(rt: &impl Print, text: &[u8], copy: &[u8]) -> io::Result<()> {
    say_bytes(rt, copy)?;
    let count = say_count(rt, copy)?;
    compare_all(rt, text, copy, count)
}
