// The tokens of a text, each with the place of the cursor before it, and the trailing text. (01: Tokens)
use crate::printing::{say_bytes, say_decimal, say_number, say_refusal};
use lin::{Cursor, Token, command, open, trailing, value};
use std::io;

// A token that stands at a place: the place, the command, a pipe, and the value.
fn say_token(rt: &impl Print, text: &[u8], at: usize, token: Token) -> io::Result<()> {
    say_decimal(rt, at)?;
    say_bytes(rt, b" ")?;
    say_bytes(rt, command(text, token))?;
    say_bytes(rt, b"|")?;
    say_bytes(rt, value(text, token))?;
    say_bytes(rt, b"\n")
}

// Where a cursor stays that finds no token, and what is left there.
fn say_trailing(rt: &impl Print, text: &[u8], cursor: Cursor) -> io::Result<()> {
    let p = cursor.position();
    say_number(rt, b"trailing", p.at)?;
    say_bytes(rt, trailing(text, p.cursor))?;
    say_bytes(rt, b"\n")
}

// The tokens from a cursor on, and what is left after the last.
fn say_tokens(rt: &impl Print, text: &[u8], cursor: Cursor) -> io::Result<()> {
    let mut c = cursor;
    loop {
        let step = c.next(text);
        let Some(token) = step.token else {
            return say_trailing(rt, text, step.cursor);
        };
        say_token(rt, text, c.position().at, token)?;
        c = step.cursor;
    }
}

pub fn show_tokens(rt: &impl Print, text: &[u8]) -> io::Result<()> {
    match open(text) {
        Ok(cursor) => say_tokens(rt, text, cursor),
        Err(r) => say_refusal(rt, r),
    }
}
