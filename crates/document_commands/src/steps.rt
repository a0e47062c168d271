// One token at a time, with its command's number. (01: Tokens, Board)
ghost use Rattle.std.specs.Prelude.{◌≡◌, ◌+◌, ◌<◌, ◌^◌, length};
ghost use Rattle.lin_spec.specs.Records.{span};
ghost use Rattle.cards.specs.Letters.{table};
ghost use Rattle.document_commands.specs.Steps.{Commands, BoardTokens, PartTokens};

use crate::commands::{MC, command_at, pair_of};
use crate::plain::{after_line, is_page, is_pair, is_unmarked, plain_card};
use document::{Cursor, Part, next_pipe};
use lin_spec::Span;

// The token at the cursor: its command by number and its value, with the cursor after it; or none.
fn far_command(text: &[u8], cursor: Cursor) -> Option<(u8, Part, Cursor)>
    ensures { Commands text.now cursor.at result }
{
    let at = cursor.at;
    let p = next_pipe(text, at);
    if text.len() <= p {
        return None;
    }
    let v = p + 1;
    let q = next_pipe(text, v);
    if text.len() <= q {
        return None;
    }
    let k = command_at(text, at, p);
    let part = Part {
        start: v,
        len: q - v,
    };
    Some((k, part, Cursor { at: q + 1 }))
}

// The same, for a command of two bytes at once.
pub fn next_command(text: &[u8], cursor: Cursor) -> Option<(u8, Part, Cursor)>
    ensures { Commands text.now cursor.at result }
{
    let a = after_line(text, cursor.at);
    if !is_pair(text, a) {
        return far_command(text, cursor);
    }
    let v = a + 3;
    let q = next_pipe(text, v);
    if text.len() <= q {
        return None;
    }
    let k = pair_of(text[a], text[a + 1]);
    let value = Part {
        start: v,
        len: q - v,
    };
    Some((k, value, Cursor { at: q + 1 }))
}

// A value as a span, in a text whose places are numbers of 32 bits.
pub fn span_of(value: Part) -> Span
    requires { value.start + value.len < 2 ^ 32 }
    ensures { result ≡ span value.start value.len }
{
    Span {
        start: value.start as u32,
        len: value.len as u32,
    }
}

// A token as a board takes it, with the place after it: a pc that is a card, a command that a board knows with its value, or another that says nothing
// of a board; or no token.
#[derive(Clone, Copy)]
pub enum BoardToken {
    Card(u8, usize),
    Known(u8, Span, usize),
    Other(usize),
    Ended,
}

// The token at a place, for a board. A pc of six bytes and a `pg||` are told by their bytes, since most tokens are such.
pub fn board_token(letters: &[u8; 128], text: &[u8], at: usize) -> BoardToken
    requires { (letters.now ≡ table) × (length text.now < 2 ^ 32) }
    ensures { BoardTokens text.now at result }
{
    let a = after_line(text, at);
    let card = plain_card(letters, text, a);
    if card < 52 {
        return BoardToken::Card(card, a + 6);
    }
    if is_page(text, a) {
        return BoardToken::Other(a + 4);
    }
    match next_command(text, Cursor { at }) {
        Some((k, value, next)) => {
            if MC < k {
                return BoardToken::Other(next.at);
            }
            BoardToken::Known(k, span_of(value), next.at)
        }
        None => BoardToken::Ended,
    }
}

// A token as a file's parts take it, with the place after it: one that is none of md, pn, qx and mn, or any by its command's number; or no token.
#[derive(Clone, Copy)]
pub enum PartToken {
    Passed(usize),
    Command(u8, usize),
    Ended,
}

// The token at a place, for a file's parts. Most are passed by two bytes of their commands.
pub fn part_token(text: &[u8], at: usize) -> PartToken
    ensures { PartTokens text.now at result }
{
    let a = after_line(text, at);
    if is_unmarked(text, a) {
        let q = next_pipe(text, a + 3);
        if text.len() <= q {
            return PartToken::Ended;
        }
        return PartToken::Passed(q + 1);
    }
    match next_command(text, Cursor { at }) {
        Some((k, _, next)) => PartToken::Command(k, next.at),
        None => PartToken::Ended,
    }
}
