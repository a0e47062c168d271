// The cursor that gives a text's tokens, and the parts of the text that it names. (01: Tokens)
ghost use Rattle.std.specs.Prelude.{◌≡◌};
ghost use Rattle.lin_spec.specs.Records.{part as part_of};
ghost use Rattle.lin_spec.specs.Tokens.{pipe};
ghost use Rattle.lin_spec.specs.Cursor.{step_at, remainder, find_from};
ghost use Rattle.lin_spec.specs.Document.{open_text};
ghost use Rattle.document.specs.Steps.{opened_of, step_of};

use lin_spec::{LIMIT, Refusal};
use text::{find_byte, part, well_formed_len};

// A place in a text. It may be any number: what is asked of it is defined from any place.
#[derive(Clone, Copy)]
pub struct Cursor {
    pub at: usize,
}

// A part of a text.
#[derive(Clone, Copy)]
pub struct Part {
    pub start: usize,
    pub len: usize,
}

#[derive(Clone, Copy)]
pub struct Token {
    pub command: Part,
    pub value: Part,
}

// A token with the cursor after it; or none, with the cursor where it was.
#[derive(Clone, Copy)]
pub struct Step {
    pub token: Option<Token>,
    pub cursor: Cursor,
}

// A cursor and its place.
#[derive(Clone, Copy)]
pub struct Position {
    pub cursor: Cursor,
    pub at: usize,
}

// A cursor at the first byte of a text that is short enough and UTF-8.
pub fn open(text: &[u8]) -> Result<Cursor, Refusal>
    ensures { opened_of result ≡ open_text text.now }
{
    if LIMIT < text.len() {
        return Err(Refusal::TextTooLong);
    }
    let good = well_formed_len(text);
    if good < text.len() {
        return Err(Refusal::NotUtf8(good as u64));
    }
    Ok(Cursor { at: 0 })
}

// The place of the first pipe at or after from, or the length where there is none.
pub fn next_pipe(text: &[u8], from: usize) -> usize
    ensures { result ≡ find_from pipe text.now from }
{
    find_byte(text, b'|', from)
}

impl Cursor {
    // The token at the cursor, if two pipes are left.
    pub fn next(self, text: &[u8]) -> Step
        ensures { step_of result ≡ step_at text.now self.at }
    {
        let cursor = self;
        let stays = Step {
            token: None,
            cursor,
        };
        let at = self.at;
        let p = next_pipe(text, at);
        if text.len() <= p {
            return stays;
        }
        let v = p + 1;
        let q = next_pipe(text, v);
        if text.len() <= q {
            return stays;
        }
        let command = Part {
            start: at,
            len: p - at,
        };
        let value = Part {
            start: v,
            len: q - v,
        };
        Step {
            token: Some(Token { command, value }),
            cursor: Cursor { at: q + 1 },
        }
    }

    // The cursor, and where it stands.
    pub fn position(self) -> Position
        ensures { result ≡ record { cursor = self; at = self.at } }
    {
        Position {
            cursor: self,
            at: self.at,
        }
    }
}

// The bytes of a token's command.
pub fn command(text: &[u8], token: Token) -> &[u8]
    ensures { result.now ≡ part_of text.now token.command.start token.command.len }
{
    let p = token.command;
    part(text, p.start, p.len)
}

// The bytes of a token's value.
pub fn value(text: &[u8], token: Token) -> &[u8]
    ensures { result.now ≡ part_of text.now token.value.start token.value.len }
{
    let p = token.value;
    part(text, p.start, p.len)
}

// What is left of the text at the cursor: its trailing text, where the cursor found no token.
pub fn trailing(text: &[u8], cursor: Cursor) -> &[u8]
    ensures { result.now ≡ remainder text.now cursor.at }
{
    part(text, cursor.at, text.len())
}
