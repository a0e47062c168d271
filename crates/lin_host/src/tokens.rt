// The entries of tokens: the cursor, the trailing text and the document writer. (01: Tokens)
ghost use Rattle.std.specs.Prelude.{◌≡◌};
ghost use Rattle.lin_spec.specs.Records.{span};
ghost use Rattle.lin_spec.specs.Cursor.{step_at};
ghost use Rattle.lin_spec.specs.Document.{open_text, write_document};
ghost use Rattle.document.specs.Steps.{step_of};
ghost use Rattle.lin_host_numbers.specs.Answers.{numbers_of, Outcome, outcome_numbers};
ghost use Rattle.lin_host.specs.Tokens.{step_numbers, rest_numbers};

use document::{Cursor, Step, open, trailing};
use document_writer::write_document;
use lin_host_numbers::{LinAnswer, answer_numbers};
use lin_spec::Span;

// found 1: a token, and the cursor after it. found 0: none, and the cursor as it was.
#[repr(C)]
#[derive(Clone, Copy)]
pub struct LinStep {
    pub found: u32,
    pub command_start: u64,
    pub command_len: u64,
    pub value_start: u64,
    pub value_len: u64,
    pub next: u64,
}

#[repr(C)]
#[derive(Clone, Copy)]
pub struct LinPart {
    pub start: u64,
    pub len: u64,
}

// A step as numbers.
fn step_numbers(s: Step) -> LinStep
    ensures { result ≡ step_numbers (step_of s) }
{
    match s.token {
        Some(t) => LinStep {
            found: 1,
            command_start: t.command.start as u64,
            command_len: t.command.len as u64,
            value_start: t.value.start as u64,
            value_len: t.value.len as u64,
            next: s.cursor.at as u64,
        },
        None => LinStep {
            found: 0,
            command_start: 0,
            command_len: 0,
            value_start: 0,
            value_len: 0,
            next: s.cursor.at as u64,
        },
    }
}

// What lin_host_c exports.

pub fn lin_open(text: &[u8]) -> LinAnswer
    ensures { result ≡ numbers_of (open_text text.now) }
{
    answer_numbers(open(text).map(|c| c.at))
}

pub fn lin_next(text: &[u8], at: u64) -> LinStep
    ensures { result ≡ step_numbers (step_at text.now at) }
{
    let cursor = Cursor { at: at as usize };
    step_numbers(cursor.next(text))
}

// The part of the text from the cursor's place on; beyond the end, the empty part at the end.
pub fn lin_trailing(text: &[u8], at: u64) -> LinPart
    ensures { result ≡ rest_numbers text.now at }
{
    LinPart {
        start: at.min(text.len() as u64),
        len: trailing(text, Cursor { at: at as usize }).len() as u64,
    }
}

pub fn lin_write_document(
    text: &[u8],
    rows: &[u32],
    start: u32,
    len: u32,
    out: &mut [u8],
) -> LinAnswer
    ensures { ◌≡◌ {A = Outcome} (record { answer = result; output = out.new }) (outcome_numbers (write_document text.now rows.now (span start len) out.old)) }
{
    answer_numbers(write_document(text, rows, Span { start, len }, out))
}
