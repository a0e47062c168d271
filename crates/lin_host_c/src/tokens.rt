// The exports of the entries of tokens: the cursor, the trailing text and the document writer. (01: Tokens)
ghost use Rattle.std.specs.Prelude.{◌≡◌};
ghost use Rattle.lin_spec.specs.Records.{span};
ghost use Rattle.lin_spec.specs.Cursor.{step_at};
ghost use Rattle.lin_spec.specs.Document.{open_text, write_document};
ghost use Rattle.lin_host_numbers.specs.Answers.{numbers_of, Outcome, outcome_numbers};
ghost use Rattle.lin_host.specs.Tokens.{step_numbers, rest_numbers};

use lin_host::{LinAnswer, LinPart, LinStep};

#[unsafe(no_mangle)]
pub extern "C" fn lin_open(text: &[u8]) -> LinAnswer
    ensures { result ≡ numbers_of (open_text text.now) }
{
    lin_host::lin_open(text)
}

#[unsafe(no_mangle)]
pub extern "C" fn lin_next(text: &[u8], at: u64) -> LinStep
    ensures { result ≡ step_numbers (step_at text.now at) }
{
    lin_host::lin_next(text, at)
}

// The part of the text from the cursor's place on; beyond the end, the empty part at the end.
#[unsafe(no_mangle)]
pub extern "C" fn lin_trailing(text: &[u8], at: u64) -> LinPart
    ensures { result ≡ rest_numbers text.now at }
{
    lin_host::lin_trailing(text, at)
}

#[unsafe(no_mangle)]
pub extern "C" fn lin_write_document(
    text: &[u8],
    rows: &[u32],
    start: u32,
    len: u32,
    out: &mut [u8],
) -> LinAnswer
    ensures { ◌≡◌ {A = Outcome} (record { answer = result; output = out.new }) (outcome_numbers (write_document text.now rows.now (span start len) out.old)) }
{
    lin_host::lin_write_document(text, rows, start, len, out)
}
