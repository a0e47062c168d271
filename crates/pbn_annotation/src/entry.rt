// The entry: the checks, each over the text, the raw annotation and all notes before the next; then the text. (01: From PBN; Eight refusals)
ghost use Rattle.std.specs.Prelude.{◌≡◌, ◌∷◌, ◌≤◌, length};
ghost use Rattle.lin_spec.specs.Base.{any};
ghost use Rattle.lin_spec.specs.Records.{limit};
ghost use Rattle.lin_spec.specs.Refusals.{passes_end, ill_span};
ghost use Rattle.lin_spec.specs.Annotation.{note_spans, Annotated, write_annotation};
ghost use Rattle.text.specs.Fault.{fault_of};
ghost use Rattle.text.specs.Index.{Indexed};

use crate::notes::{any_note_faulty, notes_pass};
use crate::texts::{annotation_len, put_annotation};
use lin_spec::{LIMIT, Refusal, Span, room};
use text::{Fault, faulty, index_text};

// Whether the raw annotation or a note has this fault.
fn annotation_faulty(text: &[u8], next: &[u32], raw: Span, notes: &[u32; 768], fault: Fault) -> bool
    requires { Indexed text.now next.now }
    ensures { result ≡ any (fault_of fault text.now) (raw ∷ note_spans notes.now) }
{
    if faulty(text, next, raw, fault) {
        return true;
    }
    any_note_faulty(text, next, notes, fault)
}

// Whether the raw annotation or a note passes the end, for which no index is needed.
fn annotation_past(text: &[u8], raw: Span, notes: &[u32; 768]) -> bool
    ensures { result ≡ any (passes_end text.now) (raw ∷ note_spans notes.now) }
{
    let words: &[u32] = notes;
    annotation_faulty(text, &words[..0], raw, notes, Fault::PastEnd)
}

// Whether the raw annotation or a note is not UTF-8. Where notes name bytes again and again, the text is looked at once.
fn annotation_ill(text: &[u8], raw: Span, notes: &[u32; 768]) -> bool
    requires { length text.now ≤ limit }
    ensures { result ≡ any (ill_span text.now) (raw ∷ note_spans notes.now) }
{
    if !notes_pass(text.len(), notes) {
        let words: &[u32] = notes;
        return annotation_faulty(text, &words[..0], raw, notes, Fault::NotUtf8);
    }
    let mut next = [0; 1025];
    index_text(text, &mut next);
    annotation_faulty(text, &next, raw, notes, Fault::NotUtf8)
}

// Writes the text of a raw annotation from the first byte of the output on, and gives its length; or says that there is none; or refuses. Only
// the first changes the output.
pub fn annotation_text(
    text: &[u8],
    raw: Span,
    notes: &[u32; 768],
    out: &mut [u8],
) -> Result<Option<usize>, Refusal>
    ensures { ◌≡◌ {A = Annotated} (record { answer = result; output = out.new }) (write_annotation text.now raw notes.now out.old) }
{
    if LIMIT < text.len() {
        return Err(Refusal::TextTooLong);
    }
    if annotation_past(text, raw, notes) {
        return Err(Refusal::SpanPastEnd);
    }
    if annotation_ill(text, raw, notes) {
        return Err(Refusal::SpanNotUtf8);
    }
    let need = annotation_len(text, raw, notes);
    if (room(out.len()) as u64) < need {
        return Err(Refusal::OutputTooSmall(need));
    }
    if need == 0 {
        return Ok(None);
    }
    let n = put_annotation(out, 0, text, raw, notes);
    Ok(Some(n))
}
