// The entry of annotations: the text of a raw PBN annotation. (01: From PBN, "Annotation parts ..")
ghost use Rattle.std.specs.Prelude.{◌≡◌};
ghost use Rattle.lin_spec.specs.Records.{span};
ghost use Rattle.lin_spec.specs.Annotation.{write_annotation};
ghost use Rattle.lin_host.specs.Annotations.{annotation_numbers, Annotated, annotated_numbers};

use lin_host_numbers::{LinAnswer, answer_numbers};
use lin_spec::{Refusal, Span};
use pbn_annotation::annotation_text;

// present 1: a text, with its length as the answer's value. present 0: no word, with the value 0, or the refusal.
#[repr(C)]
#[derive(Clone, Copy)]
pub struct LinAnnotation {
    pub answer: LinAnswer,
    pub present: u32,
}

fn annotation_numbers(w: Result<Option<usize>, Refusal>) -> LinAnnotation
    ensures { result ≡ annotation_numbers w }
{
    LinAnnotation {
        answer: answer_numbers(w.map(|n| n.unwrap_or(0))),
        present: u32::from(matches!(w, Ok(Some(_)))),
    }
}

// Writes the text of the raw annotation at this span from the first byte of the output on. Each of the 256 notes takes three words: 0 if it is absent
// and any other number if it is there, its start and its length.
pub fn lin_annotation_text(
    text: &[u8],
    start: u32,
    len: u32,
    notes: &[u32; 768],
    out: &mut [u8],
) -> LinAnnotation
    ensures { ◌≡◌ {A = Annotated} (record { answer = result; output = out.new }) (annotated_numbers (write_annotation text.now (span start len) notes.now out.old)) }
{
    annotation_numbers(annotation_text(text, Span { start, len }, notes, out))
}
