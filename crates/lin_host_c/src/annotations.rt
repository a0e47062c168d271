// The exports of the entry of annotations: the text of a raw PBN annotation. (01: From PBN, "Annotation parts ..")
ghost use Rattle.std.specs.Prelude.{◌≡◌};
ghost use Rattle.lin_spec.specs.Records.{span};
ghost use Rattle.lin_spec.specs.Annotation.{write_annotation};
ghost use Rattle.lin_host.specs.Annotations.{Annotated, annotated_numbers};

use lin_host::LinAnnotation;

// Writes the text of the raw annotation at this span from the first byte of the output on. Each of the 256 notes takes three words: 0 if it is absent
// and any other number if it is there, its start and its length.
#[unsafe(no_mangle)]
pub extern "C" fn lin_annotation_text(
    text: &[u8],
    start: u32,
    len: u32,
    notes: &[u32; 768],
    out: &mut [u8],
) -> LinAnnotation
    ensures { ◌≡◌ {A = Annotated} (record { answer = result; output = out.new }) (annotated_numbers (write_annotation text.now (span start len) notes.now out.old)) }
{
    lin_host::lin_annotation_text(text, start, len, notes, out)
}
