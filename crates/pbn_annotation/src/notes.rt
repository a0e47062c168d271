// The spans of all notes, checked. (01: From PBN, "a note span or absent for each of the 256 note numbers"; refusals 5 and 6)
ghost use Rattle.std.specs.Prelude.{◌≡◌, ◌^◌, ◌<◌};
ghost use Rattle.lin_spec.specs.Base.{any};
ghost use Rattle.lin_spec.specs.Annotation.{note_spans};
ghost use Rattle.text.specs.Fault.{fault_of};
ghost use Rattle.text.specs.Index.{Indexed};
ghost use Rattle.pbn_annotation.specs.Notes.{note_at};

use lin_spec::Span;
use text::{Fault, faulty};

// Whether the note of three words has this fault. The place of a note that is absent is not looked at.
fn note_faulty(text: &[u8], next: &[u32], note: [u32; 3], fault: Fault) -> bool
    requires { Indexed text.now next.now }
    ensures { result ≡ any (fault_of fault text.now) (note_at note 0) }
{
    let [present, start, len] = note;
    if present == 0 {
        return false;
    }
    faulty(text, next, Span { start, len }, fault)
}

// Whether a note has this fault, used or not.
pub fn any_note_faulty(text: &[u8], next: &[u32], notes: &[u32; 768], fault: Fault) -> bool
    requires { Indexed text.now next.now }
    ensures { result ≡ any (fault_of fault text.now) (note_spans notes.now) }
{
    notes
        .as_chunks::<3>()
        .0
        .iter()
        .any(|&note| note_faulty(text, next, note, fault))
}

// How many bytes a note has, none where it is absent.
fn note_len(present: u32, len: u32) -> u64
    ensures { result < 2 ^ 32 }
{
    if present == 0 {
        return 0;
    }
    len as u64
}

// How many bytes the spans of all notes have together.
fn notes_len(notes: &[u32; 768]) -> u64 {
    let mut n = 0;
    for &[present, _, len] in notes.as_chunks::<3>().0 {
        n += note_len(present, len);
    }
    n
}

// Whether the notes have together more bytes than a text of so many, which is asked only where that is long. It says only how to look, which no answer depends
// on, so it promises nothing.
pub fn notes_pass(bytes: usize, notes: &[u32; 768]) -> bool {
    if bytes <= 4096 {
        return false;
    }
    (bytes as u64) < notes_len(notes)
}
