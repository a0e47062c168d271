// All the texts of the board, from the first byte of an output on. (01: From PBN)
ghost use Rattle.std.specs.Prelude.{◌≡◌, false};
ghost use Rattle.lin_spec.specs.Base.{any};
ghost use Rattle.lin_spec.specs.Pbn.{pbn_rows, bad_call};
ghost use Rattle.output.specs.Put.{Room, Put};
ghost use Rattle.pbn_texts.specs.Raw.{raw_text, texts_of};

use crate::calls::put_pbn_calls;
use crate::names::put_pbn_names;
use crate::sources::Sources;
use crate::texts::{put_labelled, put_title};
use lin_spec::Span;
use writer_texts::{Marks, clean_part};

// Puts those after the names, as they are before cleaning: title, room-and-board, header and those of the kept calls.
fn put_raw(
    out: &mut [u8],
    at: usize,
    text: &[u8],
    sources: Sources,
    calls: &[u32],
    notes: &[u32; 768],
) -> usize
    requires { Room out.old at (raw_text text.now sources notes.now calls.now) × (any bad_call (pbn_rows calls.now) ≡ false) }
    ensures { Put out.old at (raw_text text.now sources notes.now calls.now) out.new result }
{
    let event = sources.event;
    let date = sources.date;
    let label = sources.label;
    let a = put_title(out, at, text, event, date);
    let b = put_labelled(out, a, text, label);
    put_pbn_calls(out, b, text, calls, notes)
}

// Puts the names, then the others, which are cleaned where they stand.
pub fn put_texts(
    out: &mut [u8],
    text: &[u8],
    names: [Option<Span>; 4],
    sources: Sources,
    marks: Marks,
    calls: &[u32],
    notes: &[u32; 768],
) -> usize
    requires { Room out.old 0 (texts_of marks.pipe marks.line text.now names sources notes.now calls.now) × (any bad_call (pbn_rows calls.now) ≡ false) }
    ensures { Put out.old 0 (texts_of marks.pipe marks.line text.now names sources notes.now calls.now) out.new result }
{
    let a = put_pbn_names(out, 0, text, names, marks);
    let b = put_raw(out, a, text, sources, calls, notes);
    clean_part(out, a, b, marks);
    b
}
