#![tactic(auto)]

// Lists what a reader has: the body of linlist, and of the test program that runs it on stored files. (01: Program linlist)
ghost use Rattle.std.specs.Prelude.{IfSome, OnOk};
ghost use Rattle.std.specs.Io.KnownBytes.{Appends};
ghost use Rattle.lin_spec.specs.Listing.{listing};

use input::read_full;
use listing::{LIST_LIMIT, LIST_ROOM, list_whole};
use std::io;
use std::io::{Read, Write};
use text::part;

// One byte more than is taken, to tell an input that is too long.
const READ: usize = LIST_LIMIT + 1;

// Reads the input as far as it can be taken, and writes its listing.
fn read_and_list<R: Read, W: Write>(
    input: &mut R,
    to: &mut W,
    text: &mut [u8; READ],
    out: &mut [u8; LIST_ROOM],
) -> io::Result<()>
    ensures { OnOk result (IfSome (R.remaining input.old) (λ xs. Appends (W.contents to.old) (W.contents to.new) (listing xs))) }
{
    let read = read_full(input, text)?;
    let n = list_whole(part(text, 0, read), out);
    to.write_all(part(out, 0, n))
}

// Writes the listing of all that a reader has left.
pub fn list_input<R: Read, W: Write>(input: &mut R, to: &mut W) -> io::Result<()>
    ensures { OnOk result (IfSome (R.remaining input.old) (λ xs. Appends (W.contents to.old) (W.contents to.new) (listing xs))) }
{
    let mut text = [0u8; READ];
    let mut out = [0u8; LIST_ROOM];
    read_and_list(input, to, &mut text, &mut out)
}
