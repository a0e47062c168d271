// The name finder. (01: "the finder counts a file's boards with a given name .."; 02: N3)
ghost use Rattle.std.specs.Prelude.{◌≡◌, true, ◌^◌, ◌≤◌, ◌<◌, length};
ghost use Rattle.lin_spec.specs.Base.{All, any, count_if};
ghost use Rattle.lin_spec.specs.Records.{limit, bytes_at};
ghost use Rattle.lin_spec.specs.Utf8.{utf8};
ghost use Rattle.lin_spec.specs.File.{board_in, file_spans};
ghost use Rattle.accents.specs.Names.{same_name};
ghost use Rattle.file_sections.specs.Sections.{section_of, Inside, AtFirst};
ghost use Rattle.file_finder.specs.Finder.{has_name, Finds};
ghost use Rattle.file_finder.specs.Walk.{NameFits, BoardFits, Looking, FoundIn, FindsChecked};

use crate::measure::room_for;
use accents::mappings;
use accents_names::{Sought, lay_sought, same_name, sought_of};
use board::names_at;
use file_sections::{BoardCursor, Section, holds_qx};
use lin_spec::{LIMIT, Refusal, Span};
use text::{shown, well_formed_len};

// Whether one of the names is the one that is looked for.
fn any_same(
    mappings: &[u64; 501],
    text: &[u8],
    names: [Span; 4],
    name: &[u8],
    sought: Sought,
    work: &mut [u32],
) -> bool
    requires { Looking mappings.now name.now sought work.old × All (NameFits text.now name.now (length work.old)) names × (length text.now < 2 ^ 32) }
    ensures { (result ≡ any (λ x. same_name (bytes_at text.now x) name.now) names) × Looking mappings.now name.now sought work.new × (length work.new ≡ length work.old) }
{
    for &x in names.iter() {
        if same_name(mappings, shown(text, x), name, sought, work) {
            return true;
        }
    }
    false
}

// 1 for a board that has the name, else 0.
fn found_in(
    mappings: &[u64; 501],
    text: &[u8],
    p: Section,
    name: &[u8],
    sought: Sought,
    work: &mut [u32],
) -> usize
    requires { Looking mappings.now name.now sought work.old × Inside text.now p × (p.board ≡ true → All (NameFits text.now name.now (length work.old)) (board_in text.now (section_of p)).names) }
    ensures { FoundIn text.now name.now p result × Looking mappings.now name.now sought work.new × (length work.new ≡ length work.old) }
{
    if !p.board {
        return 0;
    }
    let names = names_at(&text[..p.stop], p.start);
    if any_same(mappings, text, names, name, sought, work) {
        return 1;
    }
    0
}

// How many boards have the name, from a cursor at the first section.
fn find_from(
    mappings: &[u64; 501],
    text: &[u8],
    cursor: BoardCursor,
    name: &[u8],
    sought: Sought,
    work: &mut [u32],
) -> usize
    requires { Looking mappings.now name.now sought work.old × AtFirst text.now cursor × All (BoardFits text.now name.now (length work.old)) (file_spans text.now) }
    ensures { (result ≡ count_if (has_name text.now name.now) (file_spans text.now)) × (length work.new ≡ length work.old) }
{
    let mut count = 0;
    let mut c = cursor;
    loop {
        let step = c.next(text);
        let Some((_, p)) = step.found else {
            return count;
        };
        count += found_in(mappings, text, p, name, sought, work);
        c = step.cursor;
    }
}

// The count over a file and a name that were checked; 7.
fn find_checked(text: &[u8], name: &[u8], work: &mut [u32]) -> Result<usize, Refusal>
    requires { (length text.now ≤ limit) × (length name.now ≤ limit) × (utf8 text.now ≡ true) × (utf8 name.now ≡ true) }
    ensures { FindsChecked text.now name.now work.old result work.new }
{
    let lines = !holds_qx(text);
    let cursor = BoardCursor {
        at: 0,
        number: 0,
        lines,
    };
    let table = mappings();
    let sought = sought_of(&table, name);
    room_for(&table, text, cursor, sought.places, work.len())?;
    lay_sought(&table, name, sought, work);
    Ok(find_from(&table, text, cursor, name, sought, work))
}

// How many boards of the file have the name at any seat; 7 unless the work space has a place for each mapped character of the name, and of that name of the
// file's boards that has most.
pub fn find_name(text: &[u8], name: &[u8], work: &mut [u32]) -> Result<usize, Refusal>
    ensures { Finds text.now name.now work.old result work.new }
{
    if LIMIT < text.len() {
        return Err(Refusal::TextTooLong);
    }
    if LIMIT < name.len() {
        return Err(Refusal::TextTooLong);
    }
    let good = well_formed_len(text);
    if good < text.len() {
        return Err(Refusal::NotUtf8(good as u64));
    }
    let well = well_formed_len(name);
    if well < name.len() {
        return Err(Refusal::NotUtf8(well as u64));
    }
    find_checked(text, name, work)
}
