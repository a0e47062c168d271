// The places of work space that a call of the finder needs. (02: N3, "too little is refused by 7, checked last, with the places needed")
ghost use Rattle.std.specs.Prelude.{◌≡◌, true, map, ◌^◌, ◌<◌, max, length};
ghost use Rattle.lin_spec.specs.Records.{bytes_at};
ghost use Rattle.lin_spec.specs.Utf8.{utf8};
ghost use Rattle.accents.specs.Table.{mapping_table};
ghost use Rattle.accents.specs.Lines.{table_words};
ghost use Rattle.accents.specs.Names.{places as places_of};
ghost use Rattle.file_sections.specs.Sections.{Inside, AtFirst};
ghost use Rattle.file_finder.specs.Finder.{greatest, most_places};
ghost use Rattle.file_finder.specs.Walk.{MostIn, RoomIs};

use accents::mapped_len;
use board::names_at;
use file_sections::{BoardCursor, Section};
use lin_spec::{Refusal, Span};
use text::shown;

// The most places that one of the names takes.
fn most_of(mappings: &[u64; 501], text: &[u8], names: [Span; 4]) -> usize
    requires { (mappings.now ≡ table_words mapping_table) × (length text.now < 2 ^ 32) }
    ensures { result ≡ greatest (map (λ x. places_of (bytes_at text.now x)) names) }
{
    let mut most = 0;
    for &x in names.iter() {
        most = most.max(mapped_len(mappings, shown(text, x)));
    }
    most
}

// The most that a name of a board takes; 0 for a section that is no board.
fn most_in(mappings: &[u64; 501], text: &[u8], p: Section) -> usize
    requires { (mappings.now ≡ table_words mapping_table) × Inside text.now p }
    ensures { MostIn text.now p result }
{
    if !p.board {
        return 0;
    }
    most_of(mappings, text, names_at(&text[..p.stop], p.start))
}

// The most that a name of any board takes, from a cursor at the first section.
fn most_from(mappings: &[u64; 501], text: &[u8], cursor: BoardCursor) -> usize
    requires { (mappings.now ≡ table_words mapping_table) × AtFirst text.now cursor }
    ensures { result ≡ most_places text.now }
{
    let mut most = 0;
    let mut c = cursor;
    loop {
        let step = c.next(text);
        let Some((_, p)) = step.found else {
            return most;
        };
        most = most.max(most_in(mappings, text, p));
        c = step.cursor;
    }
}

// Refusal 7 unless the room is enough for a name that takes so many places. A UTF-8 text of n bytes is mapped to n + n / 2 characters at the most, so the names are measured
// only where the room is less than that of the whole text.
pub fn room_for(
    mappings: &[u64; 501],
    text: &[u8],
    cursor: BoardCursor,
    places: usize,
    room: usize,
) -> Result<(), Refusal>
    requires { (mappings.now ≡ table_words mapping_table) × AtFirst text.now cursor × (utf8 text.now ≡ true) × (places < 2 ^ 32) }
    ensures { RoomIs text.now places room result }
{
    if places + text.len() * 3 / 2 <= room {
        return Ok(());
    }
    let need = places + most_from(mappings, text, cursor);
    if need <= room {
        return Ok(());
    }
    Err(Refusal::OutputTooSmall(need as u64))
}
