// What is found in lent rows before a board is written: first the places and the lengths of their texts, then the bytes. (01: Eight refusals, 5 to 7)
ghost use Rattle.std.specs.Prelude.{◌≡◌};
ghost use Rattle.rows_writer.specs.Seen.{measuring_scan, Looks, Seen};

use lin_spec::LIMIT;
use rows::CallRow;
use rows_walks::{Scan, scan_rows};
use text::index_text;

// A scan of places and lengths that has found nothing yet.
fn measuring() -> Scan
    ensures { result ≡ measuring_scan }
{
    Scan {
        look: false,
        blocks: 0,
        past: false,
        ill: false,
        spans: 0,
        need: 0,
    }
}

// A scan of the bytes after one that has measured n rows. A text that is short, or short for its rows or for their texts, is looked at as a whole first, so
// that no text of a row is looked at for much longer than a block; so all looks together take time linear in the text and the rows. A text that is too long is
// not looked at.
fn looking(text: &[u8], n: usize, seen: Scan, next: &mut [u32]) -> Scan
    ensures { Looks text.now seen result next.new }
{
    let within = text.len() <= LIMIT;
    let short = (text.len() <= 256) | (text.len() / 24 <= n) | (text.len() as u64 <= seen.spans);
    let mut blocks = 0;
    if within & short {
        index_text(text, next);
        blocks = next.len();
    }
    Scan {
        look: within,
        blocks,
        past: seen.past,
        ill: false,
        spans: seen.spans,
        need: seen.need,
    }
}

// What is found in the rows.
pub(crate) fn seen_rows(text: &[u8], rows: &[CallRow]) -> Scan
    ensures { Seen text.now rows.now result }
{
    let mut next: [u32; 1025] = [0; 1025];
    let first = scan_rows(text, &next, rows, measuring());
    let second = looking(text, rows.len(), first, &mut next);
    scan_rows(text, &next, rows, second)
}
