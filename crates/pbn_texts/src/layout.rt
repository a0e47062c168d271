// Where each text of the board stands in the output. (01: From PBN, "The texts made go into a lent output from its first byte, back to back")
ghost use Rattle.std.specs.Prelude.{◌≡◌, ◌≤◌, length};
ghost use Rattle.lin_spec.specs.Records.{limit};
ghost use Rattle.pbn_texts.specs.Layout.{layout_of};

use crate::names::name_spans;
use crate::sources::Sources;
use crate::texts::{label_len, title_len};
use lin_spec::Span;
use writer_texts::Marks;

// The names, and where each text after them begins. A text that is absent ends where it begins.
#[derive(Clone, Copy)]
pub struct Layout {
    pub names: [Span; 4],
    pub title: u32,
    pub room_board: u32,
    pub header: u32,
    pub calls: u32,
}

// The layout of a board with these names and sources.
pub fn layout_of(text: &[u8], names: [Option<Span>; 4], sources: Sources, marks: Marks) -> Layout
    requires { length text.now ≤ limit }
    ensures { result ≡ layout_of marks.pipe marks.line text.now names sources }
{
    let event = sources.event;
    let date = sources.date;
    let label = sources.label;
    let spans = name_spans(text, names, marks);
    let east = spans[3];
    let title = east.start + east.len;
    let room_board = title + title_len(text, event, date) as u32;
    if label.is_none() {
        return Layout {
            names: spans,
            title,
            room_board,
            header: room_board,
            calls: room_board,
        };
    }
    // `o` and `,BOARD ` have eight bytes, `Board ` has six.
    let n = label_len(text, label) as u32;
    let header = room_board + 8 + n + n;
    let calls = header + 6 + n;
    Layout {
        names: spans,
        title,
        room_board,
        header,
        calls,
    }
}
