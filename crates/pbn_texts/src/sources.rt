// What title, room-and-board and header are made of: event, date and label, where an empty event, date or id acts as absent. (01: From PBN)
ghost use Rattle.std.specs.Prelude.{◌≡◌, List, ℕ};
ghost use Rattle.lin_spec.specs.Pbn.{label_of, text_by, filled_by};
ghost use Rattle.pbn_texts.specs.Sources.{label_by, SourcesOf};

use lin_spec::{PbnBoard, Span};
use text::shown;

// What a board is called: by its id, or else by its number.
#[derive(Clone, Copy)]
pub enum Label {
    Id(Span),
    Number(u32),
}

// Each is absent where it has no byte.
#[derive(Clone, Copy)]
pub struct Sources {
    pub event: Option<Span>,
    pub date: Option<Span>,
    pub label: Option<Label>,
}

// A text that is present and not empty.
fn filled(text: &[u8], x: Option<Span>) -> Option<Span>
    ensures { text_by text.now result ≡ filled_by text.now x }
{
    x.filter(|&y| shown(text, y).len() != 0)
}

// The label of a board with this id and this number.
fn label_of(text: &[u8], id: Option<Span>, number: Option<u32>) -> Option<Label>
    ensures { label_by text.now result ≡ label_of (filled_by text.now id) number }
{
    match filled(text, id) {
        None => number.map(Label::Number),
        Some(y) => Some(Label::Id(y)),
    }
}
// The sources of a record.
pub fn sources_of(text: &[u8], board: PbnBoard) -> Sources
    ensures { SourcesOf text.now board result }
{
    Sources {
        event: filled(text, board.event),
        date: filled(text, board.date),
        label: label_of(text, board.id, board.number),
    }
}
