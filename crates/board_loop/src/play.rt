// The cards of a run of tokens, one at a time. (01: Board, pc)
ghost use Rattle.std.specs.Prelude.{◌≡◌, ◌<◌, ◌^◌, length, eqb};
ghost use Rattle.lin_spec.specs.Base.{pick};
ghost use Rattle.lin_spec.specs.Records.{bytes_at};
ghost use Rattle.lin_spec.specs.White.{trim as trimmed};
ghost use Rattle.lin_spec.specs.Cards.{read_card};
ghost use Rattle.document_commands.specs.Commands.{pc_no};
ghost use Rattle.board_loop.specs.Play.{GivesCard};

use cards::read_card;
use document::Cursor;
use document_commands::{PC, next_command, span_of};
use lin_spec::Span;
use text::shown;
use white::trim;

// The card of a token, if it is a pc and its value is a card.
pub(crate) fn card_at(text: &[u8], k: u8, v: Span) -> Option<u8>
    ensures { result ≡ pick (eqb k pc_no) (read_card (trimmed (bytes_at text.now v))) None }
{
    if k == PC {
        return read_card(trim(shown(text, v)));
    }
    None
}

// The next card.
pub fn next_card(text: &[u8], cursor: Cursor) -> Option<(u8, Cursor)>
    requires { length text.now < 2 ^ 32 }
    ensures { GivesCard text.now cursor.at result }
{
    let mut c = cursor;
    loop {
        match next_command(text, c) {
            Some((k, value, next)) => match card_at(text, k, span_of(value)) {
                Some(card) => {
                    return Some((card, next));
                }
                None => {
                    c = next;
                }
            },
            None => {
                return None;
            }
        }
    }
}
