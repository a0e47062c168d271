// The heading of a board from a run of tokens, in one pass that keeps spans and small numbers only. (01: Board, `from_tokens`)
ghost use Rattle.std.specs.Prelude.{◌<◌, ◌≤◌, ◌^◌, length, ◌≡◌, []};
ghost use Rattle.lin_spec.specs.Records.{end_of};
ghost use Rattle.lin_spec.specs.Reading.{stream};
ghost use Rattle.document_commands.specs.Commands.{pc_no, mb_no};
ghost use Rattle.board_loop.specs.Head.{Stepped, Leaves, fresh_head};

use board_fields::{on_card, on_claim, on_md, on_names, on_present, on_sv, on_value};
use cards::LETTERS;
use document_commands::{AH, BoardToken, MB, MC, MD, MN, PC, PN, QX, SV, board_token};
use lin_spec::{Span, Vulnerability};

// A heading while it is read. The value of the last md that was accepted stands for dealer and deal.
#[derive(Clone, Copy)]
pub struct ReadHead {
    pub names: [Span; 4],
    pub md: Option<Span>,
    pub vulnerability: Vulnerability,
    pub title: Option<Span>,
    pub room: Option<Span>,
    pub header: Option<Span>,
    pub claim: Option<u8>,
    pub calls: usize,
    pub cards: usize,
}

// The heading after one token more that is neither a call nor a card, whose command has the number k.
pub(crate) fn step(text: &[u8], h: ReadHead, k: u8, v: Span) -> ReadHead
    requires { (end_of v ≤ length text.now) × (length text.now < 2 ^ 32) × (k ≡ pc_no → ⊥) × (k ≡ mb_no → ⊥) }
    ensures { Stepped text.now h k v result }
{
    let old = h.names;
    let old_md = h.md;
    let old_vulnerability = h.vulnerability;
    let old_title = h.title;
    let old_room = h.room;
    let old_header = h.header;
    let old_claim = h.claim;
    let names = on_names(text, k == PN, v, old);
    let md = on_md(text, k == MD, v, old_md);
    let vulnerability = on_sv(text, k == SV, v, old_vulnerability);
    let title = on_value(k == MN, v, old_title);
    let room = on_value(k == QX, v, old_room);
    let header = on_present(k == AH, v, old_header);
    let claim = on_claim(text, k == MC, v, old_claim);
    ReadHead {
        names,
        md,
        vulnerability,
        title,
        room,
        header,
        claim,
        calls: h.calls,
        cards: h.cards,
    }
}

// A heading before the first token.
pub(crate) fn fresh_head() -> ReadHead
    ensures { result ≡ fresh_head }
{
    let none = Span { start: 0, len: 0 };
    ReadHead {
        names: [none, none, none, none],
        md: None,
        vulnerability: Vulnerability::None,
        title: None,
        room: None,
        header: None,
        claim: None,
        calls: 0,
        cards: 0,
    }
}

// The heading that the tokens of a text from a place on give.
pub fn read_head(text: &[u8], at: usize) -> ReadHead
    requires { (at ≤ length text.now) × (length text.now < 2 ^ 32) }
    ensures { Leaves text.now (stream text.now at) result fresh_head [] }
{
    let letters = LETTERS;
    let mut h = fresh_head();
    let mut c = at;
    loop {
        match board_token(&letters, text, c) {
            BoardToken::Card(_, next) => {
                h.cards = h.cards + 1;
                c = next;
            }
            BoardToken::Known(k, v, next) => {
                if k == PC {
                    h.cards = on_card(text, v, h.cards);
                } else if k == MB {
                    h.calls = h.calls + 1;
                } else {
                    h = step(text, h, k, v);
                }
                c = next;
            }
            BoardToken::Other(next) => {
                c = next;
            }
            BoardToken::Ended => {
                return h;
            }
        }
    }
}
