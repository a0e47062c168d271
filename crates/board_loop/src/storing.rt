// A board in one pass over its tokens: the heading kept, each call and each card stored as it is met. (01: Board, `from_tokens`)
ghost use Rattle.std.specs.Prelude.{◌≡◌, ◌+◌, ◌*◌, ◌≤◌, length};
ghost use Rattle.output.specs.Put.{Room, Put};
ghost use Rattle.lin_spec.specs.Records.{end_of};
ghost use Rattle.lin_spec.specs.Output.{overlay};
ghost use Rattle.board_loop.specs.Calls.{row_words};
ghost use Rattle.board_loop.specs.Play.{pc_card};
ghost use Rattle.board_loop.specs.Storing.{bid_words, note_words, noted, Fits, Stored};

use crate::calls::call_of;
use crate::heading::{ReadHead, fresh_head, step};
use crate::play::card_at;
use cards::LETTERS;
use document_commands::{AN, BoardToken, MB, PC, board_token};
use lin_spec::{Call, Span};
use output::put;

// Stores a call in a row of six words.
fn store_call(rows: &mut [u32], at: usize, c: Call) -> usize
    requires { Room rows.old at (row_words c) }
    ensures { Put rows.old at (row_words c) rows.new result }
{
    let bid = c.bid;
    let annotation = c.annotation;
    let a = put(rows, at, bid.start);
    let b = put(rows, a, bid.len);
    let d = put(rows, b, c.alerted);
    let e = put(rows, d, c.annotated);
    let f = put(rows, e, annotation.start);
    put(rows, f, annotation.len)
}

// Stores the call of an mb value in the row i, and gives the number of the next row.
fn store_bid(rows: &mut [u32], i: usize, text: &[u8], v: Span) -> usize
    requires { (end_of v ≤ length text.now) × Room rows.old (i * 6) (bid_words text.now v) }
    ensures { (result ≡ i + 1) × (rows.new ≡ overlay rows.old (i * 6) (bid_words text.now v)) }
{
    let call = call_of(text, v, None);
    store_call(rows, i * 6, call);
    i + 1
}

// Stores an annotation in the last three words of a row.
fn store_note(rows: &mut [u32], at: usize, v: Span) -> usize
    requires { Room rows.old at (note_words v) }
    ensures { Put rows.old at (note_words v) rows.new result }
{
    let a = put(rows, at, 1);
    let b = put(rows, a, v.start);
    put(rows, b, v.len)
}

// Stores an annotation in the last of i rows, if there is one.
fn store_last(rows: &mut [u32], i: usize, v: Span)
    requires { i * 6 ≤ length rows.old }
    ensures { rows.new ≡ noted rows.old i v }
{
    if 0 < i {
        store_note(rows, i * 6 - 3, v);
    }
}

// Stores the card of a pc, if its value is one.
fn store_card(cards: &mut [u8], at: usize, text: &[u8], v: Span) -> usize
    requires { Room cards.old at (pc_card text.now v) }
    ensures { Put cards.old at (pc_card text.now v) cards.new result }
{
    match card_at(text, PC, v) {
        Some(c) => put(cards, at, c),
        None => at,
    }
}

// The heading that the tokens of a text from a place on give, with every call and card stored.
pub fn read_into(text: &[u8], at: usize, rows: &mut [u32], cards: &mut [u8]) -> ReadHead
    requires { Fits text.now at rows.old cards.old }
    ensures { Stored text.now at rows.old cards.old result rows.new cards.new }
{
    let letters = LETTERS;
    let mut h = fresh_head();
    let mut c = at;
    loop {
        match board_token(&letters, text, c) {
            BoardToken::Card(card, next) => {
                h.cards = put(cards, h.cards, card);
                c = next;
            }
            BoardToken::Known(k, v, next) => {
                if k == PC {
                    h.cards = store_card(cards, h.cards, text, v);
                } else if k == MB {
                    h.calls = store_bid(rows, h.calls, text, v);
                } else if k == AN {
                    store_last(rows, h.calls, v);
                } else {
                    h = step(text, h, k, v);
                }
                c = next;
            }
            BoardToken::Other(next) => {
                c = next;
            }
            BoardToken::Ended => {
                return h;
            }
        }
    }
}
