// The play as it is written: each card in its pc, and `pg||` with LF after each trick. (01: Writer, pc and pg)
ghost use Rattle.std.specs.Prelude.{◌≡◌, false, ◌<◌, length};
ghost use Rattle.lin_spec.specs.Refusals.{sat};
ghost use Rattle.lin_spec.specs.Lent.{bad_cards};
ghost use Rattle.lin_spec.specs.Writer.{card_text, tricks_text};
ghost use Rattle.output.specs.Put.{Room, Put};
ghost use Rattle.writer_cards.specs.Tricks.{trick_end};

use crate::letters::put_card_letters;
use output::{put, put_all, sat_add};

const PC_TEXT: [u8; 3] = *b"pc|";

pub const PG_TEXT: [u8; 5] = *b"pg||\n";

// Puts a card in its pc.
fn put_pc(out: &mut [u8], at: usize, card: u8) -> usize
    requires { Room out.old at (card_text card) × (card < 52) }
    ensures { Put out.old at (card_text card) out.new result }
{
    let a = put_all(out, at, &PC_TEXT);
    let b = put_card_letters(out, a, card);
    put(out, b, b'|')
}

// Puts what follows a card: the end of the trick after each fourth card and after the last.
fn put_trick_end(out: &mut [u8], at: usize, played: usize, all: usize) -> usize
    requires { Room out.old at (trick_end played all) }
    ensures { Put out.old at (trick_end played all) out.new result }
{
    if (played % 4 == 0) | (played == all) {
        return put_all(out, at, &PG_TEXT);
    }
    at
}

// Puts the tricks of a play.
pub fn put_tricks(out: &mut [u8], at: usize, cards: &[u8]) -> usize
    requires { Room out.old at (tricks_text cards.now) × (bad_cards cards.now ≡ false) }
    ensures { Put out.old at (tricks_text cards.now) out.new result }
{
    let mut o = at;
    for (i, &card) in cards.iter().enumerate() {
        let a = put_pc(out, o, card);
        o = put_trick_end(out, a, i + 1, cards.len());
    }
    o
}

// Six bytes for each card and five for each trick.
pub fn tricks_len(cards: &[u8]) -> u64
    ensures { result ≡ sat (length (tricks_text cards.now)) }
{
    let n = cards.len() as u64;
    if 3_074_457_345_618_258_602 < n {
        return 18_446_744_073_709_551_615;
    }
    sat_add(6 * n, 5 * ((n + 3) / 4))
}
