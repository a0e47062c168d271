// A hand as text: its suits, each with its ranks from A down, or nothing for an empty hand. (01: Writer, md)
ghost use Rattle.std.specs.Prelude.{◌≡◌, List, ℕ, ◌*◌, ◌≤◌, ◌<◌, ◌^◌, length, replicate};
ghost use Rattle.lin_spec.specs.Records.{part};
ghost use Rattle.lin_spec.specs.Cards.{sum};
ghost use Rattle.lin_spec.specs.Letters.{hand_at, hand_length};
ghost use Rattle.lin_spec.specs.Writer.{ranks_from, suit_text, hand_text};
ghost use Rattle.output.specs.Put.{Room, Put};
ghost use Rattle.writer_cards.specs.Hands.{suits_text};

use crate::letters::{rank_letter, suit_letter};
use lin_spec::{Deal, Seat};
use output::put;

// Puts a byte n times.
fn put_repeated(out: &mut [u8], at: usize, b: u8, n: u32) -> usize
    requires { Room out.old at (replicate n b) }
    ensures { Put out.old at (replicate n b) out.new result }
{
    if n == 0 {
        return at;
    }
    // Most stand once.
    if n == 1 {
        return put(out, at, b);
    }
    let end = at + n as usize;
    out[at..end].fill(b);
    end
}

// Puts the ranks of a suit of a seat's hand, from A down.
fn put_ranks(out: &mut [u8], at: usize, counts: &[u32; 208], seat: usize, suit: usize) -> usize
    requires { Room out.old at (ranks_from (part counts.now (seat * 52) 52) (suit * 13) 13) × (seat < 4) × (suit < 4) }
    ensures { Put out.old at (ranks_from (part counts.now (seat * 52) 52) (suit * 13) 13) out.new result }
{
    let first = seat * Deal::CARDS + suit * 13;
    let mut o = at;
    for r in (0..13).rev() {
        o = put_repeated(out, o, rank_letter(r), counts[first + r]);
    }
    o
}

// Puts a suit of a seat's hand: its letter and its ranks.
fn put_suit(out: &mut [u8], at: usize, counts: &[u32; 208], seat: usize, suit: usize) -> usize
    requires { Room out.old at (suit_text (part counts.now (seat * 52) 52) suit) × (seat < 4) × (suit < 4) }
    ensures { Put out.old at (suit_text (part counts.now (seat * 52) 52) suit) out.new result }
{
    let a = put(out, at, suit_letter(suit));
    put_ranks(out, a, counts, seat, suit)
}

// Puts the four suits of a seat's hand.
fn put_suits(out: &mut [u8], at: usize, counts: &[u32; 208], seat: usize) -> usize
    requires { Room out.old at (suits_text (part counts.now (seat * 52) 52)) × (seat < 4) }
    ensures { Put out.old at (suits_text (part counts.now (seat * 52) 52)) out.new result }
{
    let a = put_suit(out, at, counts, seat, 0);
    let b = put_suit(out, a, counts, seat, 1);
    let c = put_suit(out, b, counts, seat, 2);
    put_suit(out, c, counts, seat, 3)
}

// Puts a seat's hand of n cards, nothing if it is empty.
pub(crate) fn put_hand(out: &mut [u8], at: usize, counts: &[u32; 208], seat: Seat, n: u64) -> usize
    requires { Room out.old at (hand_text (hand_at counts.now seat)) × (n ≡ hand_length counts.now seat) }
    ensures { Put out.old at (hand_text (hand_at counts.now seat)) out.new result }
{
    if n == 0 {
        return at;
    }
    put_suits(out, at, counts, seat.number())
}

// A letter for each suit and each card, none if the hand is empty.
pub(crate) fn hand_text_len(n: u64) -> u64
    requires { n < 2 ^ 38 }
    ensures { ((h : List ℕ) → length h ≤ 52 → n ≡ sum h → result ≡ length (hand_text h)) × (result < 2 ^ 39) }
{
    if n == 0 {
        return 0;
    }
    n + 4
}
