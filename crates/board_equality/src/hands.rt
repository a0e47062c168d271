// Hands and deals compared by their counts: `same_cards`, which is lopsided for repeated cards. (01: equality)
ghost use Rattle.std.specs.Prelude.{◌≡◌};
ghost use Rattle.lin_spec.specs.Letters.{hand_at};
ghost use Rattle.lin_spec.specs.Writer.{held_in, same_cards};
ghost use Rattle.lin_spec.specs.Equality.{same_deal};

use cards::seat_sum;
use lin_spec::{Deal, Seat};

// Whether a seat of the other deal holds each card that the seat of this one holds.
fn held_in(counts: &[u32; 208], other: &[u32; 208], seat: Seat) -> bool
    ensures { result ≡ held_in (hand_at counts.now seat) (hand_at other.now seat) }
{
    let first = seat.number() * Deal::CARDS;
    let last = first + Deal::CARDS;
    counts[first..last]
        .iter()
        .zip(other[first..last].iter())
        .all(|(&n, &m)| (n == 0) | (m != 0))
}

// Whether a seat's hands are as long, and the other holds each card of this one.
fn same_cards(counts: &[u32; 208], other: &[u32; 208], seat: Seat) -> bool
    ensures { result ≡ same_cards (hand_at counts.now seat) (hand_at other.now seat) }
{
    if seat_sum(counts, seat) != seat_sum(other, seat) {
        return false;
    }
    held_in(counts, other, seat)
}

// Whether each seat's hands are so.
fn same_hands(counts: &[u32; 208], other: &[u32; 208]) -> bool
    ensures { result ≡ same_deal counts.now other.now }
{
    if !same_cards(counts, other, Seat::South) {
        return false;
    }
    if !same_cards(counts, other, Seat::West) {
        return false;
    }
    if !same_cards(counts, other, Seat::North) {
        return false;
    }
    same_cards(counts, other, Seat::East)
}

// Whether each seat's hands are so. Most deals that are have the same counts.
pub(crate) fn same_deal(counts: &[u32; 208], other: &[u32; 208]) -> bool
    ensures { result ≡ same_deal counts.now other.now }
{
    if *counts == *other {
        return true;
    }
    same_hands(counts, other)
}
