// What is asked of a deal that is written, once for its length and its text: how many cards each hand has, and whether the other three imply
// East's. (01: Writer, md)
// The 208 counts are lent. A proof does not know the length of an array behind a reference: it is asked where the counts are looked at.
ghost use Rattle.std.specs.Prelude.{◌≡◌, ◌&&◌, ◌<◌, length, get_or, eqb};
ghost use Rattle.lin_spec.specs.Base.{any};
ghost use Rattle.lin_spec.specs.Cards.{sum};
ghost use Rattle.lin_spec.specs.Letters.{hand_at, hand_length};
ghost use Rattle.lin_spec.specs.Writer.{held_in, implied_east};
ghost use Rattle.lin_spec.specs.declared.Seat.TheVariants.{South, West, North, East};
ghost use Rattle.writer_cards.specs.Hands.{rest_of};
ghost use Rattle.writer_cards.specs.Sizes.{counted, Sized, Small};

use cards::seat_sum;
use lin_spec::{Deal, Seat};

// Whether a card is held, how many cards each hand has, and whether East is implied.
#[derive(Clone, Copy)]
pub struct Sizes {
    pub held: bool,
    pub south: u64,
    pub west: u64,
    pub north: u64,
    pub east: u64,
    pub implied: bool,
}

// How often the remainder holds a card: once if no hand but East's holds it, else not.
fn remainder_count(counts: &[u32; 208], card: usize) -> u64
    requires { (card < 52) × (length counts.now ≡ 208) }
    ensures { (result ≡ get_or (rest_of counts.now) card 0) × (result < 2) }
{
    if (counts[card] == 0)
        & ((counts[Deal::CARDS + card] == 0) & (counts[2 * Deal::CARDS + card] == 0))
    {
        return 1;
    }
    0
}

// Whether East, with so many cards, has as many as the remainder, and each of them is in it.
fn is_rest(counts: &[u32; 208], east: u64) -> bool
    requires { length counts.now ≡ 208 }
    ensures { result ≡ (eqb east (sum (rest_of counts.now)) && held_in (hand_at counts.now East) (rest_of counts.now)) }
{
    let mut n: u64 = 0;
    let mut held = true;
    for c in 0..Deal::CARDS {
        let free = remainder_count(counts, c);
        held &= (counts[3 * Deal::CARDS + c] == 0) | (free != 0);
        n += free;
    }
    (east == n) & held
}

// Whether East is implied by the other three hands, by how many cards each hand has.
fn is_implied(counts: &[u32; 208], s: u64, w: u64, n: u64, e: u64) -> bool
    requires { (length counts.now ≡ 208) × (s ≡ hand_length counts.now South) × (w ≡ hand_length counts.now West) × (n ≡ hand_length counts.now North) × (e ≡ hand_length counts.now East) }
    ensures { result ≡ implied_east counts.now }
{
    if !((s == 13) & ((w == 13) & (n == 13))) {
        return false;
    }
    if e == 0 {
        return true;
    }
    is_rest(counts, e)
}

// Whether a hand has a card. Each count is looked at, so that many are at once.
fn has_cards(counts: &[u32; 208]) -> bool
    requires { length counts.now ≡ 208 }
    ensures { result ≡ any counted counts.now }
{
    let mut found = false;
    for &n in counts.iter() {
        found |= n != 0;
    }
    found
}

// The sizes of a deal. Many boards have none.
pub fn sizes_of(counts: &[u32; 208]) -> Sizes
    requires { length counts.now ≡ 208 }
    ensures { Sized counts.now result × Small result }
{
    if !has_cards(counts) {
        return Sizes {
            held: false,
            south: 0,
            west: 0,
            north: 0,
            east: 0,
            implied: false,
        };
    }
    let south = seat_sum(counts, Seat::South);
    let west = seat_sum(counts, Seat::West);
    let north = seat_sum(counts, Seat::North);
    let east = seat_sum(counts, Seat::East);
    let implied = is_implied(counts, south, west, north, east);
    Sizes {
        held: true,
        south,
        west,
        north,
        east,
        implied,
    }
}
