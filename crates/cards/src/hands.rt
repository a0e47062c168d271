// Hands: 52 counts of a deal, from a text and from three other hands, and their length. (01: Records; Board, md)
ghost use Rattle.std.specs.Prelude.{◌≡◌, ◌&&◌, ◌≤◌, ◌<◌, ◌*◌, ◌^◌, length, eqb};
ghost use Rattle.lin_spec.specs.Base.{pick};
ghost use Rattle.lin_spec.specs.Records.{part};
ghost use Rattle.lin_spec.specs.Cards.{no_cards, unheld_cards};
ghost use Rattle.lin_spec.specs.Letters.{hand_length};
ghost use Rattle.cards.specs.Letters.{table};
ghost use Rattle.cards.specs.Deals.{with_hand, hand_of, FieldCounted};

use crate::letters::letter_number;
use lin_spec::{Deal, Seat};

// Counts the cards of a field, up to its comma or the end, at a seat's place in a deal, where none is counted yet, and gives the place of the next field.
// The suit is that of the last suit letter, 4 before the first.
pub(crate) fn count_field(
    counts: &mut [u32; 208],
    letters: &[u8; 128],
    seat: usize,
    s: &[u8],
    at: usize,
) -> usize
    requires { (letters.now ≡ table) × (seat < 4) × (part counts.old (seat * 52) 52 ≡ no_cards) × (at ≤ length s.now) × (length s.now < 2 ^ 32) }
    ensures { FieldCounted s.now at counts.old seat counts.new result }
{
    let first = seat * Deal::CARDS;
    let mut suit: u8 = 4;
    for i in at..s.len() {
        let n = letter_number(letters, s[i]);
        if n < 4 {
            suit = n;
        } else if (suit < 4) & (n < 17) {
            let card = first + (suit * 13 + (n - 4)) as usize;
            counts[card] += 1;
        } else if s[i] == b',' {
            return i + 1;
        }
    }
    s.len()
}

// How many cards a seat's hand has, by the counts of a deal.
pub fn seat_sum(counts: &[u32; 208], seat: Seat) -> u64
    ensures { (result ≡ hand_length counts.now seat) × (result < 2 ^ 38) }
{
    let first = seat.number() * Deal::CARDS;
    let hand = &counts[first..first + Deal::CARDS];
    let mut n: u64 = 0;
    for &count in hand {
        n += count as u64;
    }
    n
}

// How many cards a seat's hand in a deal has.
pub fn seat_len(deal: Deal, seat: Seat) -> u64
    ensures { result ≡ hand_length deal.counts seat }
{
    seat_sum(&deal.counts, seat)
}

// 1 for a card that none of three hands holds, else 0.
fn unheld(a: u32, b: u32, c: u32) -> u32
    ensures { result ≡ pick (eqb a 0 && (eqb b 0 && eqb c 0)) 1 0 }
{
    if (a == 0) & ((b == 0) & (c == 0)) {
        return 1;
    }
    0
}

// Counts at East's place each card that no other seat holds, once.
pub(crate) fn count_rest(counts: &mut [u32; 208])
    requires { hand_of counts.old 3 ≡ no_cards }
    ensures { counts.new ≡ with_hand counts.old 3 (unheld_cards (hand_of counts.old 0) (hand_of counts.old 1) (hand_of counts.old 2)) }
{
    for c in 0..Deal::CARDS {
        counts[156 + c] = unheld(counts[c], counts[52 + c], counts[104 + c]);
    }
}
