// Deals: the fields of an md value, and the four hands that they give. (01: Records; Board, md)
ghost use Rattle.std.specs.Prelude.{◌≡◌, ◌≤◌, ◌<◌, ◌^◌, length, replicate};
ghost use Rattle.lin_spec.specs.Tokens.{cut};
ghost use Rattle.lin_spec.specs.Cards.{no_cards, thirteens, east_of, deal_of};
ghost use Rattle.cards.specs.Letters.{table};
ghost use Rattle.cards.specs.Deals.{field_at, with_hand, hand_of};

use crate::hands::{count_field, count_rest, seat_sum};
use crate::letters::LETTERS;
use lin_spec::Seat;
use text::{find_byte, part};
use white::is_blank;

// The field that begins at a place: the text up to the next comma.
fn field_at(s: &[u8], at: usize) -> &[u8]
    requires { at ≤ length s.now }
    ensures { result.now ≡ field_at s.now at }
{
    part(s, at, find_byte(s, b',', at) - at)
}

// Three hands of 13 cards each.
fn all_thirteen(counts: &[u32; 208]) -> bool
    ensures { result ≡ thirteens (hand_of counts.now 0) (hand_of counts.now 1) (hand_of counts.now 2) }
{
    (seat_sum(counts, Seat::South) == 13)
        & ((seat_sum(counts, Seat::West) == 13) & (seat_sum(counts, Seat::North) == 13))
}

// Counts East's hand, by its field, which begins at a place, and the hands of the other seats.
fn count_east(counts: &mut [u32; 208], letters: &[u8; 128], s: &[u8], at: usize)
    requires { (letters.now ≡ table) × (hand_of counts.old 3 ≡ no_cards) × (at ≤ length s.now) × (length s.now < 2 ^ 32) }
    ensures { counts.new ≡ with_hand counts.old 3 (east_of (field_at s.now at) (hand_of counts.old 0) (hand_of counts.old 1) (hand_of counts.old 2)) }
{
    let east = field_at(s, at);
    if is_blank(east) & all_thirteen(counts) {
        count_rest(counts);
        return;
    }
    count_field(counts, letters, 3, s, at);
}

// Counts the deal of an md value, from what follows its dealer, where none is counted yet.
pub fn count_deal(counts: &mut [u32; 208], s: &[u8])
    requires { (counts.old ≡ replicate 208 0) × (length s.now < 2 ^ 32) }
    ensures { counts.new ≡ deal_of (cut 0x2C s.now) }
{
    let letters = LETTERS;
    let west = count_field(counts, &letters, 0, s, 0);
    let north = count_field(counts, &letters, 1, s, west);
    let east = count_field(counts, &letters, 2, s, north);
    count_east(counts, &letters, s, east);
}
