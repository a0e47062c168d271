// A deal as text: the value of md, with East left out where the other three hands imply it. (01: Writer, md)
ghost use Rattle.std.specs.Prelude.{ℕ, ◌<◌, ◌^◌, ◌≡◌, List, length};
ghost use Rattle.lin_spec.specs.Letters.{hand_length};
ghost use Rattle.lin_spec.specs.Writer.{implied_east, dealer_digit, md_text};
ghost use Rattle.lin_spec.specs.declared.Seat.{Seat};
ghost use Rattle.lin_spec.specs.declared.Seat.TheVariants.{East};
ghost use Rattle.output.specs.Put.{Room, Put};
ghost use Rattle.writer_cards.specs.Hands.{bare_text, east_text};
ghost use Rattle.writer_cards.specs.Sizes.{Sized, Small};

use crate::hands::{hand_text_len, put_hand};
use crate::sizes::Sizes;
use lin_spec::Seat;
use output::{put, put_all};

const BARE: [u8; 3] = *b",,,";

// The digit of the dealer.
fn dealer_digit(dealer: Seat) -> u8
    ensures { result ≡ dealer_digit dealer }
{
    match dealer {
        Seat::South => b'1',
        Seat::West => b'2',
        Seat::North => b'3',
        Seat::East => b'4',
    }
}

// Puts East's field with its comma, unless it is left out.
fn put_east(out: &mut [u8], at: usize, counts: &[u32; 208], sizes: Sizes) -> usize
    requires { Room out.old at (east_text counts.now) × Sized counts.now sizes }
    ensures { Put out.old at (east_text counts.now) out.new result }
{
    if sizes.implied {
        return at;
    }
    let a = put(out, at, b',');
    put_hand(out, a, counts, Seat::East, sizes.east)
}

// Nothing where East is left out, or else a comma and a hand of so many cards.
fn east_len(east: u64, implied: bool) -> u64
    requires { east < 2 ^ 38 }
    ensures { ((d : List ℕ) → east ≡ hand_length d East → implied ≡ implied_east d → result ≡ length (east_text d)) × (result < 2 ^ 40) }
{
    if implied {
        return 0;
    }
    hand_text_len(east) + 1
}

// Puts the value of md, hand by hand.
fn put_hands(out: &mut [u8], at: usize, dealer: Seat, counts: &[u32; 208], sizes: Sizes) -> usize
    requires { Room out.old at (md_text (record { dealer = dealer; deal = counts.now })) × Sized counts.now sizes }
    ensures { Put out.old at (md_text (record { dealer = dealer; deal = counts.now })) out.new result }
{
    let a = put(out, at, dealer_digit(dealer));
    let b = put_hand(out, a, counts, Seat::South, sizes.south);
    let c = put(out, b, b',');
    let d = put_hand(out, c, counts, Seat::West, sizes.west);
    let e = put(out, d, b',');
    let f = put_hand(out, e, counts, Seat::North, sizes.north);
    put_east(out, f, counts, sizes)
}

// Puts the value of md where no card is held.
fn put_bare(out: &mut [u8], at: usize, dealer: Seat) -> usize
    requires { Room out.old at (bare_text dealer) }
    ensures { Put out.old at (bare_text dealer) out.new result }
{
    let a = put(out, at, dealer_digit(dealer));
    put_all(out, a, &BARE)
}

// Puts the value of md.
pub fn put_md(out: &mut [u8], at: usize, dealer: Seat, counts: &[u32; 208], sizes: Sizes) -> usize
    requires { Room out.old at (md_text (record { dealer = dealer; deal = counts.now })) × Sized counts.now sizes }
    ensures { Put out.old at (md_text (record { dealer = dealer; deal = counts.now })) out.new result }
{
    if !sizes.held {
        return put_bare(out, at, dealer);
    }
    put_hands(out, at, dealer, counts, sizes)
}

// The same for every dealer.
pub fn md_len(sizes: Sizes) -> u64
    requires { Small sizes }
    ensures { (d : List ℕ) → Sized d sizes → (x : Seat) → result ≡ length (md_text (record { dealer = x; deal = d })) }
{
    let s = hand_text_len(sizes.south);
    let w = hand_text_len(sizes.west);
    let n = hand_text_len(sizes.north);
    let e = east_len(sizes.east, sizes.implied);
    s + w + n + e + 3
}
