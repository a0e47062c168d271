// The words of a board's line: how they are put into an output, and how many bytes they have. (01: Program linlist)
ghost use Rattle.std.specs.Prelude.{◌≡◌, ◌∷◌, [], length};
ghost use Rattle.lin_spec.specs.Decimal.{decimal};
ghost use Rattle.lin_spec.specs.Letters.{seat_letter, sv_letter, hand_length};
ghost use Rattle.lin_spec.specs.Refusals.{number_of, sat};
ghost use Rattle.lin_spec.specs.Listing.{claim_word};
ghost use Rattle.output.specs.Put.{Room, Put};
ghost use Rattle.listing_lines.specs.Pieces.{letters_text, field_text, lengths_text};

use cards::seat_len;
use lin_spec::{Deal, Refusal, Seat, Vulnerability};
use output::{decimal_len, put, put_decimal, sat_add};

// Puts the letter of a seat.
fn put_seat(out: &mut [u8], at: usize, seat: Seat) -> usize
    requires { Room out.old at (seat_letter seat ∷ []) }
    ensures { Put out.old at (seat_letter seat ∷ []) out.new result }
{
    put(out, at, seat.letter())
}

// Puts the letter of a written sv.
fn put_vul(out: &mut [u8], at: usize, v: Vulnerability) -> usize
    requires { Room out.old at (sv_letter v ∷ []) }
    ensures { Put out.old at (sv_letter v ∷ []) out.new result }
{
    put(out, at, v.letter())
}

// Puts both, each after a space.
pub fn put_letters(out: &mut [u8], at: usize, dealer: Seat, v: Vulnerability) -> usize
    requires { Room out.old at (letters_text dealer v) }
    ensures { Put out.old at (letters_text dealer v) out.new result }
{
    let a = put(out, at, b' ');
    let b = put_seat(out, a, dealer);
    let c = put(out, b, b' ');
    put_vul(out, c, v)
}

// Puts a number after a space.
pub fn put_field(out: &mut [u8], at: usize, n: u64) -> usize
    requires { Room out.old at (field_text n) }
    ensures { Put out.old at (field_text n) out.new result }
{
    let a = put(out, at, b' ');
    put_decimal(out, a, n)
}

// A number after a space.
pub fn field_len(n: u64) -> u64
    ensures { result ≡ sat (length (field_text n)) }
{
    sat_add(1, decimal_len(n))
}

// Puts the length of a seat's hand after a space.
fn put_length(out: &mut [u8], at: usize, deal: Deal, seat: Seat) -> usize
    requires { Room out.old at (field_text (hand_length deal.counts seat)) }
    ensures { Put out.old at (field_text (hand_length deal.counts seat)) out.new result }
{
    put_field(out, at, seat_len(deal, seat))
}

fn length_len(deal: Deal, seat: Seat) -> u64
    ensures { result ≡ sat (length (field_text (hand_length deal.counts seat))) }
{
    field_len(seat_len(deal, seat))
}

// Puts the lengths of the four hands.
pub fn put_lengths(out: &mut [u8], at: usize, deal: Deal) -> usize
    requires { Room out.old at (lengths_text deal.counts) }
    ensures { Put out.old at (lengths_text deal.counts) out.new result }
{
    let a = put_length(out, at, deal, Seat::South);
    let b = put_length(out, a, deal, Seat::West);
    let c = put_length(out, b, deal, Seat::North);
    put_length(out, c, deal, Seat::East)
}

pub fn lengths_len(deal: Deal) -> u64
    ensures { result ≡ sat (length (lengths_text deal.counts)) }
{
    let a = length_len(deal, Seat::South);
    let b = sat_add(a, length_len(deal, Seat::West));
    let c = sat_add(b, length_len(deal, Seat::North));
    sat_add(c, length_len(deal, Seat::East))
}

// Puts a claim, or `-`.
pub fn put_claim(out: &mut [u8], at: usize, claim: Option<u8>) -> usize
    requires { Room out.old at (claim_word claim) }
    ensures { Put out.old at (claim_word claim) out.new result }
{
    match claim {
        None => put(out, at, b'-'),
        Some(n) => put_decimal(out, at, n as u64),
    }
}

pub fn claim_len(claim: Option<u8>) -> u64
    ensures { result ≡ length (claim_word claim) }
{
    match claim {
        None => 1,
        Some(n) => decimal_len(n as u64),
    }
}

// Puts the number of a refusal.
pub fn put_number(out: &mut [u8], at: usize, refusal: Refusal) -> usize
    requires { Room out.old at (decimal (number_of refusal)) }
    ensures { Put out.old at (decimal (number_of refusal)) out.new result }
{
    put_decimal(out, at, refusal.number() as u64)
}
