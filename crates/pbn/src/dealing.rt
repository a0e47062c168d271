// The dealer and the claim of a board made from a PBN record. (01: From PBN)
ghost use Rattle.std.specs.Prelude.{◌≡◌, ◌%◌};
ghost use Rattle.lin_spec.specs.Pbn.{dealer_from, dealer_by, claim_from};

use lin_spec::Seat;

// The dealer by the remainder of a board number by 4.
fn dealer_from(rest: u32) -> Seat
    ensures { result ≡ dealer_from rest }
{
    match rest {
        1 => Seat::North,
        2 => Seat::East,
        3 => Seat::South,
        _ => Seat::West,
    }
}

// The dealer that is given, or that of the number, or North.
pub(crate) fn dealer_by(dealer: Option<Seat>, number: Option<u32>) -> Seat
    ensures { result ≡ dealer_by dealer number }
{
    match (dealer, number) {
        (Some(seat), _) => seat,
        (None, Some(n)) => dealer_from(n % 4),
        (None, None) => Seat::North,
    }
}

// The claim of a result, if there is one: "A result outside 0 to 255 gives no claim".
pub(crate) fn claim_from(res: Option<i32>) -> Option<u8>
    ensures { result ≡ claim_from res }
{
    res.and_then(|n| u8::try_from(n).ok())
}
