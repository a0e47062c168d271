// A bid's bytes as a call: p, d, r, or a level 1 to 7 with C, D, H, S, N or NT, in either case. (02: N1, "Read each bid, ignoring ASCII case, ..")
ghost use Rattle.std.specs.Prelude.{◌≡◌, [], ◌∷◌};
ghost use Rattle.auction.specs.Bids.{strain_by, bid_by, read_lower, read_bid};

use bridge_auction::{AuctionCall, Strain};
use white::lower_byte;

// A call of one letter, which is small.
fn read_letter(b: u8) -> Option<AuctionCall>
    ensures { result ≡ read_lower (b ∷ []) }
{
    if b == b'p' {
        return Some(AuctionCall::Pass);
    }
    if b == b'd' {
        return Some(AuctionCall::Double);
    }
    if b == b'r' {
        return Some(AuctionCall::Redouble);
    }
    None
}

// The strain of one letter, which is small.
fn strain_by(b: u8) -> Option<Strain>
    ensures { result ≡ strain_by (b ∷ []) }
{
    if b == b'c' {
        return Some(Strain::Clubs);
    }
    if b == b'd' {
        return Some(Strain::Diamonds);
    }
    if b == b'h' {
        return Some(Strain::Hearts);
    }
    if b == b's' {
        return Some(Strain::Spades);
    }
    if b == b'n' {
        return Some(Strain::NoTrump);
    }
    None
}

// The bid of a level's digit and a strain.
fn bid_by(b: u8, n: Option<Strain>) -> Option<AuctionCall>
    ensures { result ≡ bid_by b n }
{
    let strain = n?;
    if b < b'1' {
        return None;
    }
    if b'7' < b {
        return None;
    }
    Some(AuctionCall::Bid(b - b'0', strain))
}

// The call that a bid's bytes are.
pub fn read_bid(s: &[u8]) -> Option<AuctionCall>
    ensures { result ≡ read_bid s.now }
{
    if s.len() == 1 {
        return read_letter(lower_byte(s[0]));
    }
    if s.len() == 2 {
        let n = strain_by(lower_byte(s[1]));
        return bid_by(lower_byte(s[0]), n);
    }
    if s.len() != 3 {
        return None;
    }
    if lower_byte(s[1]) != b'n' {
        return None;
    }
    if lower_byte(s[2]) != b't' {
        return None;
    }
    bid_by(lower_byte(s[0]), Some(Strain::NoTrump))
}
