// The calls of an auction, what each is by itself, and what a list of them is.
// (02: N1, "p, d, r, or a level 1 to 7 with C, D, H, S, N or NT")
ghost use Rattle.std.specs.Prelude.{◌≡◌, ◌-◌};
ghost use Rattle.bridge_auction.specs.Auction.{strain_number, doubling_number, is_bid, is_double, doubling_of, level_of, strain_of, rank};

use lin_spec::Seat;

// Clubs rank lowest, no trump highest.
#[derive(Clone, Copy)]
pub enum Strain {
    Clubs,
    Diamonds,
    Hearts,
    Spades,
    NoTrump,
}

// A bid has a level and a strain. Its level is 1 to 7 in an auction that is read from a text.
#[derive(Clone, Copy)]
pub enum AuctionCall {
    Pass,
    Double,
    Redouble,
    Bid(u8, Strain),
}

#[derive(Clone, Copy)]
pub enum Doubling {
    Undoubled,
    Doubled,
    Redoubled,
}

// "the contract, doubling included, and declarer"
#[derive(Clone, Copy)]
pub struct Contract {
    pub level: u8,
    pub strain: Strain,
    pub doubling: Doubling,
    pub declarer: Seat,
}

// What a list of calls is: "lawful and ended, lawful and open, or the index of the first unlawful call". An auction that has ended with a
// bid has a contract.
#[derive(Clone, Copy)]
pub enum Auction {
    PassedOut,
    Ended(Contract),
    Open,
    Unlawful(usize),
}

// From 0, clubs, to 4, no trump.
pub fn strain_number(t: Strain) -> u8
    ensures { result ≡ strain_number t }
{
    match t {
        Strain::Clubs => 0,
        Strain::Diamonds => 1,
        Strain::Hearts => 2,
        Strain::Spades => 3,
        Strain::NoTrump => 4,
    }
}

// 0 undoubled, 1 doubled, 2 redoubled.
pub fn doubling_number(d: Doubling) -> u8
    ensures { result ≡ doubling_number d }
{
    match d {
        Doubling::Undoubled => 0,
        Doubling::Doubled => 1,
        Doubling::Redoubled => 2,
    }
}

pub fn is_bid(c: AuctionCall) -> bool
    ensures { result ≡ is_bid c }
{
    match c {
        AuctionCall::Pass => false,
        AuctionCall::Double => false,
        AuctionCall::Redouble => false,
        AuctionCall::Bid(_, _) => true,
    }
}

pub fn is_double(c: AuctionCall) -> bool
    ensures { result ≡ is_double c }
{
    match c {
        AuctionCall::Pass => false,
        AuctionCall::Double => true,
        AuctionCall::Redouble => false,
        AuctionCall::Bid(_, _) => false,
    }
}

// What the latest call that is no pass makes of the contract.
pub fn doubling_of(c: AuctionCall) -> Doubling
    ensures { result ≡ doubling_of c }
{
    match c {
        AuctionCall::Pass => Doubling::Undoubled,
        AuctionCall::Double => Doubling::Doubled,
        AuctionCall::Redouble => Doubling::Redoubled,
        AuctionCall::Bid(_, _) => Doubling::Undoubled,
    }
}

// A bid's level; 0 of a call that is none.
pub fn level_of(c: AuctionCall) -> u8
    ensures { result ≡ level_of c }
{
    match c {
        AuctionCall::Pass => 0,
        AuctionCall::Double => 0,
        AuctionCall::Redouble => 0,
        AuctionCall::Bid(l, _) => l,
    }
}

// A bid's strain; clubs of a call that is none.
pub fn strain_of(c: AuctionCall) -> Strain
    ensures { result ≡ strain_of c }
{
    match c {
        AuctionCall::Pass => Strain::Clubs,
        AuctionCall::Double => Strain::Clubs,
        AuctionCall::Redouble => Strain::Clubs,
        AuctionCall::Bid(_, t) => t,
    }
}

// One less, and 0 for 0.
pub(crate) fn one_less(n: u8) -> u8
    ensures { result ≡ n - 1 }
{
    if n == 0 {
        return 0;
    }
    n - 1
}

// A bid's rank, from 1 of one club to 35 of seven no trump; 0 of a call that is none.
pub fn bid_rank(c: AuctionCall) -> u32
    ensures { result ≡ rank c }
{
    match c {
        AuctionCall::Pass => 0,
        AuctionCall::Double => 0,
        AuctionCall::Redouble => 0,
        AuctionCall::Bid(l, t) => (one_less(l) as u32) * 5 + (strain_number(t) as u32) + 1,
    }
}
