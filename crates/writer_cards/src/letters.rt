// The letters of suits, ranks and cards. (01: Records)
ghost use Rattle.std.specs.Prelude.{◌≡◌, ◌<◌, get_or};
ghost use Rattle.lin_spec.specs.Base.{ascii};
ghost use Rattle.lin_spec.specs.Writer.{card_letters};
ghost use Rattle.output.specs.Put.{Room, Put};

use output::put;

const SUITS: [u8; 4] = *b"SHDC";

const RANKS: [u8; 13] = *b"23456789TJQKA";

// The letter of a suit.
pub fn suit_letter(suit: usize) -> u8
    requires { suit < 4 }
    ensures { result ≡ get_or (ascii "SHDC") suit 0 }
{
    SUITS[suit]
}

// The letter of a rank.
pub fn rank_letter(rank: usize) -> u8
    requires { rank < 13 }
    ensures { result ≡ get_or (ascii "23456789TJQKA") rank 0 }
{
    RANKS[rank]
}

// Puts the letters of a card.
pub(crate) fn put_card_letters(out: &mut [u8], at: usize, card: u8) -> usize
    requires { Room out.old at (card_letters card) × (card < 52) }
    ensures { Put out.old at (card_letters card) out.new result }
{
    let a = put(out, at, suit_letter((card / 13) as usize));
    put(out, a, rank_letter((card % 13) as usize))
}
