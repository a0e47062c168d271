// The letters of suits and ranks, and the text of one card. (01: Records; Board, pc)
ghost use Rattle.std.specs.Prelude.{◌≡◌, ◌<◌};
ghost use Rattle.lin_spec.specs.Cards.{suit_of, rank_of, read_card};
ghost use Rattle.cards.specs.Letters.{table, suit_in, rank_in, CardIs};

// The numbers of the bytes below 128, one after the other: A for 0, up to R for 17. Whoever reads many letters copies it once and lends the copy.
pub const LETTERS: [u8; 128] =
    *b"RRRRRRRRRRRRRRRRRRRRRRRRRRRRRRRRRRRRRRRRRRRRRRRRRREFGHIJKLRRRRRRRQRDCRRRBRNPRRRRRORAMRRRRRRRRRRRRQRDCRRRBRNPRRRRRORAMRRRRRRRRRRR";

// The number of a letter, in either case, by the table: 0 to 3 for the suits S, H, D, C, 4 to 16 for the ranks 2 to 9, T, J, Q, K, A, and 17 for none.
pub(crate) fn letter_number(letters: &[u8; 128], c: u8) -> u8
    requires { letters.now ≡ table }
    ensures { (suit_of c ≡ suit_in result) × (rank_of c ≡ rank_in result) }
{
    if 0x7F < c {
        return 17;
    }
    letters[c as usize] - b'A'
}

// The suit that a letter stands for: S, H, D, C are 0 to 3.
pub fn suit_of(c: u8) -> Option<u8>
    ensures { result ≡ suit_of c }
{
    let letters = LETTERS;
    let n = letter_number(&letters, c);
    if n < 4 {
        return Some(n);
    }
    None
}

// The rank that a letter stands for: 2 to 9, T, J, Q, K, A are 0 to 12.
pub fn rank_of(c: u8) -> Option<u8>
    ensures { result ≡ rank_of c }
{
    let letters = LETTERS;
    let n = letter_number(&letters, c);
    if n < 4 {
        return None;
    }
    if n < 17 {
        return Some(n - 4);
    }
    None
}

// The card that a text gives: exactly a suit and a rank.
pub fn read_card(s: &[u8]) -> Option<u8>
    ensures { result ≡ read_card s.now }
{
    if s.len() != 2 {
        return None;
    }
    let Some(suit) = suit_of(s[0]) else {
        return None;
    };
    let Some(rank) = rank_of(s[1]) else {
        return None;
    };
    Some(suit * 13 + rank)
}

// The card of two bytes by the table of letters, a suit and a rank; an answer below 52 is their card, and 52 says nothing.
pub fn card_number(letters: &[u8; 128], a: u8, b: u8) -> u8
    requires { letters.now ≡ table }
    ensures { result < 52 → CardIs a b result }
{
    let u = letter_number(letters, a);
    let r = letter_number(letters, b);
    if (u < 4) & ((4 <= r) & (r < 17)) {
        return u * 13 + (r - 4);
    }
    52
}
