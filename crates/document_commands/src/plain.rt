// Tokens as nearly all are: a command of two bytes, perhaps after an LF, and a short value. (01: Tokens)
ghost use Rattle.std.specs.Prelude.{◌≡◌, true, ◌<◌};
ghost use Rattle.cards.specs.Letters.{table};
ghost use Rattle.document_commands.specs.Plain.{Skips, PairAt, CardAt, PageAt, OtherLetter, UnmarkedAt};

use cards::card_number;

// The place after an LF, if one is there: the same token stands from it on.
pub(crate) fn after_line(text: &[u8], at: usize) -> usize
    ensures { Skips text.now at result }
{
    if text.len() <= at {
        return at;
    }
    if text[at] == b'\n' {
        return at + 1;
    }
    at
}

// Tests for a command of two bytes: where it says true, the first pipe is the third byte.
pub(crate) fn is_pair(text: &[u8], at: usize) -> bool
    ensures { result ≡ true → PairAt text.now at }
{
    if text.len() < 3 {
        return false;
    }
    if text.len() - 3 < at {
        return false;
    }
    (text[at] != b'|') & ((text[at + 1] != b'|') & (text[at + 2] == b'|'))
}

// The card, by the table of letters, of a pc that is six bytes: the command, a suit, a rank and the pipes. An answer below 52 is the card of such a
// token; 52 says nothing.
pub(crate) fn plain_card(letters: &[u8; 128], text: &[u8], at: usize) -> u8
    requires { letters.now ≡ table }
    ensures { result < 52 → CardAt text.now at result }
{
    if text.len() < 6 {
        return 52;
    }
    if text.len() - 6 < at {
        return 52;
    }
    if (text[at] == b'p')
        & ((text[at + 1] == b'c') & ((text[at + 2] == b'|') & (text[at + 5] == b'|')))
    {
        return card_number(letters, text[at + 3], text[at + 4]);
    }
    52
}

// Tests for a `pg||`, which says nothing of a board: where it says true, such a token stands there.
pub(crate) fn is_page(text: &[u8], at: usize) -> bool
    ensures { result ≡ true → PageAt text.now at }
{
    if text.len() < 4 {
        return false;
    }
    if text.len() - 4 < at {
        return false;
    }
    (text[at] == b'p')
        & ((text[at + 1] == b'g') & ((text[at + 2] == b'|') & (text[at + 3] == b'|')))
}

// Tests that a byte is neither a pipe nor the second letter of qx, md, mn or pn: where it says true, it is none.
fn other_letter(b: u8) -> bool
    ensures { result ≡ true → OtherLetter b }
{
    match b {
        b'x' | b'X' => false,
        b'd' | b'D' => false,
        b'n' | b'N' => false,
        b'|' => false,
        _ => true,
    }
}

// Tests for a command of two bytes that is none of qx, md, mn and pn, as `is_pair` does for any.
pub(crate) fn is_unmarked(text: &[u8], at: usize) -> bool
    ensures { result ≡ true → UnmarkedAt text.now at }
{
    if text.len() < 3 {
        return false;
    }
    if text.len() - 3 < at {
        return false;
    }
    if (text[at] == b'|') | (text[at + 2] != b'|') {
        return false;
    }
    other_letter(text[at + 1])
}
