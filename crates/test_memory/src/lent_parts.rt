// What is lent to be filled or worked in, marked before: the first words, places or bytes, as many as are asked for. (01: "All lent memory stays"; 02: N3)

// What a word of a row or of work space, and a place for a card, hold before.
pub const WORD: u32 = 0xA5A5_A5A5;

pub const MARK: u8 = 0xA5;

// The words of rows and the places for cards to be filled, more than any board of a file needs.
pub const CALLS: usize = 3_200;

pub const PLACES: usize = 600;

// The words of work space, more than any name of a file needs with any other.
pub const SPACE: usize = 4_096;

// The words of rows to be read, more than any document of a file needs.
pub const READ: usize = 8_192;

// The first bytes.
pub fn front(s: &mut [u8], n: usize) -> &mut [u8] {
    if s.len() <= n {
        return s;
    }
    &mut s[..n]
}

// The first words.
pub fn front_words(s: &mut [u32], n: usize) -> &mut [u32] {
    if s.len() <= n {
        return s;
    }
    &mut s[..n]
}
