// The machine's memory: words, of which the first are its registers. A place beyond the last word holds 0 and keeps nothing. (01: Records)
use std::num::wrapping_add_usize;

pub const WORDS: usize = 32_768;

// 1 until a comparison of the case fails.
pub const OK: usize = 0;

// Where the data of the step begin in the file, and where the next step does.
pub const START: usize = 1;

pub const NEXT: usize = 2;

// The places to come back to: how many, and the first.
pub const DEPTH: usize = 3;

pub const BACK: usize = 4;

// What is lent, by a start and a length each: the texts and the cards are bytes of the space, the rows words of the memory.
pub const TEXT: usize = 16;

pub const TEXT2: usize = 18;

pub const CARDS: usize = 20;

pub const CARDS2: usize = 22;

pub const ROWS: usize = 24;

pub const ROWS2: usize = 26;

// How many words of rows, places for cards and bytes of the output are lent to be filled, and how many words of work space.
pub const LENT_WORDS: usize = 28;

pub const LENT_CARDS: usize = 29;

pub const ROOM: usize = 30;

pub const LENT_WORK: usize = 31;

// The numbers of a call, two words each: a place, a board's number or the used bytes; the number of a board cursor. Then its lines, and a span.
pub const NUMBER: usize = 32;

pub const SECOND: usize = 34;

pub const LINES: usize = 36;

pub const SPAN: usize = 38;

// The answer: the low words of its eight numbers, then the high words; and its board.
pub const ANSWER: usize = 64;

pub const BOARD: usize = 80;

// The boards and the record that are lent.
pub const LENT_BOARD: usize = 320;

pub const LENT_BOARD2: usize = 576;

pub const RECORD: usize = 832;

// The step of the call that steps and reads: as an answer, the low words of eight numbers, and their high words.
pub const STEP: usize = 1_072;

// The notes that are lent.
pub const NOTES: usize = 2_048;

// The rows and cards that a call filled.
pub const FILLED_ROWS: usize = 4_096;

pub const FILLED_CARDS: usize = 7_296;

// The work space after a call that was lent some of it.
pub const WORK: usize = 24_576;

// The cases of each group and whether one differs, two words for a group.
pub const GROUPS: usize = 32_000;

pub fn plus(a: usize, b: usize) -> usize {
    wrapping_add_usize(a, b)
}

pub fn get(m: &[u32; WORDS], at: usize) -> u32 {
    if at < WORDS {
        return m[at];
    }
    0
}

pub fn set(m: &mut [u32; WORDS], at: usize, word: u32) {
    if at < WORDS {
        m[at] = word;
    }
}

// A word as a place or a length.
pub fn place(m: &[u32; WORDS], at: usize) -> usize {
    get(m, at) as usize
}

// A number of two words, the low one first.
pub fn long(m: &[u32; WORDS], at: usize) -> u64 {
    let low = get(m, at) as u64;
    let high = get(m, plus(at, 1)) as u64;
    low + 4_294_967_296 * high
}

pub fn low(n: u64) -> u32 {
    (n % 4_294_967_296) as u32
}

pub fn high(n: u64) -> u32 {
    (n / 4_294_967_296) as u32
}

// A place or a length as a word, of which no file has more.
pub fn word(n: usize) -> u32 {
    low(n as u64)
}
