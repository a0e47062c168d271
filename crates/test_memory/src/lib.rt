#![tactic(auto)]

// The memory of the replay program, and the steps that store into it and compare with it. Nothing of the library is in it. (oracle/README.md)
mod expects;
mod lent_parts;
mod memory;
mod stores;

pub use expects::{agree, all_moved, is_text2, shows, stayed, words_are, wrote};
pub use lent_parts::{CALLS, MARK, PLACES, READ, SPACE, WORD, front, front_words};
pub use memory::{
    ANSWER, BACK, BOARD, CARDS, CARDS2, DEPTH, FILLED_CARDS, FILLED_ROWS, GROUPS, LENT_BOARD,
    LENT_BOARD2, LENT_CARDS, LENT_WORDS, LENT_WORK, LINES, NEXT, NOTES, NUMBER, OK, RECORD, ROOM,
    ROWS, ROWS2, SECOND, SPAN, START, STEP, TEXT, TEXT2, WORDS, WORK, get, high, long, low, place,
    plus, set, word,
};
pub use stores::{BYTES, copy, count_all, fill, half, item, put, put_all, store_bytes, take};
