#![tactic(auto)]

// The parts of a raw PBN annotation, and the word of each. (01: From PBN, "Annotation parts ..")
mod parts;
mod words;

pub use parts::part_len;
pub use words::{Word, part_word, put_spaced_word, word_len};
