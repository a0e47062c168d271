#![tactic(auto)]

// A raw PBN annotation as text: its words joined, the notes checked, and the entry. (01: From PBN, "Words join with a space ..")
mod entry;
mod notes;
mod texts;

pub use entry::annotation_text;
pub use notes::{any_note_faulty, notes_pass};
pub use texts::{annotation_len, put_annotation};
