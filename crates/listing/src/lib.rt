#![tactic(auto)]

// All that the program linlist prints for an input. (01: Program linlist)
mod files;

pub use files::{LIST_LIMIT, LIST_ROOM, list_file, list_whole};
