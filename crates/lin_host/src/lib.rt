#![tactic(auto)]

// The entries on numbers and byte slices, which lin_host_c exports as C functions. (01: "Entries on numbers and byte slices are exported ..")
mod annotations;
mod auctions;
mod boards;
mod converting;
mod files;
mod tokens;
mod writing;

pub use annotations::{LinAnnotation, lin_annotation_text};
pub use auctions::lin_check_auction;
pub use boards::{lin_parse_heading, lin_parse_lin};
pub use converting::{LinConverted, lin_from_board};
pub use files::{
    LinBoards, LinRead, LinSection, lin_count_boards, lin_file_board, lin_file_heading,
    lin_find_name, lin_next_board, lin_open_boards, lin_read_board,
};
pub use lin_host_numbers::{LinAnswer, LinAuction, LinBoard, LinHeading, LinPbn, LinText};
pub use tokens::{LinPart, LinStep, lin_next, lin_open, lin_trailing, lin_write_document};
pub use writing::{lin_append, lin_play_text, lin_same_board, lin_write_lin};
