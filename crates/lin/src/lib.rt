#![tactic(auto)]

// The public surface: every entry of the library, with the types that it takes and gives, and nothing else.

// Spans and refusals. (01: Records, Eight refusals)
pub use lin_spec::{LIMIT, Refusal, RowKind, Span};

// Tokens. (01: Tokens)
pub use document::{Cursor, Part, Position, Step, Token, command, open, trailing, value};
pub use document_writer::write_document;

// Boards. (01: Records, Board)
pub use board::{parse_lin, parse_lin_heading};
pub use lin_spec::{Board, Deal, Heading, Seat, Vulnerability};

// Files. (01: File; names)
pub use file::{count_boards, file_board, file_heading};
pub use file_finder::find_name;
pub use file_reader::{BoardRead, ReadBoard, read_board};
pub use file_sections::{BoardCursor, BoardStep, Section, open_boards};

// The writer. (01: Writer; play text; equality)
pub use board_equality::same_board;
pub use writer::{append, write_lin};
pub use writer_cards::format_cardplay_by_trick;

// From PBN. (01: From PBN)
pub use lin_spec::{Converted, PbnBoard, PbnCall};
pub use pbn::from_board;
pub use pbn_annotation::annotation_text;

// The auction. (02: N1)
pub use auction::check_auction;
pub use bridge_auction::{Auction, Contract, Doubling, Strain};

// The lines of a listing. (01: Program linlist)
pub use listing::list_file;
pub use listing_lines::{board_line, header_line, refusal_line};

// Rows of call structs. (01: Language form, "The calls stand in a list of rows lent by the caller")
pub use rows::{CallRow, fill_rows, spill_rows};
pub use rows_access::{get_row, put_row, row_count};
pub use rows_reader::{file_board_rows, parse_lin_rows};
pub use rows_writer::{append_rows, write_lin_rows};
