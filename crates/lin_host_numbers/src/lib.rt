#![tactic(auto)]

// What the exports take and give, as plain numbers: answers, headings, boards, auctions and PBN records, and whether a code is outside its range. (01: Eight
// refusals; Records; From PBN; 02: N1)
mod answers;
mod auctions;
mod boards;
mod codes;
mod records;

pub use answers::{LinAnswer, answer_numbers};
pub use auctions::{LinAuction, auction_numbers};
pub use boards::{LinBoard, LinHeading, LinText, board_numbers, heading_numbers};
pub use codes::{bad_codes, coded_head};
pub use records::{LinPbn, bad_record_codes, record_of};
