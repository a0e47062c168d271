#![tactic(auto)]

// Suits, ranks, cards and deals, as their letters give them. (01: Records; Board, md and pc)
mod deals;
mod hands;
mod letters;

pub use deals::count_deal;
pub use hands::{seat_len, seat_sum};
pub use letters::{LETTERS, card_number, rank_of, read_card, suit_of};
