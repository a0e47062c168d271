#![tactic(auto)]

// A board that is lent to a call: the board without its deal, the calls of its rows, and the checks that it is put to. (01: Records; Eight refusals)
mod calls;
mod checks;
mod heads;

pub use calls::call_of;
pub use checks::{
    Bounds, bad_cards, bad_flag, bounds_of, call_bytes, call_meets, call_past, check_board,
    head_meets, head_past, ill_texts, one_by_one, spans_pass,
};
pub use heads::{Head, head_of};
