#![tactic(auto)]

// Lent slices of call structs: the rows of a board's calls, one struct each. (01: Language form, "The calls stand in a list of rows lent by
// the caller")
mod answers;
mod words;

use lin_spec::Span;
pub use words::{fill_rows, row_numbers, row_of, spill_rows};

// A call: "bid span, alerted or not, annotation span or absent".
#[derive(Clone, Copy)]
pub struct CallRow {
    pub bid: Span,
    pub alerted: bool,
    pub annotation: Option<Span>,
}
