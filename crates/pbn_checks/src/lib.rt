#![tactic(auto)]

// The checks of a PBN record, 1, 8, 5 and 6, and its calls and names as they are lent. (01: From PBN; Eight refusals)
mod checks;
mod records;

pub use checks::check_record;
pub use records::{pbn_call_of, pbn_names};
