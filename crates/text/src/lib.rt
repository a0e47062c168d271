#![tactic(auto)]

// Texts of bytes: UTF-8, parts and spans, the next place of a byte, whether two texts have the same bytes; indexes of the places that are ill-formed
// and of those where two texts differ. (01: Records, Tokens; refusals 5 and 6; equality; names)
mod apart;
mod index;
mod parts;
mod sixteens;
mod utf8;

pub use apart::{index_apart, same_at};
pub use index::{Fault, faulty, index_text, near_ill, span_ill};
pub use parts::{find_byte, lesser, part, past_end, shown};
pub use sixteens::{next_apart, same_bytes};
pub use utf8::{well_formed_len, width};
