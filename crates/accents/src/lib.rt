#![tactic(auto)]

// Accents: characters mapped and marks ordered, by which two names are the same. (02: N3)
mod chars;
mod full;
mod lookup;
mod marks;
mod table;

pub use chars::{Char, char_at};
pub use full::{Full, full_of, mapped_len};
pub use lookup::mappings;
pub use marks::same_order;
