#![tactic(auto)]

// The name finder: how many boards of a file have a name at any seat, by canonical equivalence, in lent work space. (01: names; 02: N3)
mod finder;
mod measure;

pub use finder::find_name;
