#![tactic(auto)]

// Names compared in lent work space: the characters of each are mapped into it, and their marks compared without ordering them. (02: N3)
mod names;
mod work;

pub use names::{Sought, lay_sought, same_name, sought_of};
