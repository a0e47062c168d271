#![tactic(auto)]

// Texts cleaned into a lent output: a text, a text that may be absent, the four names, a call and all calls. (01: Writer, clean)
mod calls;
mod names;
mod texts;

pub use calls::{call_len, calls_len, put_call, put_calls};
pub use names::{name_len, names_len, put_name, put_names};
pub use texts::{Marks, PLAIN, clean_part, header_len, put_ah, put_text, text_len};
