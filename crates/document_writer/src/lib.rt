#![tactic(auto)]

// A document written from spans: its rows and its trailing text. (01: Tokens, `to_lin`; upstream's document.rs)
mod documents;

pub use documents::write_document;
