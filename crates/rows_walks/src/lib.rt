#![tactic(auto)]

// Walks over lent rows of call structs, beside the text that they name: what the checks find in them, and their calls put into an output.
// (01: Writer, mb and an; Eight refusals, 5 to 7)
mod puts;
mod scans;

pub use puts::put_rows;
pub use scans::scan_rows;

// What rows are looked at for, and what was found. Where `look` is set, their bytes: `blocks` words of an index of the text serve, and `ill` says whether 5
// or 6 met a text. Else their numbers: `past` says whether 5 met a text, `spans` how many bytes the texts have together, and `need` how many the calls are
// written with.
#[derive(Clone, Copy)]
pub struct Scan {
    pub look: bool,
    pub blocks: usize,
    pub past: bool,
    pub ill: bool,
    pub spans: u64,
    pub need: u64,
}
