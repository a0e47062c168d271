#![tactic(auto)]

// Runs linlist's body on stored files, and replays the oracle's listings through the same entry. (01: Program linlist)
use linlist_input::list_input;
use listing::list_file;
use std::rt::Files;
use std::{fs, io};
use test_vectors::{Field, Score, field_is, load, say, vector_at};
use text::part;

// The bytes that the file of listings may have.
const SPACE: usize = 1_048_576;

// The bytes that one listing may have.
const ROOM: usize = 16_384;

// Prints a run's name and the listing of its file.
fn list_run(rt: &(impl Files + Print), name: &str, file: &str) -> io::Result<()> {
    rt.println(name)?;
    let mut input = fs::open(rt, file)?;
    list_input(&mut input, &mut io::writer(rt))
}

// The stored runs.
fn runs(rt: &(impl Files + Print)) -> io::Result<()> {
    list_run(rt, "many", "many.lin")?;
    list_run(rt, "lines", "lines.lin")?;
    list_run(rt, "empty", "empty.lin")?;
    list_run(rt, "ill", "ill.lin")?;
    list_run(rt, "full", "full.lin")?;
    list_run(rt, "over", "over.lin")?;
    list_run(rt, "over_ill", "over_ill.lin")?;
    list_run(rt, "marked", "marked.lin")
}

// Whether the input at the first field has the listing in the second.
fn agrees(file: &[u8], input: Field, printed: Field) -> bool {
    let mut out = [0u8; ROOM];
    match list_file(part(file, input.start, input.len), &mut out) {
        Ok(n) => field_is(file, printed, part(&out, 0, n)),
        Err(_) => false,
    }
}

// Compares the cases of the file.
fn replay_listings(file: &[u8]) -> Score {
    let mut score = test_vectors::fresh();
    let mut at = 0;
    while at < file.len() {
        let input = vector_at(file, at);
        let printed = vector_at(file, input.next);
        let next = printed.next;
        if next <= at {
            return test_vectors::after_case(score, false);
        }
        if file.len() < next {
            return test_vectors::after_case(score, false);
        }
        score = test_vectors::after_case(score, agrees(file, input, printed));
        at = next;
    }
    score
}

// Loads the file and compares it.
fn compare(rt: &(impl Files + Print), space: &mut [u8; SPACE]) -> io::Result<()> {
    let n = load(rt, "listing.bin", space)?;
    say(rt, b"listings", replay_listings(part(space, 0, n)))
}

fn main(rt: HostRuntime) -> io::Result<()> {
    runs(&rt)?;
    let mut space = [0u8; SPACE];
    compare(&rt, &mut space)
}
