#![tactic(auto)]

// Replays the stored vectors: the oracle's answers, Python's about names with accents, and the cases by hand from documents 01 and 02. The steps of a file
// lend texts, rows, boards and work space, call the functions of `lin_host`, and compare the answers and all that was lent; each group of cases prints a line.
// (01: "Entries on numbers and byte slices are exported .."; Eight refusals, "All lent memory stays"; 02: N3)
mod answers;
mod boards;
mod calls;
mod steps;

use crate::steps::run_steps;
use std::io;
use std::rt::Files;
use test_memory::{BYTES, WORDS};
use test_vectors::load;
use text::part;

// The bytes that a file may have.
const FILE: usize = 1_310_720;

// Loads a file, and does its steps.
fn load_and_run(
    rt: &(impl Files + Print),
    name: &str,
    file: &mut [u8; FILE],
    m: &mut [u32; WORDS],
    bytes: &mut [u8; BYTES],
    out: &mut [u8; BYTES],
) -> io::Result<()> {
    let n = load(rt, name, file)?;
    run_steps(rt, part(file, 0, n), m, bytes, out)
}

// The same with a memory of its own.
fn replay_steps(rt: &(impl Files + Print), name: &str) -> io::Result<()> {
    let mut file = [0u8; FILE];
    let mut m = [0u32; WORDS];
    let mut bytes = [0u8; BYTES];
    let mut out = [0u8; BYTES];
    load_and_run(rt, name, &mut file, &mut m, &mut bytes, &mut out)
}

fn main(rt: HostRuntime) -> io::Result<()> {
    replay_steps(&rt, "tokens.bin")?;
    replay_steps(&rt, "utf8.bin")?;
    replay_steps(&rt, "boards.bin")?;
    replay_steps(&rt, "files.bin")?;
    replay_steps(&rt, "writer.bin")?;
    replay_steps(&rt, "equality.bin")?;
    replay_steps(&rt, "appends.bin")?;
    replay_steps(&rt, "annotation.bin")?;
    replay_steps(&rt, "pbn.bin")?;
    replay_steps(&rt, "accents.bin")?;
    replay_steps(&rt, "by_hand.bin")
}
