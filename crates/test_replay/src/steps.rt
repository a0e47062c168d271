// The steps of a file, one after another. A step is a byte for what it does, a place of the memory in two bytes, the number of its data's bytes in one, or
// 255 and then the number in two, and the data; numbers of more than a byte are little-endian. (oracle/README.md has what each step does.)
use crate::calls::called;
use std::io;
use test_memory::{
    BACK, BYTES, DEPTH, GROUPS, NEXT, OK, START, WORDS, agree, all_moved, copy, count_all, fill,
    get, half, is_text2, item, place, plus, put, set, shows, stayed, store_bytes, word, words_are,
    wrote,
};
use test_vectors::Score;
use text::part;

// More steps than any file takes.
const STEPS: usize = 100_000_000;

// Goes to the steps at the place that a word holds, and comes back here.
fn go(m: &mut [u32; WORDS], at: usize) {
    let depth = place(m, DEPTH);
    let next = get(m, NEXT);
    let to = get(m, at);
    set(m, plus(BACK, depth), next);
    set(m, DEPTH, word(plus(depth, 1)));
    set(m, NEXT, to);
}

// Goes back.
fn back(m: &mut [u32; WORDS]) {
    let depth = get(m, DEPTH).wrapping_sub(1);
    let next = get(m, plus(BACK, depth as usize));
    set(m, DEPTH, depth);
    set(m, NEXT, next);
}

// Goes on with the steps at the place that a word holds, if another word is this one.
fn jump_if(m: &mut [u32; WORDS], at: usize, other: usize, value: u32) {
    if get(m, other) == value {
        let to = get(m, at);
        set(m, NEXT, to);
    }
}

// Counts a case of a group if all of it agreed. From the first that differs on the group's count stays.
fn case(m: &mut [u32; WORDS], group: usize) {
    let at = plus(GROUPS, plus(group, group));
    let failed = plus(at, 1);
    let n = get(m, at);
    if (get(m, OK) == 1) & (get(m, failed) == 0) {
        set(m, at, n.wrapping_add(1));
    } else {
        set(m, failed, 1);
    }
    set(m, OK, 1);
}

// Prints the line of a group, and begins it anew.
fn say_group(rt: &impl Print, m: &mut [u32; WORDS], group: usize, name: &[u8]) -> io::Result<()> {
    let at = plus(GROUPS, plus(group, group));
    let cases = get(m, at) as u64;
    let ok = get(m, plus(at, 1)) == 0;
    test_vectors::say(rt, name, Score { cases, ok })?;
    set(m, at, 0);
    set(m, plus(at, 1), 0);
    Ok(())
}

// Stores the sum or the difference of a word and another.
fn sum(m: &mut [u32; WORDS], at: usize, other: usize, less: bool) {
    let a = get(m, at);
    let b = get(m, other);
    let c = if less {
        a.wrapping_sub(b)
    } else {
        a.wrapping_add(b)
    };
    set(m, at, c);
}

// Puts the data into bytes, and their number after the place.
fn lend(m: &mut [u32; WORDS], at: usize, data: &[u8], bytes: &mut [u8; BYTES]) {
    store_bytes(bytes, place(m, at), data);
    set(m, plus(at, 1), word(data.len()));
}

// The steps that store.
fn store_step(op: u8, at: usize, data: &[u8], m: &mut [u32; WORDS], bytes: &mut [u8; BYTES]) {
    let from = half(data, 0);
    let count = half(data, 2);
    let stride = half(data, 4);
    match op {
        0 => put(m, at, data, 1),
        1 => put(m, at, data, 4),
        2 => copy(m, at, from, count, stride),
        3 => count_all(m, at, data),
        4 => sum(m, at, from, false),
        5 => sum(m, at, from, true),
        6 => lend(m, at, data, bytes),
        7 => store_bytes(bytes, place(m, at), data),
        _ => fill(m, at, data, bytes),
    }
}

// The steps that go elsewhere, count and print.
fn turn(rt: &impl Print, op: u8, at: usize, data: &[u8], m: &mut [u32; WORDS]) -> io::Result<()> {
    match op {
        16 => copy(m, at, START, 1, 1),
        17 => go(m, at),
        18 => back(m),
        19 => case(m, at),
        21 => jump_if(m, at, half(data, 0), item(data, 2, 1)),
        _ => say_group(rt, m, at, data)?,
    }
    Ok(())
}

// The steps that compare.
fn compare_step(op: u8, at: usize, data: &[u8], m: &[u32; WORDS], bytes: &[u8; BYTES]) -> bool {
    let from = half(data, 0);
    let count = place(m, half(data, 2));
    let stride = half(data, 4);
    let by = place(m, half(data, 6));
    match op {
        32 => words_are(m, at, data, 1),
        33 => words_are(m, at, data, 4),
        34 => agree(m, plus(at, by), from, count, stride),
        35 => all_moved(m, at, from, count, stride, by),
        36 => shows(m, at, data, bytes),
        37 => wrote(m, at, data, bytes),
        _ => stayed(m, at, data, bytes),
    }
}

fn expect(m: &mut [u32; WORDS], agrees: bool) {
    if !agrees {
        set(m, OK, 0);
    }
}

// Does one step. Those from 64 on are of the output.
fn do_step(
    rt: &impl Print,
    op: u8,
    at: usize,
    data: &[u8],
    m: &mut [u32; WORDS],
    bytes: &mut [u8; BYTES],
    out: &mut [u8; BYTES],
) -> io::Result<()> {
    match op {
        0..=15 => store_step(op, at, data, m, bytes),
        16..=31 => turn(rt, op, at, data, m)?,
        32..=47 => {
            let agrees = compare_step(op, at, data, m, bytes);
            expect(m, agrees);
        }
        48 => called(at, m, bytes, out),
        49..=63 => {
            let agrees = is_text2(m, at, bytes, out);
            expect(m, agrees);
        }
        64..=79 => store_step(op - 64, at, data, m, out),
        _ => {
            let agrees = compare_step(op - 64, at, data, m, out);
            expect(m, agrees);
        }
    }
    Ok(())
}

// Does the step at a place of the file. The memory then says where the next one is.
fn one(
    rt: &impl Print,
    file: &[u8],
    at: usize,
    m: &mut [u32; WORDS],
    bytes: &mut [u8; BYTES],
    out: &mut [u8; BYTES],
) -> io::Result<()> {
    let op = (item(file, at, 1) % 256) as u8;
    let to = half(file, plus(at, 1));
    let short = item(file, plus(at, 3), 1) as usize;
    let long = short == 255;
    let len = if long { half(file, plus(at, 4)) } else { short };
    let start = if long { plus(at, 6) } else { plus(at, 4) };
    set(m, START, word(start));
    set(m, NEXT, word(plus(start, len)));
    do_step(rt, op, to, part(file, start, len), m, bytes, out)
}

// Does the steps of a file.
pub fn run_steps(
    rt: &impl Print,
    file: &[u8],
    m: &mut [u32; WORDS],
    bytes: &mut [u8; BYTES],
    out: &mut [u8; BYTES],
) -> io::Result<()> {
    set(m, OK, 1);
    set(m, NEXT, 0);
    set(m, DEPTH, 0);
    for _ in 0..STEPS {
        let at = place(m, NEXT);
        if file.len() <= at {
            return Ok(());
        }
        one(rt, file, at, m, bytes, out)?;
    }
    Ok(())
}
