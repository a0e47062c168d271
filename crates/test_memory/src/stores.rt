// Steps that store: words from the data of a step, from other words or from an answer, counts of cards, and bytes of a text or an output.
use crate::memory::{WORDS, get, place, plus, set};
use test_vectors::number_at;

// The bytes of a text, and as many of an output.
pub const BYTES: usize = 1_114_112;

fn byte_word(b: u8) -> u32 {
    b as u32
}

// The number at a place of the data, of so many bytes: one, or four.
pub fn item(data: &[u8], at: usize, size: usize) -> u32 {
    if size == 4 {
        return number_at(data, at) as u32;
    }
    if at < data.len() {
        return byte_word(data[at]);
    }
    0
}

// A place in the first two bytes of the data, or in two others.
pub fn half(data: &[u8], at: usize) -> usize {
    let first = item(data, at, 1) as usize;
    let second = item(data, plus(at, 1), 1) as usize;
    first + 256 * second
}

// Puts each number of the data into a word.
pub fn put(m: &mut [u32; WORDS], at: usize, data: &[u8], size: usize) {
    for (i, number) in data.chunks(size.max(1)).enumerate() {
        set(m, plus(at, i), item(number, 0, size));
    }
}

// Puts these words.
pub fn put_all(m: &mut [u32; WORDS], at: usize, words: &[u32]) {
    for (i, &word) in words.iter().enumerate() {
        set(m, plus(at, i), word);
    }
}

// Takes words from a place on.
pub fn take(to: &mut [u32], m: &[u32; WORDS], at: usize) {
    for (i, word) in to.iter_mut().enumerate() {
        *word = get(m, plus(at, i));
    }
}

// Copies so many words, from one place on or, with a stride of 0, all from one place.
pub fn copy(m: &mut [u32; WORDS], to: usize, from: usize, count: usize, stride: usize) {
    let mut f = from;
    for i in 0..count {
        let w = get(m, f);
        set(m, plus(to, i), w);
        f = plus(f, stride);
    }
}

// Counts each card of the data.
pub fn count_all(m: &mut [u32; WORDS], at: usize, data: &[u8]) {
    for &b in data {
        let card = plus(at, b as usize);
        let n = get(m, card);
        set(m, card, n.wrapping_add(1));
    }
}

fn set_byte(to: &mut [u8; BYTES], at: usize, b: u8) {
    if at < BYTES {
        to[at] = b;
    }
}

// Puts the data into bytes.
pub fn store_bytes(to: &mut [u8; BYTES], at: usize, data: &[u8]) {
    for (i, &b) in data.iter().enumerate() {
        set_byte(to, plus(at, i), b);
    }
}

// Puts one byte so many times.
fn fill_bytes(to: &mut [u8; BYTES], at: usize, count: usize, b: u8) {
    for i in 0..count {
        set_byte(to, plus(at, i), b);
    }
}

// Fills what a start and a length in the memory say.
pub fn fill(m: &[u32; WORDS], at: usize, data: &[u8], to: &mut [u8; BYTES]) {
    let b = if 0 < data.len() { data[0] } else { 0 };
    fill_bytes(to, place(m, at), place(m, plus(at, 1)), b);
}
