// Steps that compare: words with the data of a step or with other words, a text that the answer names, and bytes of the output.
use crate::memory::{TEXT, TEXT2, WORDS, get, place, plus};
use crate::stores::{BYTES, item};
use test_vectors::all_are;
use text::part;

// Whether each number of the data is the word in its place.
pub fn words_are(m: &[u32; WORDS], at: usize, data: &[u8], size: usize) -> bool {
    data.chunks(size.max(1)).enumerate().all(|(i, number)| (number.len() == size)
        & (get(m, plus(at, i)) == item(number, 0, size)))
}

// Whether so many words are those from another place on or, with a stride of 0, the one there.
pub fn agree(m: &[u32; WORDS], at: usize, from: usize, count: usize, stride: usize) -> bool {
    let mut f = from;
    for i in 0..count {
        if get(m, plus(at, i)) != get(m, f) {
            return false;
        }
        f = plus(f, stride);
    }
    true
}

// Whether a span is that of another place moved by a number of bytes; what was never set is at 0, 0 in both.
fn moved(m: &[u32; WORDS], own: usize, whole: usize, by: usize) -> bool {
    let start = place(m, own);
    let len = place(m, plus(own, 1));
    let same_len = place(m, plus(whole, 1)) == len;
    if (start == 0) & (len == 0) {
        return same_len & (place(m, whole) == 0);
    }
    same_len & (place(m, whole) == plus(start, by))
}

// The same of so many spans, which are a stride apart.
pub fn all_moved(
    m: &[u32; WORDS],
    own: usize,
    whole: usize,
    count: usize,
    stride: usize,
    by: usize,
) -> bool {
    let mut o = own;
    let mut w = whole;
    for _ in 0..count {
        if !moved(m, o, w, by) {
            return false;
        }
        o = plus(o, stride);
        w = plus(w, stride);
    }
    true
}

// Whether the span at a place lies within the text, and has these bytes.
fn spanned(text: &[u8], start: usize, len: usize, data: &[u8]) -> bool {
    if text.len() < start {
        return false;
    }
    if text.len() - start < len {
        return false;
    }
    part(text, start, len) == data
}

// The same of the span that two words are, of the lent text.
pub fn shows(m: &[u32; WORDS], at: usize, data: &[u8], bytes: &[u8; BYTES]) -> bool {
    let text = part(bytes, place(m, TEXT), place(m, TEXT + 1));
    spanned(text, place(m, at), place(m, plus(at, 1)), data)
}

// Whether the bytes where the word at a place says are these.
pub fn wrote(m: &[u32; WORDS], at: usize, data: &[u8], bytes: &[u8; BYTES]) -> bool {
    part(bytes, place(m, at), data.len()) == data
}

// Whether the bytes that a start and a length in the memory say are all this one.
pub fn stayed(m: &[u32; WORDS], at: usize, data: &[u8], bytes: &[u8; BYTES]) -> bool {
    let b = if 0 < data.len() { data[0] } else { 0 };
    all_are(part(bytes, place(m, at), place(m, plus(at, 1))), 0, b)
}

// Whether the output's bytes that a start and a length in the memory say are the second text.
pub fn is_text2(m: &[u32; WORDS], at: usize, bytes: &[u8; BYTES], out: &[u8; BYTES]) -> bool {
    let text = part(bytes, place(m, TEXT2), place(m, TEXT2 + 1));
    part(out, place(m, at), place(m, plus(at, 1))) == text
}
