// The boards and the record that are lent, taken from the memory. (01: Records; From PBN, "Input ..")
use lin_host::{LinBoard, LinPbn, LinText};
use test_memory::{RECORD, WORDS, get, plus, take};

fn text_words(m: &[u32; WORDS], at: usize) -> LinText {
    LinText {
        present: get(m, at),
        start: get(m, plus(at, 1)),
        len: get(m, plus(at, 2)),
    }
}

fn names_words(m: &[u32; WORDS], at: usize) -> [u32; 8] {
    let mut names = [0u32; 8];
    take(&mut names, m, at);
    names
}

fn counts_at(m: &[u32; WORDS], at: usize) -> [u32; 208] {
    let mut counts = [0u32; 208];
    take(&mut counts, m, at);
    counts
}

// The board whose words begin at a place: the four names, dealer, vulnerability, title, room and board, header, claim, counts.
pub fn board_words(m: &[u32; WORDS], at: usize) -> LinBoard {
    let names = names_words(m, at);
    let counts = counts_at(m, plus(at, 21));
    LinBoard {
        names,
        dealer: get(m, plus(at, 8)),
        vulnerability: get(m, plus(at, 9)),
        title: text_words(m, plus(at, 10)),
        room_board: text_words(m, plus(at, 13)),
        board_header: text_words(m, plus(at, 16)),
        claimed: get(m, plus(at, 19)),
        claim: get(m, plus(at, 20)),
        counts,
    }
}

// The number whose two's complement a word is.
fn signed(n: u32) -> i32 {
    if n < 2_147_483_648 {
        return n as i32;
    }
    !((4_294_967_295 - n) as i32)
}

// The record: seven texts, number, dealer, vulnerability, result, counts.
pub fn record_at(m: &[u32; WORDS]) -> LinPbn {
    let counts = counts_at(m, RECORD + 28);
    LinPbn {
        south: text_words(m, RECORD),
        west: text_words(m, RECORD + 3),
        north: text_words(m, RECORD + 6),
        east: text_words(m, RECORD + 9),
        event: text_words(m, RECORD + 12),
        date: text_words(m, RECORD + 15),
        id: text_words(m, RECORD + 18),
        number_given: get(m, RECORD + 21),
        number: get(m, RECORD + 22),
        dealer_given: get(m, RECORD + 23),
        dealer: get(m, RECORD + 24),
        vulnerability: get(m, RECORD + 25),
        result_given: get(m, RECORD + 26),
        result: signed(get(m, RECORD + 27)),
        counts,
    }
}
