// The answers of these functions, laid into the memory: eight numbers, and a board where there is one. (01: Eight refusals, "With it"; Records; 02: N1)
use lin_host::{
    LinAnswer, LinAuction, LinBoard, LinBoards, LinHeading, LinPart, LinRead, LinSection, LinStep,
};
use test_memory::{ANSWER, BOARD, STEP, WORDS, high, low, plus, put_all, set};

// Lays eight numbers from a place on: their low words, then their high words.
fn lay_at(m: &mut [u32; WORDS], at: usize, numbers: [u64; 8]) {
    let above = plus(at, 8);
    for (i, &n) in numbers.iter().enumerate() {
        set(m, plus(at, i), low(n));
        set(m, plus(above, i), high(n));
    }
}

// Lays the eight numbers of an answer.
fn lay(m: &mut [u32; WORDS], numbers: [u64; 8]) {
    lay_at(m, ANSWER, numbers);
}

// Lays an answer, and three numbers after it.
pub fn lay_with(m: &mut [u32; WORDS], a: LinAnswer, d: u64, e: u64, f: u64) {
    lay(m, [a.refusal as u64, a.kind as u64, a.value, d, e, f, 0, 0]);
}

pub fn lay_answer(m: &mut [u32; WORDS], a: LinAnswer) {
    lay_with(m, a, 0, 0, 0);
}

// An answer, and the five numbers of the auction.
pub fn lay_auction(m: &mut [u32; WORDS], a: LinAuction) {
    let answer = a.answer;
    lay(
        m,
        [
            answer.refusal as u64,
            answer.kind as u64,
            answer.value,
            a.outcome as u64,
            a.level as u64,
            a.strain as u64,
            a.doubling as u64,
            a.declarer as u64,
        ],
    );
}

pub fn lay_step(m: &mut [u32; WORDS], s: LinStep) {
    let found = s.found as u64;
    lay(
        m,
        [
            found,
            s.command_start,
            s.command_len,
            s.value_start,
            s.value_len,
            s.next,
            0,
            0,
        ],
    );
}

pub fn lay_part(m: &mut [u32; WORDS], p: LinPart) {
    lay(m, [p.start, p.len, 0, 0, 0, 0, 0, 0]);
}

pub fn lay_boards(m: &mut [u32; WORDS], b: LinBoards) {
    let a = b.answer;
    lay_with(m, a, b.at, b.number, b.lines as u64);
}

pub fn lay_section(m: &mut [u32; WORDS], s: LinSection) {
    let found = s.found as u64;
    let board = s.board as u64;
    lay(
        m,
        [
            found,
            s.number,
            s.start,
            s.stop,
            board,
            s.next_at,
            s.next_number,
            0,
        ],
    );
}

// A board's 21 words, and its 208 counts.
fn lay_board(m: &mut [u32; WORDS], b: LinBoard) {
    let title = b.title;
    let room = b.room_board;
    let header = b.board_header;
    put_all(m, BOARD, &b.names);
    put_all(m, BOARD + 8, &[b.dealer, b.vulnerability]);
    put_all(m, BOARD + 10, &[title.present, title.start, title.len]);
    put_all(m, BOARD + 13, &[room.present, room.start, room.len]);
    put_all(m, BOARD + 16, &[header.present, header.start, header.len]);
    put_all(m, BOARD + 19, &[b.claimed, b.claim]);
    put_all(m, BOARD + 21, &b.counts);
}

// A board that was found and read: as a heading, and its step.
pub fn lay_read(m: &mut [u32; WORDS], r: LinRead) {
    let answer = r.answer;
    let board = r.board;
    let found = r.found as u64;
    lay_with(m, answer, r.calls, r.cards, 0);
    lay_board(m, board);
    lay_at(
        m,
        STEP,
        [
            found,
            r.number,
            r.start,
            r.stop,
            r.next_at,
            r.next_number,
            0,
            0,
        ],
    );
}

// A heading, and how many bytes its texts have in an output.
pub fn lay_heading(m: &mut [u32; WORDS], h: LinHeading, len: u64) {
    let answer = h.answer;
    let board = h.board;
    lay_with(m, answer, h.calls, h.cards, len);
    lay_board(m, board);
}
