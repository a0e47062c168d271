// The functions of `lin_host`, called with what the memory says is lent, and their answers laid into it. (01: Tokens; Board; File; Writer; From PBN; 02: N1, N3)
use crate::answers::{
    lay_answer, lay_auction, lay_boards, lay_heading, lay_part, lay_read, lay_section, lay_step,
    lay_with,
};
use crate::boards::{board_words, record_at};
use lin_host::{
    lin_annotation_text, lin_append, lin_check_auction, lin_count_boards, lin_file_board,
    lin_file_heading, lin_find_name, lin_from_board, lin_next, lin_next_board, lin_open,
    lin_open_boards, lin_parse_heading, lin_parse_lin, lin_play_text, lin_read_board,
    lin_same_board, lin_trailing, lin_write_document, lin_write_lin,
};
use test_memory::{
    BYTES, CALLS, CARDS, CARDS2, FILLED_CARDS, FILLED_ROWS, LENT_BOARD, LENT_BOARD2, LENT_CARDS,
    LENT_WORDS, LENT_WORK, LINES, MARK, NOTES, NUMBER, PLACES, READ, ROOM, ROWS, ROWS2, SECOND,
    SPACE, SPAN, TEXT, TEXT2, WORD, WORDS, WORK, front, front_words, get, long, place, put,
    put_all, take,
};
use test_vectors::words;
use text::part;

// The rows that are lent for reading, from the start that a place says.
fn rows_at(m: &[u32; WORDS], at: usize) -> [u32; READ] {
    let mut rows = [0u32; READ];
    take(&mut rows, m, place(m, at));
    rows
}

// The first of them.
fn some(rows: &[u32; READ], n: usize) -> &[u32] {
    words(rows, n)
}

// The calls that take texts and numbers.
fn reading(call: usize, m: &mut [u32; WORDS], text: &[u8]) {
    let n = long(m, NUMBER);
    let second = long(m, SECOND);
    let lines = get(m, LINES);
    match call {
        0 => lay_answer(m, lin_open(text)),
        1 => lay_step(m, lin_next(text, n)),
        2 => lay_part(m, lin_trailing(text, n)),
        3 => lay_heading(m, lin_parse_heading(text), 0),
        4 => lay_answer(m, lin_count_boards(text)),
        5 => lay_heading(m, lin_file_heading(text, n), 0),
        6 => lay_boards(m, lin_open_boards(text)),
        _ => lay_section(m, lin_next_board(text, n, second, lines)),
    }
}

// How many boards have the second text as a name, with marked work space.
fn call_find_name(m: &mut [u32; WORDS], text: &[u8], name: &[u8]) {
    let mut work = [WORD; SPACE];
    let w = place(m, LENT_WORK);
    let a = lin_find_name(text, name, front_words(&mut work, w));
    lay_answer(m, a);
    put_all(m, WORK, &work);
}

// Lays what was lent to be filled.
fn lay_lent(m: &mut [u32; WORDS], rows: &[u32; CALLS], cards: &[u8; PLACES]) {
    put_all(m, FILLED_ROWS, rows);
    put(m, FILLED_CARDS, cards, 1);
}

// The board of the text, into marked rows and places.
fn parse(m: &mut [u32; WORDS], text: &[u8]) {
    let mut rows = [WORD; CALLS];
    let mut cards = [MARK; PLACES];
    let w = place(m, LENT_WORDS);
    let p = place(m, LENT_CARDS);
    let h = lin_parse_lin(text, front_words(&mut rows, w), front(&mut cards, p));
    lay_heading(m, h, 0);
    lay_lent(m, &rows, &cards);
}

// The board of a number.
fn call_file_board(m: &mut [u32; WORDS], text: &[u8]) {
    let mut rows = [WORD; CALLS];
    let mut cards = [MARK; PLACES];
    let w = place(m, LENT_WORDS);
    let p = place(m, LENT_CARDS);
    let n = long(m, NUMBER);
    let h = lin_file_board(text, n, front_words(&mut rows, w), front(&mut cards, p));
    lay_heading(m, h, 0);
    lay_lent(m, &rows, &cards);
}

// The next board from a cursor on, and its step.
fn call_read_board(m: &mut [u32; WORDS], text: &[u8]) {
    let mut rows = [WORD; CALLS];
    let mut cards = [MARK; PLACES];
    let w = place(m, LENT_WORDS);
    let p = place(m, LENT_CARDS);
    let n = long(m, NUMBER);
    let second = long(m, SECOND);
    let lines = get(m, LINES);
    let rows_lent = front_words(&mut rows, w);
    let cards_lent = front(&mut cards, p);
    let r = lin_read_board(text, n, second, lines, rows_lent, cards_lent);
    lay_read(m, r);
    lay_lent(m, &rows, &cards);
}

fn document(m: &mut [u32; WORDS], text: &[u8], out: &mut [u8]) {
    let rows = rows_at(m, ROWS);
    let n = place(m, ROWS + 1);
    let start = get(m, SPAN);
    let len = get(m, SPAN + 1);
    let room = place(m, ROOM);
    let a = lin_write_document(text, some(&rows, n), start, len, front(out, room));
    lay_answer(m, a);
}

fn annotation(m: &mut [u32; WORDS], text: &[u8], out: &mut [u8]) {
    let mut notes = [0u32; 768];
    take(&mut notes, m, NOTES);
    let start = get(m, SPAN);
    let len = get(m, SPAN + 1);
    let room = place(m, ROOM);
    let a = lin_annotation_text(text, start, len, &notes, front(out, room));
    let answer = a.answer;
    lay_with(m, answer, a.present as u64, 0, 0);
}

fn call_append(m: &mut [u32; WORDS], text: &[u8], cards: &[u8], out: &mut [u8]) {
    let rows = rows_at(m, ROWS);
    let n = place(m, ROWS + 1);
    let room = place(m, ROOM);
    let used = long(m, NUMBER);
    let board = board_words(m, LENT_BOARD);
    let a = lin_append(text, board, some(&rows, n), cards, front(out, room), used);
    lay_answer(m, a);
}

fn write(m: &mut [u32; WORDS], text: &[u8], cards: &[u8], out: &mut [u8]) {
    let rows = rows_at(m, ROWS);
    let n = place(m, ROWS + 1);
    let room = place(m, ROOM);
    let board = board_words(m, LENT_BOARD);
    let a = lin_write_lin(text, board, some(&rows, n), cards, front(out, room));
    lay_answer(m, a);
}

fn play(m: &mut [u32; WORDS], cards: &[u8], out: &mut [u8]) {
    let room = place(m, ROOM);
    lay_answer(m, lin_play_text(cards, front(out, room)));
}

fn call_same_board(m: &mut [u32; WORDS], text: &[u8], cards: &[u8], text2: &[u8], cards2: &[u8]) {
    let rows = rows_at(m, ROWS);
    let rows2 = rows_at(m, ROWS2);
    let n = place(m, ROWS + 1);
    let n2 = place(m, ROWS2 + 1);
    let board = board_words(m, LENT_BOARD);
    let board2 = board_words(m, LENT_BOARD2);
    let a = lin_same_board(
        text,
        board,
        some(&rows, n),
        cards,
        text2,
        board2,
        some(&rows2, n2),
        cards2,
    );
    lay_answer(m, a);
}

// The auction of the rows, by the dealer of the lent board.
fn call_check_auction(m: &mut [u32; WORDS], text: &[u8]) {
    let rows = rows_at(m, ROWS);
    let n = place(m, ROWS + 1);
    let dealer = get(m, LENT_BOARD + 8);
    lay_auction(m, lin_check_auction(text, dealer, some(&rows, n)));
}

// A board of the record, into an output and into marked rows and places.
fn call_from_board(m: &mut [u32; WORDS], text: &[u8], plays: &[u8], out: &mut [u8]) {
    let mut rows = [WORD; CALLS];
    let mut cards = [MARK; PLACES];
    let mut notes = [0u32; 768];
    take(&mut notes, m, NOTES);
    let calls = rows_at(m, ROWS);
    let n = place(m, ROWS + 1);
    let w = place(m, LENT_WORDS);
    let p = place(m, LENT_CARDS);
    let room = place(m, ROOM);
    let c = lin_from_board(
        text,
        record_at(m),
        some(&calls, n),
        plays,
        &notes,
        front(out, room),
        front_words(&mut rows, w),
        front(&mut cards, p),
    );
    let heading = c.heading;
    lay_heading(m, heading, c.len);
    lay_lent(m, &rows, &cards);
}

// The calls that write into the output.
fn writing(call: usize, m: &mut [u32; WORDS], text: &[u8], cards: &[u8], out: &mut [u8; BYTES]) {
    match call {
        11 => document(m, text, out),
        12 => call_append(m, text, cards, out),
        13 => write(m, text, cards, out),
        14 => play(m, cards, out),
        15 => annotation(m, text, out),
        _ => call_from_board(m, text, cards, out),
    }
}

// The call of a number.
pub fn called(call: usize, m: &mut [u32; WORDS], bytes: &[u8; BYTES], out: &mut [u8; BYTES]) {
    let text = part(bytes, place(m, TEXT), place(m, TEXT + 1));
    let cards = part(bytes, place(m, CARDS), place(m, CARDS + 1));
    let text2 = part(bytes, place(m, TEXT2), place(m, TEXT2 + 1));
    let cards2 = part(bytes, place(m, CARDS2), place(m, CARDS2 + 1));
    match call {
        0..=7 => reading(call, m, text),
        8 => parse(m, text),
        9 => call_file_board(m, text),
        10 => call_find_name(m, text, text2),
        17 => call_same_board(m, text, cards, text2, cards2),
        18 => call_read_board(m, text),
        19 => call_check_auction(m, text),
        _ => writing(call, m, text, cards, out),
    }
}
