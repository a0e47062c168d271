// The entries of the writer: a board written or appended, the play as a text, and whether a board equals another. (01: Writer; play text; equality)
ghost use Rattle.std.specs.Prelude.{◌≡◌};
ghost use Rattle.lin_spec.specs.Play.{format_cardplay};
ghost use Rattle.lin_host_numbers.specs.Answers.{Outcome, outcome_numbers};
ghost use Rattle.lin_host.specs.Writing.{append_numbers, equality_numbers, same_numbers};

use board_equality::same_heads;
use lin_host_numbers::{LinAnswer, LinBoard, answer_numbers, bad_codes, coded_head};
use lin_spec::Refusal;
use writer::append_head;
use writer_cards::format_cardplay_by_trick;
use writer_texts::PLAIN;

fn equality_numbers(e: Result<bool, Refusal>) -> LinAnswer
    ensures { result ≡ equality_numbers e }
{
    answer_numbers(e.map(usize::from))
}

// The exports. A board is lent with the numbers that a heading gives, and with rows as lin_parse_lin fills them: its calls are the whole rows, its play
// all cards. The places of absent texts and an absent claim are not looked at; a code outside its range is refusal 8.

// Adds a board after the used bytes, and gives the new used count.
pub fn lin_append(
    text: &[u8],
    board: LinBoard,
    rows: &[u32],
    cards: &[u8],
    out: &mut [u8],
    used: u64,
) -> LinAnswer
    ensures { ◌≡◌ {A = Outcome} (record { answer = result; output = out.new }) (append_numbers text.now board rows.now cards.now out.old used) }
{
    answer_numbers(append_head(
        bad_codes(board),
        PLAIN,
        text,
        coded_head(board),
        &board.counts,
        rows,
        cards,
        out,
        used as usize,
    ))
}

// Writes a board from the first byte of the output on, and gives its length.
pub fn lin_write_lin(
    text: &[u8],
    board: LinBoard,
    rows: &[u32],
    cards: &[u8],
    out: &mut [u8],
) -> LinAnswer
    ensures { ◌≡◌ {A = Outcome} (record { answer = result; output = out.new }) (append_numbers text.now board rows.now cards.now out.old 0) }
{
    lin_append(text, board, rows, cards, out, 0)
}

// Writes the cards by tricks from the first byte of the output on, and gives the length.
pub fn lin_play_text(cards: &[u8], out: &mut [u8]) -> LinAnswer
    ensures { ◌≡◌ {A = Outcome} (record { answer = result; output = out.new }) (outcome_numbers (format_cardplay cards.now out.old)) }
{
    answer_numbers(format_cardplay_by_trick(cards, out))
}

// 1 if the first board equals the second, else 0.
pub fn lin_same_board(
    text: &[u8],
    board: LinBoard,
    rows: &[u32],
    cards: &[u8],
    text2: &[u8],
    board2: LinBoard,
    rows2: &[u32],
    cards2: &[u8],
) -> LinAnswer
    ensures { result ≡ same_numbers text.now board rows.now cards.now text2.now board2 rows2.now cards2.now }
{
    let other = bad_codes(board) || bad_codes(board2);
    equality_numbers(same_heads(
        other,
        text,
        coded_head(board),
        &board.counts,
        rows,
        cards,
        text2,
        coded_head(board2),
        &board2.counts,
        rows2,
        cards2,
    ))
}
