// The exports of the entries of the writer: a board written or appended, the play as a text, and whether a board equals another. (01: Writer; play text; equality)
ghost use Rattle.std.specs.Prelude.{◌≡◌};
ghost use Rattle.lin_spec.specs.Play.{format_cardplay};
ghost use Rattle.lin_host_numbers.specs.Answers.{Outcome, outcome_numbers};
ghost use Rattle.lin_host.specs.Writing.{append_numbers, same_numbers};

use lin_host::{LinAnswer, LinBoard};

// Adds a board after the used bytes, and gives the new used count.
#[unsafe(no_mangle)]
pub extern "C" fn lin_append(
    text: &[u8],
    board: LinBoard,
    rows: &[u32],
    cards: &[u8],
    out: &mut [u8],
    used: u64,
) -> LinAnswer
    ensures { ◌≡◌ {A = Outcome} (record { answer = result; output = out.new }) (append_numbers text.now board rows.now cards.now out.old used) }
{
    lin_host::lin_append(text, board, rows, cards, out, used)
}

// Writes a board from the first byte of the output on, and gives its length.
#[unsafe(no_mangle)]
pub extern "C" fn lin_write_lin(
    text: &[u8],
    board: LinBoard,
    rows: &[u32],
    cards: &[u8],
    out: &mut [u8],
) -> LinAnswer
    ensures { ◌≡◌ {A = Outcome} (record { answer = result; output = out.new }) (append_numbers text.now board rows.now cards.now out.old 0) }
{
    lin_host::lin_write_lin(text, board, rows, cards, out)
}

// Writes the cards by tricks from the first byte of the output on, and gives the length.
#[unsafe(no_mangle)]
pub extern "C" fn lin_play_text(cards: &[u8], out: &mut [u8]) -> LinAnswer
    ensures { ◌≡◌ {A = Outcome} (record { answer = result; output = out.new }) (outcome_numbers (format_cardplay cards.now out.old)) }
{
    lin_host::lin_play_text(cards, out)
}

// 1 if the first board equals the second, else 0.
#[unsafe(no_mangle)]
pub extern "C" fn lin_same_board(
    text: &[u8],
    board: LinBoard,
    rows: &[u32],
    cards: &[u8],
    text2: &[u8],
    board2: LinBoard,
    rows2: &[u32],
    cards2: &[u8],
) -> LinAnswer
    ensures { result ≡ same_numbers text.now board rows.now cards.now text2.now board2 rows2.now cards2.now }
{
    lin_host::lin_same_board(text, board, rows, cards, text2, board2, rows2, cards2)
}
