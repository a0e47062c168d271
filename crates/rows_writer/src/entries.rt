// The entries that write a board whose calls are lent in rows: `write_lin` from the first byte on, append after the used bytes. (01: Writer; Eight refusals)
ghost use Rattle.std.specs.Prelude.{◌≡◌, false, length};
ghost use Rattle.lin_spec.specs.Refusals.{sat};
ghost use Rattle.lin_spec.specs.Lent.{bad_cards};
ghost use Rattle.lin_spec.specs.Output.{Outcome};
ghost use Rattle.lin_spec.specs.Append.{plain, append, write_lin};
ghost use Rattle.lin_spec.specs.Writer.{pipe_mark, line_mark};
ghost use Rattle.board_lent.specs.Heads.{board_of};
ghost use Rattle.writer.specs.Filing.{fitted};
ghost use Rattle.rows.specs.Rows.{lent_rows};
ghost use Rattle.rows_walks.specs.Walks.{rows_bytes};

use crate::checks::check_rows;
use crate::scans::seen_rows;
use board_lent::{Head, head_of};
use lin_spec::{Board, Refusal, room};
use output::sat_add;
use rows::CallRow;
use rows_walks::put_rows;
use writer::{others_len, put_back, put_front};
use writer_cards::sizes_of;
use writer_texts::PLAIN;

// Puts a board that the checks before 7 have passed after the used bytes, if there is room for it. Its calls are written with so many bytes.
fn append_checked(
    text: &[u8],
    head: Head,
    counts: &[u32; 208],
    rows: &[CallRow],
    cards: &[u8],
    calls: u64,
    out: &mut [u8],
    used: usize,
) -> Result<usize, Refusal>
    requires { (length counts.now ≡ 208) × (bad_cards cards.now ≡ false) × (calls ≡ sat (length (rows_bytes pipe_mark line_mark text.now rows.now))) }
    ensures { ◌≡◌ {A = Outcome} (record { answer = result; output = out.new }) (fitted (plain (lent_rows text.now (board_of head counts.now) rows.now cards.now)) out.old used) }
{
    let sizes = sizes_of(counts);
    let need = sat_add(others_len(text, head, sizes, cards, PLAIN), calls);
    if (room(out.len()) as u64) < sat_add(used as u64, need) {
        return Err(Refusal::OutputTooSmall(need));
    }
    let a = put_front(out, used, text, head, counts, sizes, PLAIN);
    let b = put_rows(out, a, text, rows, PLAIN);
    Ok(put_back(out, b, head.claim, cards))
}

// Adds a board after the used bytes, and gives the new used count; or refuses, and changes nothing.
pub fn append_rows(
    text: &[u8],
    board: Board,
    rows: &[CallRow],
    cards: &[u8],
    out: &mut [u8],
    used: usize,
) -> Result<usize, Refusal>
    ensures { ◌≡◌ {A = Outcome} (record { answer = result; output = out.new }) (append (lent_rows text.now board rows.now cards.now) out.old used) }
{
    let head = head_of(board);
    let seen = seen_rows(text, rows);
    check_rows(text, head, cards, seen, room(out.len()) < used)?;
    append_checked(
        text,
        head,
        &board.deal.counts,
        rows,
        cards,
        seen.need,
        out,
        used,
    )
}

// Writes a board from the first byte of the output on, and gives its length; or refuses, and changes nothing.
pub fn write_lin_rows(
    text: &[u8],
    board: Board,
    rows: &[CallRow],
    cards: &[u8],
    out: &mut [u8],
) -> Result<usize, Refusal>
    ensures { ◌≡◌ {A = Outcome} (record { answer = result; output = out.new }) (write_lin (lent_rows text.now board rows.now cards.now) out.old) }
{
    append_rows(text, board, rows, cards, out, 0)
}
