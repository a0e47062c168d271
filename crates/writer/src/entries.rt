// The entries that write a board: `write_lin` from the first byte on, append after the used bytes. (01: Writer; Eight refusals)
ghost use Rattle.std.specs.Prelude.{◌≡◌, false, ◌≤◌, length};
ghost use Rattle.lin_spec.specs.Lent.{lent, bad_cards};
ghost use Rattle.lin_spec.specs.Output.{Outcome, room as room_of};
ghost use Rattle.lin_spec.specs.Append.{appended, append as append_of, write_lin};
ghost use Rattle.board_lent.specs.Heads.{board_of};
ghost use Rattle.writer.specs.Filing.{filing, fitted};

use crate::boards::{board_len, put_board};
use board_lent::{Head, check_board, head_of};
use lin_spec::{Board, Refusal, room};
use writer_cards::sizes_of;
use writer_texts::{Marks, PLAIN};

// Puts a board that the checks before 7 have passed after the used bytes, if there is room for it.
fn append_checked(
    text: &[u8],
    head: Head,
    counts: &[u32; 208],
    rows: &[u32],
    cards: &[u8],
    marks: Marks,
    out: &mut [u8],
    used: usize,
) -> Result<usize, Refusal>
    requires { (used ≤ room_of out.old) × (bad_cards cards.now ≡ false) × (length counts.now ≡ 208) }
    ensures { ◌≡◌ {A = Outcome} (record { answer = result; output = out.new }) (fitted (filing marks text.now (board_of head counts.now) rows.now cards.now) out.old used) }
{
    let sizes = sizes_of(counts);
    let need = board_len(text, head, sizes, rows, cards, marks);
    if ((room(out.len()) - used) as u64) < need {
        return Err(Refusal::OutputTooSmall(need));
    }
    let n = put_board(out, used, text, head, counts, sizes, rows, cards, marks);
    Ok(n)
}

// Adds a board, without its deal and with the counts of its deal, after the used bytes, with these marks, and gives the new used count; or refuses,
// and changes nothing. `other` says whether another number of the call is outside its range.
pub fn append_head(
    other: bool,
    marks: Marks,
    text: &[u8],
    head: Head,
    counts: &[u32; 208],
    rows: &[u32],
    cards: &[u8],
    out: &mut [u8],
    used: usize,
) -> Result<usize, Refusal>
    requires { length counts.now ≡ 208 }
    ensures { ◌≡◌ {A = Outcome} (record { answer = result; output = out.new }) (appended other (filing marks text.now (board_of head counts.now) rows.now cards.now) out.old used) }
{
    let beyond = room(out.len()) < used;
    check_board(other | beyond, text, head, rows, cards)?;
    append_checked(text, head, counts, rows, cards, marks, out, used)
}

// Adds a board after the used bytes, with these marks, and gives the new used count; or refuses, and changes nothing.
fn append_with(
    marks: Marks,
    text: &[u8],
    board: Board,
    rows: &[u32],
    cards: &[u8],
    out: &mut [u8],
    used: usize,
) -> Result<usize, Refusal>
    ensures { ◌≡◌ {A = Outcome} (record { answer = result; output = out.new }) (appended false (filing marks text.now board rows.now cards.now) out.old used) }
{
    let head = head_of(board);
    append_head(
        false,
        marks,
        text,
        head,
        &board.deal.counts,
        rows,
        cards,
        out,
        used,
    )
}

// Adds a board after the used bytes, and gives the new used count; or refuses, and changes nothing.
pub fn append(
    text: &[u8],
    board: Board,
    rows: &[u32],
    cards: &[u8],
    out: &mut [u8],
    used: usize,
) -> Result<usize, Refusal>
    ensures { ◌≡◌ {A = Outcome} (record { answer = result; output = out.new }) (append_of (lent text.now board rows.now cards.now) out.old used) }
{
    let marks = PLAIN;
    append_with(marks, text, board, rows, cards, out, used)
}

// Writes a board from the first byte of the output on, and gives its length; or refuses, and changes nothing.
pub fn write_lin(
    text: &[u8],
    board: Board,
    rows: &[u32],
    cards: &[u8],
    out: &mut [u8],
) -> Result<usize, Refusal>
    ensures { ◌≡◌ {A = Outcome} (record { answer = result; output = out.new }) (write_lin (lent text.now board rows.now cards.now) out.old) }
{
    append(text, board, rows, cards, out, 0)
}
