// A board, put into an output at a place that has room, and how many bytes it has. (01: Writer)
ghost use Rattle.std.specs.Prelude.{◌≡◌, false, ℕ, ◌+◌, List, length};
ghost use Rattle.lin_spec.specs.Refusals.{sat};
ghost use Rattle.lin_spec.specs.Lent.{bad_cards};
ghost use Rattle.lin_spec.specs.Append.{written_form};
ghost use Rattle.board_lent.specs.Heads.{board_of};
ghost use Rattle.output.specs.Put.{Room, Put};
ghost use Rattle.writer_cards.specs.Sizes.{Sized, Small};
ghost use Rattle.writer.specs.Pieces.{front_text, back_text};
ghost use Rattle.writer.specs.Filing.{filing};

use crate::back::{back_len, put_back};
use crate::front::{front_len, put_front};
use board_lent::Head;
use output::sat_add;
use writer_cards::Sizes;
use writer_texts::{Marks, calls_len, put_calls};

// Puts a board whose deal has these sizes.
pub fn put_board(
    out: &mut [u8],
    at: usize,
    text: &[u8],
    head: Head,
    counts: &[u32; 208],
    sizes: Sizes,
    rows: &[u32],
    cards: &[u8],
    marks: Marks,
) -> usize
    requires { Room out.old at (written_form (filing marks text.now (board_of head counts.now) rows.now cards.now)) × (bad_cards cards.now ≡ false) × Sized counts.now sizes }
    ensures { Put out.old at (written_form (filing marks text.now (board_of head counts.now) rows.now cards.now)) out.new result }
{
    let claim = head.claim;
    let a = put_front(out, at, text, head, counts, sizes, marks);
    let b = put_calls(out, a, text, rows, marks);
    put_back(out, b, claim, cards)
}

// What stands before its calls and after them, together.
pub fn others_len(text: &[u8], head: Head, sizes: Sizes, cards: &[u8], marks: Marks) -> u64
    requires { Small sizes }
    ensures { (counts : List ℕ) → Sized counts sizes → result ≡ sat (length (front_text marks.pipe marks.line text.now (board_of head counts)) + length (back_text head.claim cards.now)) }
{
    let claim = head.claim;
    let a = front_len(text, head, sizes, marks);
    sat_add(a, back_len(claim, cards))
}

pub fn board_len(
    text: &[u8],
    head: Head,
    sizes: Sizes,
    rows: &[u32],
    cards: &[u8],
    marks: Marks,
) -> u64
    requires { Small sizes }
    ensures { (counts : List ℕ) → Sized counts sizes → result ≡ sat (length (written_form (filing marks text.now (board_of head counts) rows.now cards.now))) }
{
    let a = others_len(text, head, sizes, cards, marks);
    sat_add(a, calls_len(text, rows))
}
