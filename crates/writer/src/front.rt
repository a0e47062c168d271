// The first part of a written board, before its calls: heading texts, deal, vulnerability, and what begins the calls. (01: Writer)
ghost use Rattle.std.specs.Prelude.{◌≡◌, ℕ, List, ◌∷◌, [], length};
ghost use Rattle.lin_spec.specs.Letters.{sv_letter};
ghost use Rattle.lin_spec.specs.Refusals.{sat};
ghost use Rattle.board_lent.specs.Heads.{board_of};
ghost use Rattle.board_lent.specs.declared.heads.Head.{Head};
ghost use Rattle.output.specs.Put.{Room, Put};
ghost use Rattle.writer_cards.specs.Sizes.{Sized, Small};
ghost use Rattle.writer.specs.Pieces.{dealing_text, front_text};

use crate::heading::{heading_len, put_heading};
use board_lent::Head;
use lin_spec::Vulnerability;
use output::{put, put_all, sat_add};
use writer_cards::{Sizes, md_len, put_md};
use writer_texts::Marks;

const MD_TEXT: [u8; 3] = *b"md|";

const SV_TEXT: [u8; 4] = *b"|sv|";

const SA_TEXT: [u8; 7] = *b"|\nsa|0|";

// Puts the letter of the vulnerability.
fn put_sv(out: &mut [u8], at: usize, v: Vulnerability) -> usize
    requires { Room out.old at (sv_letter v ∷ []) }
    ensures { Put out.old at (sv_letter v ∷ []) out.new result }
{
    put(out, at, v.letter())
}

// Puts the deal and the vulnerability, and what begins the calls.
fn put_dealing(out: &mut [u8], at: usize, head: Head, counts: &[u32; 208], sizes: Sizes) -> usize
    requires { Room out.old at (dealing_text (board_of head counts.now)) × Sized counts.now sizes }
    ensures { Put out.old at (dealing_text (board_of head counts.now)) out.new result }
{
    let dealer = head.dealer;
    let vulnerability = head.vulnerability;
    let a = put_all(out, at, &MD_TEXT);
    let b = put_md(out, a, dealer, counts, sizes);
    let c = put_all(out, b, &SV_TEXT);
    let d = put_sv(out, c, vulnerability);
    put_all(out, d, &SA_TEXT)
}

fn dealing_len(sizes: Sizes) -> u64
    requires { Small sizes }
    ensures { (head : Head) (counts : List ℕ) → Sized counts sizes → result ≡ sat (length (dealing_text (board_of head counts))) }
{
    sat_add(15, md_len(sizes))
}

// Puts what stands before the calls of a board whose deal has these sizes.
pub fn put_front(
    out: &mut [u8],
    at: usize,
    text: &[u8],
    head: Head,
    counts: &[u32; 208],
    sizes: Sizes,
    marks: Marks,
) -> usize
    requires { Room out.old at (front_text marks.pipe marks.line text.now (board_of head counts.now)) × Sized counts.now sizes }
    ensures { Put out.old at (front_text marks.pipe marks.line text.now (board_of head counts.now)) out.new result }
{
    let a = put_heading(out, at, text, head, marks);
    put_dealing(out, a, head, counts, sizes)
}

pub(crate) fn front_len(text: &[u8], head: Head, sizes: Sizes, marks: Marks) -> u64
    requires { Small sizes }
    ensures { (counts : List ℕ) → Sized counts sizes → result ≡ sat (length (front_text marks.pipe marks.line text.now (board_of head counts))) }
{
    sat_add(heading_len(text, head, marks), dealing_len(sizes))
}
