// The last part of a written board, after its calls: what ends the calls, the play and the claim. (01: Writer)
ghost use Rattle.std.specs.Prelude.{◌≡◌, false, length};
ghost use Rattle.lin_spec.specs.Refusals.{sat};
ghost use Rattle.lin_spec.specs.Writer.{claim_text};
ghost use Rattle.lin_spec.specs.Lent.{bad_cards};
ghost use Rattle.output.specs.Put.{Room, Put};
ghost use Rattle.writer.specs.Pieces.{claimed_text, back_text};

use output::{decimal_len, put_all, put_decimal, sat_add};
use writer_cards::{PG_TEXT, put_tricks, tricks_len};

const MC_TEXT: [u8; 3] = *b"mc|";

const CLAIMED: [u8; 6] = *b"|pg||\n";

// Puts a claim that is made.
fn put_claimed(out: &mut [u8], at: usize, n: u8) -> usize
    requires { Room out.old at (claimed_text n) }
    ensures { Put out.old at (claimed_text n) out.new result }
{
    let a = put_all(out, at, &MC_TEXT);
    let b = put_decimal(out, a, n as u64);
    put_all(out, b, &CLAIMED)
}

// Puts the claim, nothing where it is absent.
fn put_mc(out: &mut [u8], at: usize, claim: Option<u8>) -> usize
    requires { Room out.old at (claim_text claim) }
    ensures { Put out.old at (claim_text claim) out.new result }
{
    match claim {
        None => at,
        Some(n) => put_claimed(out, at, n),
    }
}

fn mc_len(claim: Option<u8>) -> u64
    ensures { result ≡ sat (length (claim_text claim)) }
{
    match claim {
        None => 0,
        Some(n) => sat_add(9, decimal_len(n as u64)),
    }
}

// Puts what stands after the calls of a board.
pub fn put_back(out: &mut [u8], at: usize, claim: Option<u8>, cards: &[u8]) -> usize
    requires { Room out.old at (back_text claim cards.now) × (bad_cards cards.now ≡ false) }
    ensures { Put out.old at (back_text claim cards.now) out.new result }
{
    let a = put_all(out, at, &PG_TEXT);
    let b = put_tricks(out, a, cards);
    put_mc(out, b, claim)
}

pub(crate) fn back_len(claim: Option<u8>, cards: &[u8]) -> u64
    ensures { result ≡ sat (length (back_text claim cards.now)) }
{
    let a = sat_add(5, tricks_len(cards));
    sat_add(a, mc_len(claim))
}
