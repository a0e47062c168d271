// The play as a text of its own, by tricks. (01: play text, `format_cardplay_by_trick`)
ghost use Rattle.std.specs.Prelude.{◌≡◌, false, length};
ghost use Rattle.lin_spec.specs.Refusals.{sat};
ghost use Rattle.lin_spec.specs.Output.{Outcome};
ghost use Rattle.lin_spec.specs.Lent.{bad_cards};
ghost use Rattle.lin_spec.specs.Play.{play_text, format_cardplay};
ghost use Rattle.output.specs.Put.{Room, Put};
ghost use Rattle.writer_cards.specs.Tricks.{before_card};

use crate::letters::put_card_letters;
use board_lent::bad_cards;
use lin_spec::{Refusal, room};
use output::put;

// Puts what stands before a card: nothing before the first, a pipe before the first of another trick, else a space.
fn put_between(out: &mut [u8], at: usize, played: usize) -> usize
    requires { Room out.old at (before_card played) }
    ensures { Put out.old at (before_card played) out.new result }
{
    if played == 0 {
        return at;
    }
    if played % 4 == 0 {
        return put(out, at, b'|');
    }
    put(out, at, b' ')
}

// Puts the text of a play.
fn put_play(out: &mut [u8], cards: &[u8]) -> usize
    requires { Room out.old 0 (play_text cards.now) × (bad_cards cards.now ≡ false) }
    ensures { Put out.old 0 (play_text cards.now) out.new result }
{
    let mut o = 0;
    for (i, &card) in cards.iter().enumerate() {
        let a = put_between(out, o, i);
        o = put_card_letters(out, a, card);
    }
    o
}

// Three bytes for each card, but two for the last.
fn play_len(cards: &[u8]) -> u64
    ensures { result ≡ sat (length (play_text cards.now)) }
{
    let n = cards.len() as u64;
    if n == 0 {
        return 0;
    }
    if 6_148_914_691_236_517_205 < n {
        return 18_446_744_073_709_551_615;
    }
    3 * n - 1
}

// The cards by tricks, `D2 DA D6 D5|S3 S2 SQ SA`, from the first byte of the output on; or a refusal, and nothing is changed.
pub fn format_cardplay_by_trick(cards: &[u8], out: &mut [u8]) -> Result<usize, Refusal>
    ensures { ◌≡◌ {A = Outcome} (record { answer = result; output = out.new }) (format_cardplay cards.now out.old) }
{
    if bad_cards(cards) {
        return Err(Refusal::OutOfRange);
    }
    let need = play_len(cards);
    if (room(out.len()) as u64) < need {
        return Err(Refusal::OutputTooSmall(need));
    }
    let n = put_play(out, cards);
    Ok(n)
}
