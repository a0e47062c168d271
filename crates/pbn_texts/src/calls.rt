// The kept calls and the kept cards: how many there are, the texts of the calls before cleaning, the cards stored. (01: From PBN, "continue,
// blank and gaps are dropped")
ghost use Rattle.std.specs.Prelude.{◌≡◌, false, length, ◌≤◌};
ghost use Rattle.lin_spec.specs.Base.{any};
ghost use Rattle.lin_spec.specs.Refusals.{sat};
ghost use Rattle.lin_spec.specs.Pbn.{pbn_rows, kept_cards, bad_call};
ghost use Rattle.output.specs.Put.{Room, Put};
ghost use Rattle.pbn_texts.specs.Calls.{kept_letter, bid_bytes, note_bytes, pbn_call_bytes, pbn_calls_bytes, kept_many, is_kept, level_text};

use lin_spec::PbnCall;
use output::{put, sat_add};
use pbn_annotation::{annotation_len, put_annotation};
use pbn_checks::pbn_call_of;

const STRAINS: [u8; 5] = *b"CDHSN";

// The entry of a play that is no card.
const GAP: u8 = 255;

// Whether a call is kept.
pub(crate) fn is_kept(c: PbnCall) -> bool
    ensures { result ≡ is_kept c }
{
    c.kind < 4
}

// How many calls are kept.
pub fn kept_calls(calls: &[u32]) -> usize
    ensures { result ≡ kept_many (pbn_rows calls.now) }
{
    calls
        .as_chunks::<6>()
        .0
        .iter()
        .filter(|&&row| is_kept(pbn_call_of(row)))
        .count()
}

// How many cards are kept.
pub fn kept_cards(plays: &[u8]) -> usize
    ensures { result ≡ length (kept_cards plays.now) }
{
    plays.iter().filter(|&&b| b != GAP).count()
}

// Stores an entry of the play, nothing for a gap.
fn put_kept_card(cards: &mut [u8], at: usize, b: u8) -> usize
    requires { Room cards.old at (kept_letter b) }
    ensures { Put cards.old at (kept_letter b) cards.new result }
{
    if b == GAP {
        return at;
    }
    put(cards, at, b)
}

// Stores the kept cards.
pub fn put_kept_cards(cards: &mut [u8], plays: &[u8]) -> usize
    requires { Room cards.old 0 (kept_cards plays.now) }
    ensures { Put cards.old 0 (kept_cards plays.now) cards.new result }
{
    let mut n = 0;
    for &b in plays {
        n = put_kept_card(cards, n, b);
    }
    n
}

// Puts a bid of a level and a strain.
fn put_level(out: &mut [u8], at: usize, level: u32, strain: u32) -> usize
    requires { Room out.old at (level_text level strain) × (level ≤ 7) × (strain ≤ 4) }
    ensures { Put out.old at (level_text level strain) out.new result }
{
    let a = put(out, at, b'0' + level as u8);
    put(out, a, STRAINS[strain as usize])
}

// Puts the bid of a call, nothing for a call that is dropped.
fn put_pbn_bid(out: &mut [u8], at: usize, c: PbnCall) -> usize
    requires { Room out.old at (bid_bytes c) × (bad_call c ≡ false) }
    ensures { Put out.old at (bid_bytes c) out.new result }
{
    if c.kind == 0 {
        return put(out, at, b'p');
    }
    if c.kind == 1 {
        return put(out, at, b'd');
    }
    if c.kind == 2 {
        return put(out, at, b'r');
    }
    if c.kind == 3 {
        return put_level(out, at, c.level, c.strain);
    }
    at
}

// 0 for a call that is dropped.
pub(crate) fn pbn_bid_len(c: PbnCall) -> u64
    ensures { (result ≡ length (bid_bytes c)) × (result ≤ 2) }
{
    if c.kind < 3 {
        return 1;
    }
    if c.kind == 3 {
        return 2;
    }
    0
}

// Puts the annotation of a call, nothing where it is absent.
fn put_pbn_note(out: &mut [u8], at: usize, text: &[u8], c: PbnCall, notes: &[u32; 768]) -> usize
    requires { Room out.old at (note_bytes text.now notes.now c) }
    ensures { Put out.old at (note_bytes text.now notes.now c) out.new result }
{
    if c.annotated == 0 {
        return at;
    }
    put_annotation(out, at, text, c.annotation, notes)
}

// 0 where it is absent.
pub(crate) fn pbn_note_len(text: &[u8], c: PbnCall, notes: &[u32; 768]) -> u64
    ensures { result ≡ sat (length (note_bytes text.now notes.now c)) }
{
    if c.annotated == 0 {
        return 0;
    }
    annotation_len(text, c.annotation, notes)
}

// Puts the texts of a call, nothing for a call that is dropped.
fn put_pbn_call(out: &mut [u8], at: usize, text: &[u8], c: PbnCall, notes: &[u32; 768]) -> usize
    requires { Room out.old at (pbn_call_bytes text.now notes.now c) × (bad_call c ≡ false) }
    ensures { Put out.old at (pbn_call_bytes text.now notes.now c) out.new result }
{
    if !is_kept(c) {
        return at;
    }
    let a = put_pbn_bid(out, at, c);
    put_pbn_note(out, a, text, c, notes)
}

// 0 for a call that is dropped.
fn pbn_call_len(text: &[u8], c: PbnCall, notes: &[u32; 768]) -> u64
    ensures { result ≡ sat (length (pbn_call_bytes text.now notes.now c)) }
{
    if !is_kept(c) {
        return 0;
    }
    sat_add(pbn_bid_len(c), pbn_note_len(text, c, notes))
}

// Puts the texts of the calls.
pub(crate) fn put_pbn_calls(
    out: &mut [u8],
    at: usize,
    text: &[u8],
    calls: &[u32],
    notes: &[u32; 768],
) -> usize
    requires { Room out.old at (pbn_calls_bytes text.now notes.now (pbn_rows calls.now)) × (any bad_call (pbn_rows calls.now) ≡ false) }
    ensures { Put out.old at (pbn_calls_bytes text.now notes.now (pbn_rows calls.now)) out.new result }
{
    let mut o = at;
    for &row in calls.as_chunks::<6>().0 {
        o = put_pbn_call(out, o, text, pbn_call_of(row), notes);
    }
    o
}

// No more than 2^64 less 1 is counted.
pub fn pbn_calls_len(text: &[u8], calls: &[u32], notes: &[u32; 768]) -> u64
    ensures { result ≡ sat (length (pbn_calls_bytes text.now notes.now (pbn_rows calls.now))) }
{
    let mut n = 0;
    for &row in calls.as_chunks::<6>().0 {
        n = sat_add(n, pbn_call_len(text, pbn_call_of(row), notes));
    }
    n
}
