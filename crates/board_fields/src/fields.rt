// What each command gives to a board's heading. `on` says that the token has the command. (01: Board)
ghost use Rattle.std.specs.Prelude.{◌≡◌, ◌+◌, ◌<◌, ◌≤◌, ◌^◌, length, eqb};
ghost use Rattle.lin_spec.specs.Base.{pick};
ghost use Rattle.lin_spec.specs.Records.{end_of, bytes_at};
ghost use Rattle.lin_spec.specs.White.{trim as trimmed};
ghost use Rattle.lin_spec.specs.Tokens.{cut};
ghost use Rattle.lin_spec.specs.Board.{named, read_sv, number_in};
ghost use Rattle.lin_spec.specs.Reading.{span_text};
ghost use Rattle.lin_spec.specs.Cards.{read_card};
ghost use Rattle.board_fields.specs.Fields.{is_dealer, last_md, names_from, more};

use cards::read_card;
use digits::read_number;
use lin_spec::{Span, Vulnerability};
use text::{find_byte, shown};
use white::{same_word, trim};

// mn, qx: the value; empty makes it absent.
pub fn on_value(on: bool, v: Span, old: Option<Span>) -> Option<Span>
    ensures { result ≡ pick on (pick (eqb v.len 0) None (Some v)) old }
{
    if !on {
        return old;
    }
    if v.len == 0 {
        return None;
    }
    Some(v)
}

// ah and an: the value, even empty.
pub fn on_present(on: bool, v: Span, old: Option<Span>) -> Option<Span>
    ensures { result ≡ pick on (Some v) old }
{
    if !on {
        return old;
    }
    Some(v)
}

// pn: the pieces between commas, from South on.
pub fn on_names(text: &[u8], on: bool, v: Span, old: [Span; 4]) -> [Span; 4]
    requires { (end_of v ≤ length text.now) × (length text.now < 2 ^ 32) }
    ensures { result ≡ pick on (named (span_text text.now) v 0 (cut 0x2C (bytes_at text.now v)) old) old }
{
    if !on {
        return old;
    }
    split_names(shown(text, v), v.start, old)
}

// The first four of the pieces of a value between commas replace the names; a piece at a place of the value is at start plus the place.
fn split_names(value: &[u8], start: u32, old: [Span; 4]) -> [Span; 4]
    requires { start + length value.now < 2 ^ 32 }
    ensures { result ≡ names_from start 0 (cut 0x2C value.now) old }
{
    let mut names = old;
    let mut place = 0;
    for name in names.iter_mut() {
        let e = find_byte(value, b',', place);
        *name = Span {
            start: start + place as u32,
            len: (e - place) as u32,
        };
        if value.len() <= e {
            break;
        }
        place = e + 1;
    }
    names
}

// sv: n, ns; e, ew; b, both, all; anything else is none vulnerable.
fn read_sv(s: &[u8]) -> Vulnerability
    ensures { result ≡ read_sv s.now }
{
    if same_word(s, b"n") | same_word(s, b"ns") {
        return Vulnerability::NorthSouth;
    }
    if same_word(s, b"e") | same_word(s, b"ew") {
        return Vulnerability::EastWest;
    }
    if same_word(s, b"b") | (same_word(s, b"both") | same_word(s, b"all")) {
        return Vulnerability::Both;
    }
    Vulnerability::None
}

// sv: what it says, which is none vulnerable where it is no such word.
pub fn on_sv(text: &[u8], on: bool, v: Span, old: Vulnerability) -> Vulnerability
    ensures { result ≡ pick on (read_sv (trimmed (bytes_at text.now v))) old }
{
    if !on {
        return old;
    }
    read_sv(trim(shown(text, v)))
}

// md: whether it is accepted, which its dealer says.
fn is_dealer(s: &[u8]) -> bool
    ensures { result ≡ is_dealer s.now }
{
    if s.len() == 0 {
        return false;
    }
    (s[0] == b'1') | ((s[0] == b'2') | ((s[0] == b'3') | (s[0] == b'4')))
}

// The value of the last md that was accepted.
pub fn on_md(text: &[u8], on: bool, v: Span, old: Option<Span>) -> Option<Span>
    ensures { result ≡ pick on (last_md text.now v old) old }
{
    if !on {
        return old;
    }
    if is_dealer(trim(shown(text, v))) {
        return Some(v);
    }
    old
}

// mc: an optional plus sign, then digits, at most 255; else the claim becomes absent.
pub fn on_claim(text: &[u8], on: bool, v: Span, old: Option<u8>) -> Option<u8>
    ensures { result ≡ pick on (number_in 255 (trimmed (bytes_at text.now v))) old }
{
    if !on {
        return old;
    }
    match read_number(trim(shown(text, v)), 255) {
        Some(n) => Some(n as u8),
        None => None,
    }
}

// pc: one card more, where the value is a card.
pub fn on_card(text: &[u8], v: Span, n: usize) -> usize
    requires { n < 2 ^ 32 }
    ensures { result ≡ more (read_card (trimmed (bytes_at text.now v))) n }
{
    one_more(read_card(trim(shown(text, v))), n)
}

fn one_more(card: Option<u8>, n: usize) -> usize
    requires { n < 2 ^ 32 }
    ensures { result ≡ more card n }
{
    n + usize::from(card.is_some())
}
