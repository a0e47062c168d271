// The word that a part gives, its length, and the word put after those before it. (01: From PBN, "`=n=` gives note n, .. or stays as written; `$1`
// to `$6` give `!` `?` `!!` `??` `!?` `?!`; runs stay; others and empty words go")
ghost use Rattle.std.specs.Prelude.{◌≡◌, ◌<◌, length};
ghost use Rattle.output.specs.Put.{Room, Put};
ghost use Rattle.pbn_words.specs.Words.{note_named, equals_word, nag_of, front_word, nag_text, word_text, spaced_word};

use crate::parts::is_mark;
use digits::read_number;
use lin_spec::Span;
use output::{put, put_all};
use text::shown;

// Nothing; the part itself; the text of a note; or the mark of `$` and a digit, PBN 3.5.4.
#[derive(Clone, Copy)]
pub enum Word {
    Nothing,
    Itself,
    Note(Span),
    Mark(u8),
}

// The word of a part that names this note.
fn note_named(notes: &[u32; 768], number: u32) -> Word
    requires { number < 256 }
    ensures { result ≡ note_named notes.now number }
{
    let i = number as usize * 3;
    if notes[i] == 0 {
        return Word::Itself;
    }
    let x = Span {
        start: notes[i + 1],
        len: notes[i + 2],
    };
    Word::Note(x)
}

// The word of a part that begins with `=`: nothing, unless another `=` ends it.
fn equals_word(part: &[u8], notes: &[u32; 768]) -> Word
    ensures { result ≡ equals_word notes.now part.now }
{
    if part.len() < 2 {
        return Word::Nothing;
    }
    let last = part.len() - 1;
    if part[last] != b'=' {
        return Word::Nothing;
    }
    match read_number(&part[1..last], 255) {
        Some(n) => note_named(notes, n),
        None => Word::Itself,
    }
}

// The word of a part that begins with `$`: nothing, unless one digit follows.
fn nag_of(part: &[u8]) -> Word
    ensures { result ≡ nag_of part.now }
{
    if part.len() != 2 {
        return Word::Nothing;
    }
    Word::Mark(part[1])
}

// The word of a part, by its first byte.
pub fn part_word(part: &[u8], notes: &[u32; 768]) -> Word
    ensures { result ≡ front_word notes.now part.now }
{
    if part.len() == 0 {
        return Word::Nothing;
    }
    let b = part[0];
    if b == b'=' {
        return equals_word(part, notes);
    }
    if b == b'$' {
        return nag_of(part);
    }
    if is_mark(b) {
        return Word::Itself;
    }
    Word::Nothing
}

// The mark of `$` and a digit, nothing for another byte.
#[tactic(auto, unfolding(lin_spec::specs::Annotation::nag_word, lin_spec::specs::Base::eq_all))]
fn mark_of(d: u8) -> &'static [u8]
    ensures { result.now ≡ nag_text d }
{
    match d {
        b'1' => b"!",
        b'2' => b"?",
        b'3' => b"!!",
        b'4' => b"??",
        b'5' => b"!?",
        b'6' => b"?!",
        _ => b"",
    }
}

// How many bytes a word has. A note is measured, not read.
pub fn word_len(text: &[u8], part: &[u8], word: Word) -> u64
    ensures { result ≡ length (word_text text.now part.now word) }
{
    match word {
        Word::Nothing => 0,
        Word::Itself => part.len() as u64,
        Word::Note(x) => shown(text, x).len() as u64,
        Word::Mark(d) => mark_of(d).len() as u64,
    }
}

// Puts a word, and a space before it if it is a later one. An empty word goes, with its space.
fn put_spaced(out: &mut [u8], at: usize, later: bool, w: &[u8]) -> usize
    requires { Room out.old at (spaced_word later w.now) }
    ensures { Put out.old at (spaced_word later w.now) out.new result }
{
    if w.len() == 0 {
        return at;
    }
    if !later {
        return put_all(out, at, w);
    }
    let a = put(out, at, b' ');
    put_all(out, a, w)
}

// Puts the word of a part so.
pub fn put_spaced_word(
    out: &mut [u8],
    at: usize,
    later: bool,
    text: &[u8],
    part: &[u8],
    word: Word,
) -> usize
    requires { Room out.old at (spaced_word later (word_text text.now part.now word)) }
    ensures { Put out.old at (spaced_word later (word_text text.now part.now word)) out.new result }
{
    match word {
        Word::Nothing => at,
        Word::Itself => put_spaced(out, at, later, part),
        Word::Note(x) => put_spaced(out, at, later, shown(text, x)),
        Word::Mark(d) => put_spaced(out, at, later, mark_of(d)),
    }
}
