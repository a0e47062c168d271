// Title, room-and-board and header as they are before cleaning, put into an output at a place that has room, and how many bytes the title and
// a label have. (01: From PBN)
ghost use Rattle.std.specs.Prelude.{◌≡◌, ◌+◌, ◌≤◌, length};
ghost use Rattle.lin_spec.specs.Refusals.{sat};
ghost use Rattle.output.specs.Put.{Room, Put};
ghost use Rattle.writer_texts.specs.Texts.{empty_or};
ghost use Rattle.pbn_texts.specs.Texts.{label_bytes, dated_text, title_text, labels_text, labelled_text};

use crate::sources::Label;
use lin_spec::Span;
use output::{decimal_len, put_all, put_decimal, put_span, sat_add};
use text::shown;
use writer_texts::text_len;

const DASH: [u8; 3] = *b" - ";

const O: [u8; 1] = *b"o";

const COMMA_BOARD: [u8; 7] = *b",BOARD ";

const BOARD: [u8; 6] = *b"Board ";

// Puts a label, nothing where it is absent.
fn put_label(out: &mut [u8], at: usize, text: &[u8], l: Option<Label>) -> usize
    requires { Room out.old at (label_bytes text.now l) }
    ensures { Put out.old at (label_bytes text.now l) out.new result }
{
    match l {
        None => at,
        Some(Label::Id(x)) => put_span(out, at, text, x),
        Some(Label::Number(n)) => put_decimal(out, at, n as u64),
    }
}

// An id is within the text, and a number has at most ten digits.
pub(crate) fn label_len(text: &[u8], l: Option<Label>) -> u64
    ensures { (result ≡ length (label_bytes text.now l)) × (result ≤ length text.now + 10) }
{
    match l {
        None => 0,
        Some(Label::Id(x)) => shown(text, x).len() as u64,
        Some(Label::Number(n)) => decimal_len(n as u64),
    }
}

// Puts a text, nothing where it is absent.
fn put_uncleaned(out: &mut [u8], at: usize, text: &[u8], x: Option<Span>) -> usize
    requires { Room out.old at (empty_or text.now x) }
    ensures { Put out.old at (empty_or text.now x) out.new result }
{
    match x {
        None => at,
        Some(y) => put_span(out, at, text, y),
    }
}

// Puts a title that has a date.
fn put_dated(out: &mut [u8], at: usize, text: &[u8], event: Option<Span>, date: Span) -> usize
    requires { Room out.old at (dated_text text.now event date) }
    ensures { Put out.old at (dated_text text.now event date) out.new result }
{
    let a = put_uncleaned(out, at, text, event);
    let b = put_all(out, a, &DASH);
    put_span(out, b, text, date)
}

// Puts the title, nothing where it is absent.
pub(crate) fn put_title(
    out: &mut [u8],
    at: usize,
    text: &[u8],
    event: Option<Span>,
    date: Option<Span>,
) -> usize
    requires { Room out.old at (title_text text.now event date) }
    ensures { Put out.old at (title_text text.now event date) out.new result }
{
    match date {
        None => put_uncleaned(out, at, text, event),
        Some(d) => put_dated(out, at, text, event, d),
    }
}

// Puts room-and-board and header with a label.
fn put_labels(out: &mut [u8], at: usize, text: &[u8], l: Option<Label>) -> usize
    requires { Room out.old at (labels_text text.now l) }
    ensures { Put out.old at (labels_text text.now l) out.new result }
{
    let a = put_all(out, at, &O);
    let b = put_label(out, a, text, l);
    let c = put_all(out, b, &COMMA_BOARD);
    let d = put_label(out, c, text, l);
    let e = put_all(out, d, &BOARD);
    put_label(out, e, text, l)
}

// Puts room-and-board and header, nothing where there is no label.
pub(crate) fn put_labelled(out: &mut [u8], at: usize, text: &[u8], l: Option<Label>) -> usize
    requires { Room out.old at (labelled_text text.now l) }
    ensures { Put out.old at (labelled_text text.now l) out.new result }
{
    if l.is_some() {
        return put_labels(out, at, text, l);
    }
    at
}

pub(crate) fn title_len(text: &[u8], event: Option<Span>, date: Option<Span>) -> u64
    ensures { result ≡ sat (length (title_text text.now event date)) }
{
    let n = text_len(text, event);
    match date {
        None => n,
        Some(d) => sat_add(n, sat_add(3, shown(text, d).len() as u64)),
    }
}
