// The document writer: rows of four words and a trailing span, into one output. (01: Tokens, "A document to write ..")
ghost use Rattle.std.specs.Prelude.{◌≡◌, true, false, ◌&&◌, ◌||◌, ◌+◌, ◌-◌, ◌≤◌, length, leb};
ghost use Rattle.lin_spec.specs.Records.{limit, end_of};
ghost use Rattle.lin_spec.specs.Refusals.{passes_end, ill_span};
ghost use Rattle.lin_spec.specs.Utf8.{longest};
ghost use Rattle.lin_spec.specs.Output.{Outcome};
ghost use Rattle.lin_spec.specs.Document.{document_text, write_document};
ghost use Rattle.text.specs.Index.{Indexed};
ghost use Rattle.output.specs.Put.{Room, Put};
ghost use Rattle.document_writer.specs.Rows.{document_row_at, document_row, token_text, Stands, run_text, RunAt, looked, Lawful};

use lin_spec::{LIMIT, Refusal, Span, room};
use output::{put, put_all, put_span, sat_add};
use text::{index_text, near_ill, part, past_end, span_ill, well_formed_len};

// A command and a value to write.
#[derive(Clone, Copy)]
struct Row {
    command: Span,
    value: Span,
}

// The row that four words give.
fn row_of(words: [u32; 4]) -> Row
    ensures { result ≡ document_row (document_row_at words 0) }
{
    let command = Span {
        start: words[0],
        len: words[1],
    };
    let value = Span {
        start: words[2],
        len: words[3],
    };
    Row { command, value }
}

// The row that the four words from i on give.
fn document_row_at(rows: &[u32], i: usize) -> Row
    requires { 4 ≤ length rows.now - i }
    ensures { result ≡ document_row (document_row_at rows.now i) }
{
    row_of([rows[i], rows[i + 1], rows[i + 2], rows[i + 3]])
}

// Puts a command and a value, each with a pipe after it.
fn put_token(out: &mut [u8], at: usize, text: &[u8], row: Row) -> usize
    requires { Room out.old at (token_text text.now row) }
    ensures { Put out.old at (token_text text.now row) out.new result }
{
    let a = put_span(out, at, text, row.command);
    let b = put(out, a, b'|');
    let c = put_span(out, b, text, row.value);
    put(out, c, b'|')
}

// Rows that stand in the text one after the other with their pipes, by how many words and how many bytes they have; or one row that does not.
#[derive(Clone, Copy)]
struct Run {
    words: usize,
    len: usize,
    stands: bool,
}

// Where a row ends that stands in the text from a place on, with its pipes; the place itself where it does not.
fn row_end(text: &[u8], at: usize, row: Row) -> usize
    ensures { Stands text.now at row result }
{
    let command = row.command;
    let value = row.value;
    let start = command.start as usize;
    let p = start + command.len as usize;
    let v = value.start as usize;
    let q = v + value.len as usize;
    if text.len() <= q {
        return at;
    }
    if v != p + 1 {
        return at;
    }
    if start != at {
        return at;
    }
    if (text[p] == b'|') & (text[q] == b'|') {
        return q + 1;
    }
    at
}

// A word as a place.
fn as_place(w: u32) -> usize
    ensures { result ≡ w }
{
    w as usize
}

// The run of rows from the word i on.
fn run_at(text: &[u8], rows: &[u32], i: usize) -> Run
    requires { 4 ≤ length rows.now - i }
    ensures { RunAt text.now rows.now i result }
{
    let start = as_place(rows[i]);
    let first = row_end(text, start, document_row_at(rows, i));
    if first == start {
        return Run {
            words: 4,
            len: 0,
            stands: false,
        };
    }
    let mut words = 4;
    let mut stop = first;
    for &row in rows[i + 4..].as_chunks::<4>().0 {
        let next = row_end(text, stop, row_of(row));
        if next == stop {
            break;
        }
        stop = next;
        words += 4;
    }
    Run {
        words,
        len: stop - start,
        stands: true,
    }
}

// Puts the rows of a run.
fn put_run(out: &mut [u8], at: usize, text: &[u8], rows: &[u32], i: usize, run: Run) -> usize
    requires { Room out.old at (run_text text.now rows.now i run) × (4 ≤ length rows.now - i) }
    ensures { Put out.old at (run_text text.now rows.now i run) out.new result }
{
    if run.stands {
        return put_all(out, at, part(text, as_place(rows[i]), run.len));
    }
    put_token(out, at, text, document_row_at(rows, i))
}

// Puts all rows and the trailing text.
fn put_document(out: &mut [u8], text: &[u8], rows: &[u32], trailing: Span) -> usize
    requires { Room out.old 0 (document_text text.now rows.now trailing) }
    ensures { Put out.old 0 (document_text text.now rows.now trailing) out.new result }
{
    let mut i = 0;
    let mut o = 0;
    // The place goes on by runs, which differ in length.
    while 4 <= rows.len() - i {
        let run = run_at(text, rows, i);
        o = put_run(out, o, text, rows, i, run);
        i += run.words;
    }
    put_span(out, o, text, trailing)
}

// Whether a span ends at or before a place.
fn ends_by(place: usize, x: Span) -> bool
    ensures { result ≡ leb (end_of x) place }
{
    x.start as usize + x.len as usize <= place
}

// Whether both spans of a row end at or before a place: nearly always they end before the first ill-formed one.
fn row_near(place: usize, row: Row) -> bool
    ensures { result ≡ (leb (end_of row.command) place && leb (end_of row.value) place) }
{
    ends_by(place, row.command) & ends_by(place, row.value)
}

// Whether a span of a row passes the end of the text.
fn row_past(text: &[u8], first: usize, row: Row) -> bool
    requires { first ≤ length text.now }
    ensures { result ≡ (passes_end text.now row.command || passes_end text.now row.value) }
{
    if row_near(first, row) {
        return false;
    }
    past_end(text, row.command) | past_end(text, row.value)
}

// Whether a span of a row is not UTF-8.
fn row_ill(text: &[u8], first: usize, next: &[u32], row: Row) -> bool
    requires { (first ≡ longest text.now) × Indexed text.now next.now }
    ensures { result ≡ (ill_span text.now row.command || ill_span text.now row.value) }
{
    if row_near(first, row) {
        return near_ill(text, first, row.command) | near_ill(text, first, row.value);
    }
    span_ill(text, next, row.command) | span_ill(text, next, row.value)
}

// Both spans of a row, which are within the text, and two pipes.
fn row_size(row: Row) -> u64
    ensures { result ≡ row.command.len + row.value.len + 2 }
{
    let command = row.command;
    let value = row.value;
    command.len as u64 + value.len as u64 + 2
}

// Looks at every row once: refusal 5 or 6, or neither, with how many bytes the document has.
fn look_at_rows(
    text: &[u8],
    first: usize,
    next: &[u32],
    rows: &[u32],
    trailing: Span,
) -> Result<u64, Refusal>
    requires { (first ≡ longest text.now) × Indexed text.now next.now }
    ensures { result ≡ looked text.now rows.now trailing }
{
    let mut n = 0;
    let mut ill = false;
    for &words in rows.as_chunks::<4>().0 {
        let row = row_of(words);
        if row_past(text, first, row) {
            return Err(Refusal::SpanPastEnd);
        }
        ill = ill | row_ill(text, first, next, row);
        n = sat_add(n, row_size(row));
    }
    if past_end(text, trailing) {
        return Err(Refusal::SpanPastEnd);
    }
    if ill | span_ill(text, next, trailing) {
        return Err(Refusal::SpanNotUtf8);
    }
    Ok(sat_add(n, trailing.len as u64))
}

// Writes a document that 5 and 6 do not meet, if there is room for it.
fn write_fitting(
    text: &[u8],
    rows: &[u32],
    trailing: Span,
    out: &mut [u8],
    need: u64,
) -> Result<usize, Refusal>
    requires { Lawful text.now rows.now trailing need }
    ensures { ◌≡◌ {A = Outcome} (record { answer = result; output = out.new }) (write_document text.now rows.now trailing out.old) }
{
    if (room(out.len()) as u64) < need {
        return Err(Refusal::OutputTooSmall(need));
    }
    let n = put_document(out, text, rows, trailing);
    Ok(n)
}

// Writes a document over a text that is within the limit.
fn write_looked(
    text: &[u8],
    first: usize,
    next: &[u32],
    rows: &[u32],
    trailing: Span,
    out: &mut [u8],
) -> Result<usize, Refusal>
    requires { (length text.now ≤ limit) × (first ≡ longest text.now) × Indexed text.now next.now }
    ensures { ◌≡◌ {A = Outcome} (record { answer = result; output = out.new }) (write_document text.now rows.now trailing out.old) }
{
    let need = look_at_rows(text, first, next, rows, trailing)?;
    write_fitting(text, rows, trailing, out, need)
}

// The same, with an index of every block.
fn write_indexed(
    text: &[u8],
    first: usize,
    rows: &[u32],
    trailing: Span,
    out: &mut [u8],
) -> Result<usize, Refusal>
    requires { (length text.now ≤ limit) × (first ≡ longest text.now) }
    ensures { ◌≡◌ {A = Outcome} (record { answer = result; output = out.new }) (write_document text.now rows.now trailing out.old) }
{
    let mut next = [0; 1025];
    index_text(text, &mut next);
    write_looked(text, first, &next, rows, trailing, out)
}

// Whether the rows have together more bytes than so many. It says only how to look, which no answer depends on, so it promises nothing.
fn rows_pass(bytes: usize, rows: &[u32]) -> bool {
    let mut left = bytes as u64;
    for &words in rows.as_chunks::<4>().0 {
        let n = row_size(row_of(words));
        if left < n {
            return true;
        }
        left -= n;
    }
    false
}

// Writes the document from the first byte of the output on, and gives its length; or refuses, and changes nothing.
pub fn write_document(
    text: &[u8],
    rows: &[u32],
    trailing: Span,
    out: &mut [u8],
) -> Result<usize, Refusal>
    ensures { ◌≡◌ {A = Outcome} (record { answer = result; output = out.new }) (write_document text.now rows.now trailing out.old) }
{
    if LIMIT < text.len() {
        return Err(Refusal::TextTooLong);
    }
    let first = well_formed_len(text);
    if first < text.len() {
        if rows_pass(text.len(), rows) {
            return write_indexed(text, first, rows, trailing, out);
        }
    }
    let next = [first as u32];
    write_looked(text, first, &next, rows, trailing, out)
}
