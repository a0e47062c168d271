// The lines: each put at a place that has room, its length, and as an entry that fills an output from the first byte on or is refused by 7.
// (01: Program linlist; refusal 7)
ghost use Rattle.std.specs.Prelude.{◌≡◌, length};
ghost use Rattle.lin_spec.specs.Refusals.{sat};
ghost use Rattle.lin_spec.specs.Output.{Outcome};
ghost use Rattle.lin_spec.specs.Listing.{header, board_line, refusal_line, heading_line, write_line};
ghost use Rattle.output.specs.Put.{Room, Put};

use crate::words::{
    claim_len, field_len, lengths_len, put_claim, put_field, put_lengths, put_letters, put_number,
};
use lin_spec::{Heading, Refusal, room};
use output::{decimal_len, put, put_all, put_decimal, sat_add};

const HEADER: [u8; 43] = *b"board dealer vul S W N E calls cards claim\n";

const REFUSED: [u8; 8] = *b"refused ";

// Puts the header.
pub fn put_header(out: &mut [u8], at: usize) -> usize
    requires { Room out.old at header }
    ensures { Put out.old at header out.new result }
{
    put_all(out, at, &HEADER)
}

// Puts the line of a board.
pub fn put_board_line(out: &mut [u8], at: usize, number: u64, heading: Heading) -> usize
    requires { Room out.old at (board_line number heading) }
    ensures { Put out.old at (board_line number heading) out.new result }
{
    let board = heading.board;
    let a = put_decimal(out, at, number);
    let b = put_letters(out, a, board.dealer, board.vulnerability);
    let c = put_lengths(out, b, board.deal);
    let d = put_field(out, c, heading.calls as u64);
    let e = put_field(out, d, heading.cards as u64);
    let f = put(out, e, b' ');
    let g = put_claim(out, f, board.claim);
    put(out, g, b'\n')
}

pub fn board_line_len(number: u64, heading: Heading) -> u64
    ensures { result ≡ sat (length (board_line number heading)) }
{
    let board = heading.board;
    let a = sat_add(decimal_len(number), 4);
    let b = sat_add(a, lengths_len(board.deal));
    let c = sat_add(b, field_len(heading.calls as u64));
    let d = sat_add(c, field_len(heading.cards as u64));
    sat_add(d, sat_add(claim_len(board.claim), 2))
}

// Puts the line of a refusal.
pub fn put_refusal_line(out: &mut [u8], at: usize, refusal: Refusal) -> usize
    requires { Room out.old at (refusal_line refusal) }
    ensures { Put out.old at (refusal_line refusal) out.new result }
{
    let a = put_all(out, at, &REFUSED);
    let b = put_number(out, a, refusal);
    put(out, b, b'\n')
}

pub fn refusal_line_len(refusal: Refusal) -> u64
    ensures { result ≡ sat (length (refusal_line refusal)) }
{
    sat_add(decimal_len(refusal.number() as u64), 9)
}

// The header.
pub fn header_line(out: &mut [u8]) -> Result<usize, Refusal>
    ensures { ◌≡◌ {A = Outcome} (record { answer = result; output = out.new }) (write_line header out.old) }
{
    let need = HEADER.len() as u64;
    if (room(out.len()) as u64) < need {
        return Err(Refusal::OutputTooSmall(need));
    }
    let n = put_header(out, 0);
    Ok(n)
}

// The line of a board that was read.
fn accepted_line(number: u64, heading: Heading, out: &mut [u8]) -> Result<usize, Refusal>
    ensures { ◌≡◌ {A = Outcome} (record { answer = result; output = out.new }) (write_line (board_line number heading) out.old) }
{
    let need = board_line_len(number, heading);
    if (room(out.len()) as u64) < need {
        return Err(Refusal::OutputTooSmall(need));
    }
    let n = put_board_line(out, 0, number, heading);
    Ok(n)
}

// The line of a refusal.
pub fn refusal_line(refusal: Refusal, out: &mut [u8]) -> Result<usize, Refusal>
    ensures { ◌≡◌ {A = Outcome} (record { answer = result; output = out.new }) (write_line (refusal_line refusal) out.old) }
{
    let need = refusal_line_len(refusal);
    if (room(out.len()) as u64) < need {
        return Err(Refusal::OutputTooSmall(need));
    }
    let n = put_refusal_line(out, 0, refusal);
    Ok(n)
}

// The line of a heading: that of its board, or of the refusal.
pub fn board_line(
    number: u64,
    heading: Result<Heading, Refusal>,
    out: &mut [u8],
) -> Result<usize, Refusal>
    ensures { ◌≡◌ {A = Outcome} (record { answer = result; output = out.new }) (write_line (heading_line number heading) out.old) }
{
    match heading {
        Ok(heading) => accepted_line(number, heading, out),
        Err(r) => refusal_line(r, out),
    }
}
