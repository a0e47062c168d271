// The first part of a written board, its heading texts: title, names, room and header. (01: Writer)
ghost use Rattle.std.specs.Prelude.{◌≡◌, length};
ghost use Rattle.lin_spec.specs.Refusals.{sat};
ghost use Rattle.output.specs.Put.{Room, Put};
ghost use Rattle.writer.specs.Pieces.{heading_text};

use board_lent::Head;
use output::{put_all, sat_add};
use writer_texts::{Marks, header_len, names_len, put_ah, put_names, put_text, text_len};

const MN_TEXT: [u8; 3] = *b"mn|";

const PN_TEXT: [u8; 4] = *b"|pn|";

const QX_TEXT: [u8; 4] = *b"|qx|";

const RH_TEXT: [u8; 5] = *b"|rh||";

// Puts the heading texts.
pub(crate) fn put_heading(out: &mut [u8], at: usize, text: &[u8], head: Head, marks: Marks) -> usize
    requires { Room out.old at (heading_text marks.pipe marks.line text.now head) }
    ensures { Put out.old at (heading_text marks.pipe marks.line text.now head) out.new result }
{
    let names = head.names;
    let title = head.title;
    let room_board = head.room_board;
    let board_header = head.board_header;
    let a = put_all(out, at, &MN_TEXT);
    let b = put_text(out, a, text, title, marks);
    let c = put_all(out, b, &PN_TEXT);
    let d = put_names(out, c, text, names, marks);
    let e = put_all(out, d, &QX_TEXT);
    let f = put_text(out, e, text, room_board, marks);
    let g = put_all(out, f, &RH_TEXT);
    put_ah(out, g, text, board_header, marks)
}

pub(crate) fn heading_len(text: &[u8], head: Head, marks: Marks) -> u64
    ensures { result ≡ sat (length (heading_text marks.pipe marks.line text.now head)) }
{
    let names = head.names;
    let title = head.title;
    let room_board = head.room_board;
    let board_header = head.board_header;
    let a = sat_add(16, text_len(text, title));
    let b = sat_add(a, names_len(text, names, marks));
    let c = sat_add(b, text_len(text, room_board));
    sat_add(c, header_len(text, board_header))
}
