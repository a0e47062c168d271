#![tactic(auto)]

// The types that the entries share: spans, boards and refusals. What can be absent is an Option, and what can be refused a Result with a Refusal. (01: Records, Eight refusals; 02: N1)
ghost use Rattle.std.specs.Prelude.{◌≡◌, ◌<◌, min};
ghost use Rattle.lin_spec.specs.Fresh.{fresh_deal, fresh_board};
ghost use Rattle.lin_spec.specs.Records.{limit};
ghost use Rattle.lin_spec.specs.Reading.{flag};
ghost use Rattle.lin_spec.specs.Lent.{row_of};
ghost use Rattle.lin_spec.specs.Refusals.{number_of, kind_of, carried_of};
ghost use Rattle.lin_spec.specs.Letters.{seat_number, seat_at, seat_letter, sv_letter};

// The bytes of the longest text, and the most of an output that is ever filled.
pub const LIMIT: usize = 1_048_576;

// A start and a length in bytes, into a text lent beside the record.
#[derive(Clone, Copy, Debug, PartialEq, Eq)]
pub struct Span {
    pub start: u32,
    pub len: u32,
}

// The rows that refusal 3 speaks of.
#[derive(Clone, Copy, Debug, PartialEq, Eq)]
pub enum RowKind {
    Calls,
    Cards,
}

// The refusals, with what each carries: the eight of 01, and those that the requests of 02 add.
#[derive(Clone, Copy, Debug, PartialEq, Eq)]
pub enum Refusal {
    TextTooLong,
    NotUtf8(u64),
    TooFewRows(RowKind, u64),
    NoBoard(u64),
    SpanPastEnd,
    SpanNotUtf8,
    OutputTooSmall(u64),
    OutOfRange,
    BidUnknown(u64),
}

impl Refusal {
    // The number that 01 or 02 gives it.
    pub fn number(self) -> u32
        ensures { result ≡ number_of self }
    {
        match self {
            Refusal::TextTooLong => 1,
            Refusal::NotUtf8(_) => 2,
            Refusal::TooFewRows(_, _) => 3,
            Refusal::NoBoard(_) => 4,
            Refusal::SpanPastEnd => 5,
            Refusal::SpanNotUtf8 => 6,
            Refusal::OutputTooSmall(_) => 7,
            Refusal::OutOfRange => 8,
            Refusal::BidUnknown(_) => 9,
        }
    }

    // The kind of rows that refusal 3 carries: 0 for calls, 1 for cards; 0 for the others.
    pub fn kind(self) -> u32
        ensures { result ≡ kind_of self }
    {
        match self {
            Refusal::TooFewRows(RowKind::Cards, _) => 1,
            _ => 0,
        }
    }

    // The length, count or index that it carries, 0 where it carries none.
    pub fn carried(self) -> u64
        ensures { result ≡ carried_of self }
    {
        match self {
            Refusal::NotUtf8(n)
            | Refusal::TooFewRows(_, n)
            | Refusal::NoBoard(n)
            | Refusal::OutputTooSmall(n)
            | Refusal::BidUnknown(n) => n,
            _ => 0,
        }
    }
}

// The most of an output of this length that is ever filled.
pub fn room(len: usize) -> usize
    ensures { result ≡ min len limit }
{
    len.min(LIMIT)
}

#[derive(Clone, Copy, Debug, PartialEq, Eq)]
pub enum Seat {
    South,
    West,
    North,
    East,
}

impl Seat {
    // The seat of a number in the order of LIN, which is that of `Board::SEATS`; East for a number that no seat has.
    pub fn at(number: usize) -> Self
        ensures { result ≡ seat_at number }
    {
        let seats = Board::SEATS;
        if number < 4 {
            return seats[number];
        }
        Seat::East
    }

    // Its place in the order of LIN.
    pub fn number(self) -> usize
        ensures { (result ≡ seat_number self) × (result < 4) }
    {
        match self {
            Seat::South => 0,
            Seat::West => 1,
            Seat::North => 2,
            Seat::East => 3,
        }
    }

    // The letter that a listing shows.
    pub fn letter(self) -> u8
        ensures { result ≡ seat_letter self }
    {
        match self {
            Seat::South => b'S',
            Seat::West => b'W',
            Seat::North => b'N',
            Seat::East => b'E',
        }
    }
}

#[derive(Clone, Copy, Debug, PartialEq, Eq)]
pub enum Vulnerability {
    None,
    NorthSouth,
    EastWest,
    Both,
}

impl Vulnerability {
    // The letter of a written sv.
    pub fn letter(self) -> u8
        ensures { result ≡ sv_letter self }
    {
        match self {
            Vulnerability::None => b'0',
            Vulnerability::NorthSouth => b'n',
            Vulnerability::EastWest => b'e',
            Vulnerability::Both => b'b',
        }
    }
}

// Four hands of 52 counts each, in the order of the seats: the count of a card is at seat times 52 plus card.
#[derive(Clone, Copy)]
pub struct Deal {
    pub counts: [u32; 208],
}

impl Deal {
    // How many cards there are.
    pub const CARDS: usize = 52;

    // No card in any hand.
    pub fn new() -> Self
        ensures { result ≡ fresh_deal }
    {
        Deal { counts: [0; 208] }
    }
}

// A board. Its calls and its play stand in lists lent beside it.
#[derive(Clone, Copy)]
pub struct Board {
    pub names: [Span; 4],
    pub dealer: Seat,
    pub deal: Deal,
    pub vulnerability: Vulnerability,
    pub title: Option<Span>,
    pub room_board: Option<Span>,
    pub board_header: Option<Span>,
    pub claim: Option<u8>,
}

impl Board {
    // The seats in the order of LIN: South, West, North, East.
    pub const SEATS: [Seat; 4] = [Seat::South, Seat::West, Seat::North, Seat::East];

    // A board before its first token.
    pub fn new() -> Self
        ensures { result ≡ fresh_board }
    {
        let none = Span { start: 0, len: 0 };
        Board {
            names: [none, none, none, none],
            dealer: Seat::North,
            deal: Deal { counts: [0; 208] },
            vulnerability: Vulnerability::None,
            title: None,
            room_board: None,
            board_header: None,
            claim: None,
        }
    }
}

// A call as six numbers: alerted and annotated are 0 or 1, and an absent annotation is at 0, 0.
#[derive(Clone, Copy, Debug, PartialEq, Eq)]
pub struct Call {
    pub bid: Span,
    pub alerted: u32,
    pub annotated: u32,
    pub annotation: Span,
}

impl Call {
    // A call by its bid, whether it is alerted, and its annotation.
    pub fn new(bid: Span, alerted: bool, annotation: Option<Span>) -> Call
        ensures { result ≡ row_of (record { bid = bid; alerted = alerted; annotation = annotation }) }
    {
        Call {
            bid,
            alerted: u32::from(alerted),
            annotated: u32::from(annotation.is_some()),
            annotation: annotation.unwrap_or(Span { start: 0, len: 0 }),
        }
    }
}

// A board without its rows, and how many calls and cards it has.
#[derive(Clone, Copy)]
pub struct Heading {
    pub board: Board,
    pub calls: usize,
    pub cards: usize,
}

// A call of a PBN record as six numbers. kind is 0 to 5: pass, double, redouble, bid, continue, blank; level is 1 to 7 and strain 0 to 4 for
// C D H S N, of a bid; annotated is 0 or 1.
#[derive(Clone, Copy)]
pub struct PbnCall {
    pub kind: u32,
    pub level: u32,
    pub strain: u32,
    pub annotated: u32,
    pub annotation: Span,
}

// A PBN record. Its calls, its play and its notes stand in lists lent beside it. The first four are the names, in the order of LIN.
#[derive(Clone, Copy)]
pub struct PbnBoard {
    pub south: Option<Span>,
    pub west: Option<Span>,
    pub north: Option<Span>,
    pub east: Option<Span>,
    pub event: Option<Span>,
    pub date: Option<Span>,
    pub id: Option<Span>,
    pub number: Option<u32>,
    pub dealer: Option<Seat>,
    pub deal: Deal,
    pub vulnerability: Vulnerability,
    pub result: Option<i32>,
}

// A board made from a PBN record, and how many bytes its texts have.
#[derive(Clone, Copy)]
pub struct Converted {
    pub heading: Heading,
    pub len: usize,
}
