// A PBN record that is lent as numbers: the record that they are, and whether a code is outside its range. (01: From PBN; Eight refusals, 8)
ghost use Rattle.std.specs.Prelude.{◌≡◌};
ghost use Rattle.lin_host_numbers.specs.Records.{record_of, bad_names, bad_record};

use crate::boards::LinText;
use crate::codes::{bad_given, bad_three, text_of, vulnerability_of};
use lin_spec::{Deal, PbnBoard, Seat};

// A PBN record without its calls, its play and its notes. Each flag is 0 or 1, and what it says is not given is not looked at.
#[repr(C)]
#[derive(Clone, Copy)]
pub struct LinPbn {
    // The names.
    pub south: LinText,
    pub west: LinText,
    pub north: LinText,
    pub east: LinText,
    pub event: LinText,
    pub date: LinText,
    pub id: LinText,
    // 1 to 65,535.
    pub number_given: u32,
    pub number: u32,
    // 0 to 3 for S W N E.
    pub dealer_given: u32,
    pub dealer: u32,
    // 0 none, 1 NS, 2 EW, 3 both.
    pub vulnerability: u32,
    pub result_given: u32,
    pub result: i32,
    // The count of a card is at seat times 52 plus card.
    pub counts: [u32; 208],
}

// The record of these numbers.
#[tactic(auto, unfolding(crate::specs::Records::record_of))]
pub fn record_of(b: LinPbn) -> PbnBoard
    ensures { result ≡ record_of b }
{
    let counts = b.counts;
    PbnBoard {
        south: text_of(b.south),
        west: text_of(b.west),
        north: text_of(b.north),
        east: text_of(b.east),
        event: text_of(b.event),
        date: text_of(b.date),
        id: text_of(b.id),
        number: (b.number_given != 0).then_some(b.number),
        dealer: (b.dealer_given != 0).then_some(Seat::at(b.dealer as usize)),
        deal: Deal { counts },
        vulnerability: vulnerability_of(b.vulnerability),
        result: (b.result_given != 0).then_some(b.result),
    }
}

// Whether a name is neither there nor absent.
fn bad_names(b: LinPbn) -> bool
    ensures { result ≡ bad_names b }
{
    1 < b.south.present || bad_three(b.west, b.north, b.east)
}

// Whether a code is outside its range. The entry looks at the number itself.
#[tactic(auto, unfolding(crate::specs::Records::bad_record))]
pub fn bad_record_codes(b: LinPbn) -> bool
    ensures { result ≡ bad_record b }
{
    bad_names(b)
        || bad_three(b.event, b.date, b.id)
        || bad_given(b.dealer_given, b.dealer, 3)
        || 3 < b.vulnerability
        || 1 < b.number_given
        || 1 < b.result_given
}
