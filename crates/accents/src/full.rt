// Characters mapped until no mapping applies, and how many they are. (02: N3)
ghost use Rattle.std.specs.Prelude.{◌≡◌, ◌<◌, length};
ghost use Rattle.accents.specs.Table.{mapping_table};
ghost use Rattle.accents.specs.Lines.{table_words, FullIs};
ghost use Rattle.accents.specs.Names.{places};

use crate::chars::char_at;
use crate::lookup::{Mapped, mapping_of};

// One to three characters: the first `count` of the three.
#[derive(Clone, Copy)]
pub struct Full {
    pub count: usize,
    pub first: u32,
    pub second: u32,
    pub third: u32,
}

// What `c` is mapped to until no mapping applies, by a copy of the table. Of what a line gives only the first can have a mapping, and what that
// gives has none.
pub fn full_of(mappings: &[u64; 501], c: u32) -> Full
    requires { mappings.now ≡ table_words mapping_table }
    ensures { FullIs c result }
{
    match mapping_of(mappings, c) {
        Mapped::Itself => Full {
            count: 1,
            first: c,
            second: 0,
            third: 0,
        },
        Mapped::One(a) => Full {
            count: 1,
            first: a,
            second: 0,
            third: 0,
        },
        Mapped::Two(a, b) => match mapping_of(mappings, a) {
            Mapped::Itself => Full {
                count: 2,
                first: a,
                second: b,
                third: 0,
            },
            Mapped::One(x) => Full {
                count: 2,
                first: x,
                second: b,
                third: 0,
            },
            Mapped::Two(x, y) => Full {
                count: 3,
                first: x,
                second: y,
                third: b,
            },
        },
    }
}

// How many characters a text is mapped to.
pub fn mapped_len(mappings: &[u64; 501], s: &[u8]) -> usize
    requires { (mappings.now ≡ table_words mapping_table) × (length s.now < 4294967296) }
    ensures { result ≡ places s.now }
{
    let mut n: usize = 0;
    let mut i: usize = 0;
    while i < s.len() {
        let c = char_at(s, i);
        let f = full_of(mappings, c.number);
        n += f.count;
        i = c.next;
    }
    n
}
