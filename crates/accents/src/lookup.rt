// What a character is mapped to, and its class, by the tables. (02: N3)
ghost use Rattle.std.specs.Prelude.{◌≡◌, ◌<◌, ◌≤◌, ◌/◌, ◌%◌, true};
ghost use Rattle.accents.specs.Table.{mapping_table, classes as the_classes};
ghost use Rattle.accents.specs.Mapping.{lookup};
ghost use Rattle.accents.specs.Ordering.{class};
ghost use Rattle.accents.specs.Lines.{table_words, near, block_begin, InBlock, lines_below, answered};

use crate::table::{BLOCKS, CLASSES, MAPPINGS};

// What a character is mapped to.
#[derive(Clone, Copy)]
pub enum Mapped {
    Itself,
    One(u32),
    Two(u32, u32),
}

// A copy of the table. Whoever looks up many takes it once and lends it.
pub fn mappings() -> [u64; 501]
    ensures { result ≡ table_words mapping_table }
{
    MAPPINGS
}

// A copy of the classes.
pub fn classes() -> [u8; 112]
    ensures { result ≡ the_classes }
{
    CLASSES
}

// The three parts of a line's word.
fn char_of(w: u64) -> u32
    ensures { result ≡ w / 4294967296 }
{
    (w / 0x1_0000_0000) as u32
}

fn first_of(w: u64) -> u32
    ensures { result ≡ w / 65536 % 65536 }
{
    (w / 0x1_0000 % 0x1_0000) as u32
}

fn second_of(w: u64) -> u32
    ensures { result ≡ w % 65536 }
{
    (w % 0x1_0000) as u32
}

// Whether `c` stands where lines are: from the first to the last of each of three runs. Most characters do not.
fn near_lines(c: u32) -> bool
    ensures { result ≡ near c }
{
    ((0xC0 <= c) & (c <= 0x233)) | ((0x340 <= c) & (c <= 0x344)) | ((0x1E00 <= c) & (c <= 0x1EF9))
}

// The number of the block of sixteen characters in which `c` stands.
fn block_of(c: u32) -> usize
    requires { near c ≡ true }
    ensures { InBlock c result }
{
    if c < 0x1E00 {
        return (c / 16 - 12) as usize;
    }
    (c / 16 - 439) as usize
}

// How many lines are for characters below the block of a number.
fn lines_before(k: usize) -> usize
    requires { k < 57 }
    ensures { (result ≡ lines_below mapping_table (block_begin k)) × (result ≤ 501) }
{
    BLOCKS[k] as usize
}

// The number of the first line that is not for a character below `c`, by halves. It is within sixteen lines of the first of its block, and as many are
// searched in every block but the last, so that each search takes as many steps.
fn line_of(mappings: &[u64; 501], c: u32) -> usize
    requires { (mappings.now ≡ table_words mapping_table) × (near c ≡ true) }
    ensures { result ≡ lines_below mapping_table c }
{
    let low = lines_before(block_of(c));
    let high = (low + 16).min(501);
    low + mappings[low..high].partition_point(|&w| char_of(w) < c)
}

// What `c` is mapped to, by a copy of the table.
pub fn mapping_of(mappings: &[u64; 501], c: u32) -> Mapped
    requires { mappings.now ≡ table_words mapping_table }
    ensures { answered c result ≡ lookup mapping_table c }
{
    if !near_lines(c) {
        return Mapped::Itself;
    }
    let i = line_of(mappings, c);
    if 501 <= i {
        return Mapped::Itself;
    }
    let w = mappings[i];
    if char_of(w) != c {
        return Mapped::Itself;
    }
    let a = first_of(w);
    let b = second_of(w);
    if b == 0 {
        return Mapped::One(a);
    }
    Mapped::Two(a, b)
}

// The combining class of `c`, by a copy of the classes.
pub fn class_of(classes: &[u8; 112], c: u32) -> u8
    requires { classes.now ≡ the_classes }
    ensures { result ≡ class c }
{
    if c < 0x300 {
        return 0;
    }
    if 0x36F < c {
        return 0;
    }
    let i = (c - 0x300) as usize;
    classes[i]
}
