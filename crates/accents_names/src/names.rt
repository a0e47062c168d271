// The name that is looked for, and whether another is the same. (02: N3, "Two names are the same exactly when the results are equal.")
ghost use Rattle.std.specs.Prelude.{◌≡◌, ◌<◌, length};
ghost use Rattle.accents.specs.Table.{mapping_table};
ghost use Rattle.accents.specs.Lines.{table_words};
ghost use Rattle.accents.specs.Names.{same_name};
ghost use Rattle.accents_names.specs.Work.{Fillable, Known, Laid, Comparable};

use crate::work::{put_mapped, same_parts};
use accents::mapped_len;
use text::same_bytes;

// What is to be known of the name that is looked for: how many characters it is mapped to, and whether its bytes are of ASCII.
#[derive(Clone, Copy)]
pub struct Sought {
    pub places: usize,
    pub ascii: bool,
}

// What is to be known of a name, by a copy of the table.
pub fn sought_of(mappings: &[u64; 501], name: &[u8]) -> Sought
    requires { (mappings.now ≡ table_words mapping_table) × (length name.now < 4294967296) }
    ensures { Known name.now result }
{
    let places = mapped_len(mappings, name);
    let ascii = name.iter().all(|&b| b < 0x80);
    Sought { places, ascii }
}

// Puts the mapped characters of the name that is looked for at the front of the work space. One of ASCII is compared by its bytes, and needs none there.
pub fn lay_sought(mappings: &[u64; 501], name: &[u8], sought: Sought, work: &mut [u32])
    requires { Known name.now sought × Fillable mappings.now name.now work.old 0 }
    ensures { Laid name.now sought work.new × (length work.new ≡ length work.old) }
{
    if sought.ascii {
        return;
    }
    put_mapped(mappings, name, work, 0);
}

// Whether `x` is the same name. Names of different numbers of mapped characters are not, so that a long name is not walked again for each short one.
pub fn same_name(
    mappings: &[u64; 501],
    x: &[u8],
    name: &[u8],
    sought: Sought,
    work: &mut [u32],
) -> bool
    requires { Comparable mappings.now x.now name.now sought work.old }
    ensures { (result ≡ same_name x.now name.now) × Laid name.now sought work.new × (length work.new ≡ length work.old) }
{
    if same_bytes(x, name) {
        return true;
    }
    if sought.ascii {
        return false;
    }
    let n = sought.places;
    if mapped_len(mappings, x) != n {
        return false;
    }
    let m = put_mapped(mappings, x, work, n);
    same_parts(work, n, m)
}
