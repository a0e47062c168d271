// Mapped characters in work space: those of a name put into it, and two parts of it compared. (02: N3, "Work space is lent")
ghost use Rattle.std.specs.Prelude.{◌≡◌, ◌-◌, ◌≤◌, length, take, drop};
ghost use Rattle.lin_spec.specs.Base.{eq_list};
ghost use Rattle.output.specs.Put.{Put};
ghost use Rattle.accents.specs.Mapping.{mapped};
ghost use Rattle.accents.specs.Ordering.{order};
ghost use Rattle.accents.specs.Lines.{full};
ghost use Rattle.accents.specs.Chars.{chars};
ghost use Rattle.accents_names.specs.Work.{FullFits, Fillable};

use accents::{Full, char_at, full_of, same_order};
use output::put;

// Puts one to three characters.
fn put_full(work: &mut [u32], at: usize, f: Full) -> usize
    requires { FullFits work.old at f }
    ensures { Put work.old at (full f) work.new result }
{
    let n = put(work, at, f.first);
    if f.count == 1 {
        return n;
    }
    let m = put(work, n, f.second);
    if f.count == 2 {
        return m;
    }
    put(work, m, f.third)
}

// Puts the characters that `s` is mapped to from `at` on, by a copy of the table.
pub(crate) fn put_mapped(mappings: &[u64; 501], s: &[u8], work: &mut [u32], at: usize) -> usize
    requires { Fillable mappings.now s.now work.old at }
    ensures { Put work.old at (mapped (chars s.now)) work.new result }
{
    let mut n = at;
    let mut i: usize = 0;
    while i < s.len() {
        let c = char_at(s, i);
        let f = full_of(mappings, c.number);
        n = put_full(work, n, f);
        i = c.next;
    }
    n
}

// Whether the characters from `n` up to `m` and those up to `n` have the same order.
pub(crate) fn same_parts(work: &[u32], n: usize, m: usize) -> bool
    requires { (n ≤ m) × (m ≤ length work.now) }
    ensures { result ≡ eq_list (order (take (m - n) (drop n work.now))) (order (take n work.now)) }
{
    same_order(&work[n..m], &work[..n])
}
