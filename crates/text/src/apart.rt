// An index of the places where two texts differ says whether a span that stands at one place in both names the same bytes, without a look at each of them: so
// comparing takes time linear in the texts and the number of such spans, however they overlap. (01: equality)
ghost use Rattle.std.specs.Prelude.{◌≡◌, ◌-◌, ◌≤◌, length};
ghost use Rattle.lin_spec.specs.Base.{eq_list};
ghost use Rattle.lin_spec.specs.Records.{limit, part as part_of};
ghost use Rattle.text.specs.Apart.{Apart};

use crate::index::put_blocks;
use crate::parts::part;
use crate::sixteens::{next_apart, same_bytes};

// Makes the index of two texts: all blocks that begin in a run of bytes that are the same have its end for their next place.
pub fn index_apart(a: &[u8], b: &[u8], next: &mut [u32])
    requires { (length a.now ≤ limit) × (length next.old ≤ 1025) }
    ensures { Apart a.now b.now next.new }
{
    let mut k = 0;
    while k < next.len() {
        let p = next_apart(a, b, k * 1024);
        k = put_blocks(next, k, p);
    }
}

// Whether the bytes from start up to end are the same in both texts. They are compared one by one where they are few, or pass an end, or have no word in the
// index; else up to the next block at most.
pub fn same_at(a: &[u8], b: &[u8], next: &[u32], start: usize, end: usize) -> bool
    requires { Apart a.now b.now next.now × (start ≤ end) }
    ensures { result ≡ eq_list (part_of a.now start (end - start)) (part_of b.now start (end - start)) }
{
    let len = end - start;
    let k = start / 1024;
    let over = (a.len() < end) | (b.len() < end);
    if (len <= 1024) | over | (next.len() <= k + 1) {
        return same_bytes(part(a, start, len), part(b, start, len));
    }
    let here = next[k] as usize;
    if start <= here {
        return end <= here;
    }
    let block = (k + 1) * 1024 - start;
    if !same_bytes(part(a, start, block), part(b, start, block)) {
        return false;
    }
    end <= next[k + 1] as usize
}
