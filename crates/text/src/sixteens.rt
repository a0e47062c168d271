// Bytes compared, by sixteens. (01: equality, "Fields compare by bytes"; names, "being the same when their bytes are")
ghost use Rattle.std.specs.Prelude.{◌≡◌, true, ◌≤◌, length};
ghost use Rattle.lin_spec.specs.Base.{eq_list};
ghost use Rattle.text.specs.Apart.{next_apart, Sixteen};

use crate::parts::lesser;

// Tests sixteen of the first m bytes of each, from `i` on. Where it says true, they are there and are the same.
fn sixteen_same(a: &[u8], b: &[u8], m: usize, i: usize) -> bool
    requires { (m ≤ length a.now) × (m ≤ length b.now) }
    ensures { result ≡ true → Sixteen a.now b.now i }
{
    if m < 16 {
        return false;
    }
    if m - 16 < i {
        return false;
    }
    (a[i] == b[i])
        & (a[i + 1] == b[i + 1])
        & (a[i + 2] == b[i + 2])
        & (a[i + 3] == b[i + 3])
        & (a[i + 4] == b[i + 4])
        & (a[i + 5] == b[i + 5])
        & (a[i + 6] == b[i + 6])
        & (a[i + 7] == b[i + 7])
        & (a[i + 8] == b[i + 8])
        & (a[i + 9] == b[i + 9])
        & (a[i + 10] == b[i + 10])
        & (a[i + 11] == b[i + 11])
        & (a[i + 12] == b[i + 12])
        & (a[i + 13] == b[i + 13])
        & (a[i + 14] == b[i + 14])
        & (a[i + 15] == b[i + 15])
}

// Passes bytes that are the same, of the first m of each, from `from` on and by sixteens for speed, and gives the place after them.
fn sixteens_same(a: &[u8], b: &[u8], m: usize, from: usize) -> usize
    requires { (m ≤ length a.now) × (m ≤ length b.now) }
    ensures { next_apart a.now b.now result ≡ next_apart a.now b.now from }
{
    let mut i = from;
    while sixteen_same(a, b, m, i) {
        i += 16;
    }
    i
}

// The first place at or after `from` where two texts differ, or where one of them has ended.
pub fn next_apart(a: &[u8], b: &[u8], from: usize) -> usize
    ensures { result ≡ next_apart a.now b.now from }
{
    let m = lesser(a.len(), b.len());
    let start = sixteens_same(a, b, m, from);
    for i in start..m {
        if a[i] != b[i] {
            return i;
        }
    }
    start.max(m)
}

// Whether two texts have the same bytes.
pub fn same_bytes(a: &[u8], b: &[u8]) -> bool
    ensures { result ≡ eq_list a.now b.now }
{
    if a.len() != b.len() {
        return false;
    }
    next_apart(a, b, 0) == a.len()
}
