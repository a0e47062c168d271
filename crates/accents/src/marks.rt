// Whether two texts have the same order of marks, told without ordering them: for each class, the marks of that class and what stands between
// the runs are the same. (02: N3)
ghost use Rattle.std.specs.Prelude.{◌≡◌, length};
ghost use Rattle.lin_spec.specs.Base.{eq_list};
ghost use Rattle.accents.specs.Table.{classes as the_classes};
ghost use Rattle.accents.specs.Ordering.{order, of_class};
ghost use Rattle.accents.specs.Marks.{NextIn};

use crate::lookup::{class_of, classes};

// The first place from `from` on whose character is of class `k` or 0, or the end.
fn next_in(classes: &[u8; 112], s: &[u32], from: usize, k: u8) -> usize
    requires { classes.now ≡ the_classes }
    ensures { NextIn k s.now from result }
{
    for i in from..s.len() {
        let n = class_of(classes, s[i]);
        if (n == 0) | (n == k) {
            return i;
        }
    }
    from.max(s.len())
}

// Whether the marks of class `k` and what stands between the runs are the same.
fn same_class(classes: &[u8; 112], x: &[u32], y: &[u32], k: u8) -> bool
    requires { classes.now ≡ the_classes }
    ensures { result ≡ eq_list (of_class k x.now) (of_class k y.now) }
{
    let mut i = next_in(classes, x, 0, k);
    let mut j = next_in(classes, y, 0, k);
    while i < x.len() {
        if y.len() <= j {
            return false;
        }
        if x[i] != y[j] {
            return false;
        }
        i = next_in(classes, x, i + 1, k);
        j = next_in(classes, y, j + 1, k);
    }
    y.len() <= j
}

// The classes that there are, other than 0.
const RANKS: [u8; 9] = [1, 202, 216, 220, 230, 232, 233, 234, 240];

// Whether the marks of every class are the same, and so the orders.
fn same_classes(x: &[u32], y: &[u32]) -> bool
    ensures { result ≡ eq_list (order x.now) (order y.now) }
{
    let copy = classes();
    for k in RANKS {
        if !same_class(&copy, x, y, k) {
            return false;
        }
    }
    true
}

// Whether two texts have the same order. Most that have are the same before it.
pub fn same_order(x: &[u32], y: &[u32]) -> bool
    ensures { result ≡ eq_list (order x.now) (order y.now) }
{
    if x.len() != y.len() {
        return false;
    }
    if x == y {
        return true;
    }
    same_classes(x, y)
}
