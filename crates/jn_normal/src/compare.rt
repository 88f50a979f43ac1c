ghost use Rattle.std.specs.Prelude.{◌≡◌, length, map};
ghost use Rattle.std.specs.Ordering.{nat_cmp};
ghost use Rattle.std.specs.Cmp.Lexicographic.{slice_cmp};
ghost use Rattle.jn_sem.specs.Normal.{anchor_key, name_number, numbers_cmp};

use jn_base::tree::Name;
use jn_base::types::Anchor;
use std::cmp::Ordering;

/// Root first, then by path number and levels.
pub fn anchor_order(a: Anchor, b: Anchor) -> Ordering
    ensures { result ≡ slice_cmp nat_cmp (anchor_key a) (anchor_key b) }
{
    match a {
        Anchor::Root => match b {
            Anchor::Root => Ordering::Equal,
            Anchor::Up(_, _) => Ordering::Less,
        },
        Anchor::Up(p, j) => match b {
            Anchor::Root => Ordering::Greater,
            Anchor::Up(q, k) => p.cmp(&q).then(j.cmp(&k)),
        },
    }
}

/// The order of the first names that differ, by their numbers.
fn first_unlike(xs: &[Name], ys: &[Name]) -> Ordering
    requires { length xs.now ≡ length ys.now }
    ensures { result ≡ slice_cmp nat_cmp (map name_number xs.now) (map name_number ys.now) }
{
    for i in 0..xs.len() {
        match xs[i].0.cmp(&ys[i].0) {
            Ordering::Less => return Ordering::Less,
            Ordering::Equal => {}
            Ordering::Greater => return Ordering::Greater,
        }
    }
    Ordering::Equal
}

/// Shorter lists first, and then name by name, by their numbers.
pub fn names_order(xs: &[Name], ys: &[Name]) -> Ordering
    ensures { result ≡ numbers_cmp (map name_number xs.now) (map name_number ys.now) }
{
    match xs.len().cmp(&ys.len()) {
        Ordering::Less => Ordering::Less,
        Ordering::Equal => first_unlike(xs, ys),
        Ordering::Greater => Ordering::Greater,
    }
}
