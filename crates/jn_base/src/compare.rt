//! Names and anchors compared.

ghost use Rattle.std.specs.Prelude.{◌≡◌, ◌↔◌, Contains, IsTrue};
ghost use Rattle.jn_base.specs.Duplicates.{has_name};

use crate::tree::Name;
use crate::types::Anchor;

/// Whether the two are one name.
pub fn is_name(a: Name, b: Name) -> bool
    ensures { IsTrue result ↔ (a ≡ b) }
{
    a.0 == b.0
}

/// Whether two lists have the same names, in their order.
pub fn same_names(names: &[Name], others: &[Name]) -> bool
    ensures { IsTrue result ↔ (names.now ≡ others.now) }
{
    if names.len() != others.len() {
        return false;
    }
    for i in 0..names.len() {
        if !is_name(names[i], others[i]) {
            return false;
        }
    }
    true
}

/// Whether the name is in the list.
pub fn has_name(names: &[Name], name: Name) -> bool
    ensures among { IsTrue result ↔ Contains names.now name }
    ensures test { result ≡ has_name names.now name }
{
    names.iter().any(|other| other.0 == name.0)
}

/// Whether the two are one anchor.
pub fn is_anchor(a: Anchor, b: Anchor) -> bool
    ensures { IsTrue result ↔ (a ≡ b) }
{
    match a {
        Anchor::Root => matches!(b, Anchor::Root),
        Anchor::Up(p, j) => match b {
            Anchor::Root => false,
            Anchor::Up(q, k) => p == q && j == k,
        },
    }
}
