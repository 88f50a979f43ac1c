ghost use Rattle.std.specs.Prelude.{◌≡◌, ◌↔◌, IsTrue};

use jn_base::compare::{is_anchor, same_names};
use jn_base::types::{Anchor, Atom, Masks, Ty};

fn is_atom(x: &Atom, y: &Atom) -> bool
    ensures { IsTrue result ↔ (x.now ≡ y.now) }
{
    is_anchor(x.anchor, y.anchor)
        && same_names(x.exact.as_slice(), y.exact.as_slice())
        && same_names(x.names.as_slice(), y.names.as_slice())
}

fn are_atoms(xs: &[Atom], ys: &[Atom]) -> bool
    ensures { IsTrue result ↔ (xs.now ≡ ys.now) }
{
    if xs.len() != ys.len() {
        return false;
    }
    for i in 0..xs.len() {
        if !is_atom(&xs[i], &ys[i]) {
            return false;
        }
    }
    true
}

fn are_masks(a: Masks, b: Masks) -> bool
    ensures { IsTrue result ↔ (a ≡ b) }
{
    a.0 == b.0
}

/// Whether two types are equal, atom by atom in their order, with equal masks.
pub fn is_type(s: &Ty, t: &Ty) -> bool
    ensures { IsTrue result ↔ (s.now ≡ t.now) }
{
    match s {
        Ty::Int => matches!(t, Ty::Int),
        Ty::Bool => matches!(t, Ty::Bool),
        Ty::Null => matches!(t, Ty::Null),
        Ty::Void => matches!(t, Ty::Void),
        Ty::Class(xs, m) => match t {
            Ty::Class(ys, n) => are_atoms(xs.as_slice(), ys.as_slice()) && are_masks(*m, *n),
            _ => false,
        },
    }
}
