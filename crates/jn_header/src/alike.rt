ghost use Rattle.std.specs.Prelude.{◌≡◌, ◌↔◌, map, IsTrue};
ghost use Rattle.jn_base.specs.declared.types.Ty.TheVariants as ATy;
ghost use Rattle.jn_rules.specs.Members.{var_fixed, var_type, empty_signature};
ghost use Rattle.jn_header.specs.Bodies.{head_signature};

use crate::bodies::BodyHead;
use jn_base::compare::{is_anchor, same_names};
use jn_base::names::Var;
use jn_base::types::{Atom, Masks, Ty};

fn is_atom(x: &Atom, y: &Atom) -> bool
    ensures { IsTrue result ↔ (x.now ≡ y.now) }
{
    is_anchor(x.anchor, y.anchor)
        && same_names(x.exact.as_slice(), y.exact.as_slice())
        && same_names(x.names.as_slice(), y.names.as_slice())
}

fn are_atoms(xs: &[Atom], ys: &[Atom]) -> bool
    ensures { IsTrue result ↔ (xs.now ≡ ys.now) }
{
    if xs.len() != ys.len() {
        return false;
    }
    for i in 0..xs.len() {
        if !is_atom(&xs[i], &ys[i]) {
            return false;
        }
    }
    true
}

fn are_masks(a: Masks, b: Masks) -> bool
    ensures { IsTrue result ↔ (a ≡ b) }
{
    a.0 == b.0
}

/// Whether two types are equal, atom by atom in their order, with equal masks.
fn is_type(s: &Ty, t: &Ty) -> bool
    ensures { IsTrue result ↔ (s.now ≡ t.now) }
{
    match s {
        Ty::Int => matches!(t, Ty::Int),
        Ty::Bool => matches!(t, Ty::Bool),
        Ty::Null => matches!(t, Ty::Null),
        Ty::Void => matches!(t, Ty::Void),
        Ty::Class(xs, m) => match t {
            Ty::Class(ys, n) => are_atoms(xs.as_slice(), ys.as_slice()) && are_masks(*m, *n),
            _ => false,
        },
    }
}

/// Whether two parameters are equally `final` and of one type.
fn is_alike(x: &Var, y: &Var) -> bool
    ensures { IsTrue result ↔ ((var_fixed x.now ≡ var_fixed y.now) × (var_type x.now ≡ var_type y.now)) }
{
    x.fixed == y.fixed && is_type(&x.ty, &y.ty)
}

/// Whether parameters are as many, and at each place equally `final` and of one type.
fn are_alike(xs: &[Var], ys: &[Var]) -> bool
    ensures { IsTrue result ↔ ((map var_fixed xs.now ≡ map var_fixed ys.now) × (map var_type xs.now ≡ map var_type ys.now)) }
{
    if xs.len() != ys.len() {
        return false;
    }
    for i in 0..xs.len() {
        if !is_alike(&xs[i], &ys[i]) {
            return false;
        }
    }
    true
}

/// Whether two bodies have one signature: count, `final` and types of the parameters, matched by place, and the
/// result.
pub fn is_same(a: &BodyHead, b: &BodyHead) -> bool
    ensures { IsTrue result ↔ (head_signature a.now ≡ head_signature b.now) }
{
    are_alike(a.vars.list.as_slice(), b.vars.list.as_slice()) && is_type(&a.result, &b.result)
}

/// Whether it is the type of no value.
pub fn is_void(t: &Ty) -> bool
    ensures { IsTrue result ↔ (t.now ≡ ATy.Void) }
{
    matches!(t, Ty::Void)
}

/// Whether a body has no parameters and no result.
pub fn is_empty(x: &BodyHead) -> bool
    ensures { IsTrue result ↔ (head_signature x.now ≡ empty_signature) }
{
    x.vars.list.as_slice().is_empty() && is_void(&x.result)
}
