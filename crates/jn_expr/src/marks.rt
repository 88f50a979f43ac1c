//! The marks of a body.

ghost use Rattle.std.specs.Prelude.{◌≡◌, [], ◌∷◌, IfOk, OnOk};
ghost use Rattle.jn_rules.specs.Plans.{AtomMark, VarMark, MemberMark};
ghost use Rattle.jn_rules.specs.Exprs.{kind_of};
ghost use Rattle.jn_expr.specs.Told.{Adds};
ghost use Rattle.jn_expr.specs.Values.{kind_marks};

use jn_base::names::Resolved;
use jn_base::types::{Atom, Ty, ValKind};
use jn_names::Bound;
use sqlite_items::Items;
use std::alloc::{AllocError, Global};

/// The kind of a value of the type, where it has one: null and objects are references.
pub fn kind_of(ty: &Ty) -> Option<ValKind>
    ensures { result ≡ kind_of ty.now }
{
    match ty {
        Ty::Int => Some(ValKind::Int),
        Ty::Bool => Some(ValKind::Bool),
        Ty::Null => Some(ValKind::Reference),
        Ty::Void => None,
        Ty::Class(_, _) => Some(ValKind::Reference),
    }
}

/// Adds the kind of a value.
pub fn note_kind(marks: &mut Resolved, kind: Option<ValKind>) -> Result<(), AllocError>
    ensures { OnOk result (Adds (kind_marks kind) marks.old marks.new) }
{
    match kind {
        None => Ok(()),
        Some(kind) => marks.kinds.push(kind),
    }
}

/// Adds the number of a variable; parameters and locals have numbers below 256.
pub fn note_var(marks: &mut Resolved, path: u32) -> Result<(), AllocError>
    ensures { OnOk result (Adds (VarMark path ∷ []) marks.old marks.new) }
{
    if path > 255 {
        return Err(AllocError);
    }
    marks.vars.push(path as u8)
}

/// Adds the class that declares a field or a method.
pub fn note_member(alloc: Global, marks: &mut Resolved, class: &Bound) -> Result<(), AllocError>
    ensures { OnOk result (Adds (MemberMark class.now ∷ []) marks.old marks.new) }
{
    let path = class.shown(alloc)?;
    marks.members.push(path)
}

/// The same atom.
fn copied(alloc: Global, x: &Atom) -> Result<Atom, AllocError>
    ensures { IfOk result (λ y. y ≡ x.now) }
{
    let exact = Items::from_slice(alloc, x.exact.as_slice())?;
    let names = Items::from_slice(alloc, x.names.as_slice())?;
    Ok(Atom {
        anchor: x.anchor,
        exact,
        names,
    })
}

/// Adds the atom that a term stands for.
pub fn note_atom(alloc: Global, marks: &mut Resolved, x: &Atom) -> Result<(), AllocError>
    ensures { OnOk result (Adds (AtomMark x.now ∷ []) marks.old marks.new) }
{
    let copy = copied(alloc, x)?;
    marks.terms.push(copy)
}
