ghost use Rattle.std.specs.Prelude.{◌≡◌, ◌<◌, ◌≤◌, ◌↔◌, false, ℕ, List, Contains, slice_get, Some, length, IsTrue, IfOk, IfSome, IfNone};
ghost use Rattle.jn_base.specs.declared.tree.Name.{Name as AName};
ghost use Rattle.jn_base.specs.declared.tree.Program.{Program};
ghost use Rattle.jn_base.specs.Paths.{Path as APath};
ghost use Rattle.jn_table.specs.Tables.{IsFilled, IsFilledAt};
ghost use Rattle.jn_table.specs.Rows.{IsNumber};
ghost use Rattle.jn_sem.specs.Sharing.{HangsOnThis};
ghost use Rattle.jn_table.specs.declared.field_types.FieldTypes.{FieldTypes as AFieldTypes};
ghost use Rattle.jn_share.specs.Pairing.{IsAt};
ghost use Rattle.jn_share.specs.Parting.{SamePart, Covers, Uncovered, SameField, OtherField, Alike, NotAlike};
ghost use Rattle.jn_share.specs.Prepared.{AreDecls};
ghost use Rattle.jn_share.specs.Parts.{HavePart, SaysIn, SaysIs, SaysTwin, CoversOf, SaysCovers, SaysTwo, HangsIn, DeclsOf};

use crate::atoms::in_type;
use crate::groups::Groups;
use crate::pairs::{filled, is_class};
use crate::prepared::Prepared;
use jn_base::types::Ty;
use jn_table::{ClassId, Table};
use sqlite_items::at;

/// Whether the two numbers have one part.
fn one_part(parts: &[usize], i: usize, j: usize) -> bool
    ensures { IsTrue result ↔ HavePart parts.now i j }
{
    match at(parts, i) {
        None => false,
        Some(a) => match at(parts, j) {
            None => false,
            Some(b) => *a == *b,
        },
    }
}

/// Whether the path of the number is a class in the type, where `this` has the view of that number.
fn class_in(t: &Table, v: ClassId, ty: &Ty, u: usize) -> bool
    ensures within { IsTrue result → u < length t.now.known.items }
    ensures is { SaysIn t.now v ty.now u result }
{
    match filled(t, u) {
        None => false,
        Some(id) => is_class(t, u) && in_type(t, Some(v), ty, id),
    }
}

/// Whether the class of the number has a counterpart in the family that is in the type at the view of that number, and
/// has the same part.
fn has_twin(
    t: &Table,
    g: &Groups,
    parts: &[usize],
    u: usize,
    w: ClassId,
    family: ClassId,
    ty: &Ty,
) -> bool
    ensures { SaysTwin t.now g.now parts.now u w family ty.now result }
{
    match filled(t, u) {
        None => false,
        Some(id) => match g.counterpart(id, family) {
            None => false,
            Some(x) => is_twin(t, parts, u, x, w, ty),
        },
    }
}

/// Whether the second number has the part of the first one, and its path is in the type at the view of that number.
fn is_twin(t: &Table, parts: &[usize], u: usize, x: ClassId, w: ClassId, ty: &Ty) -> bool
    ensures { SaysIs t.now parts.now u x w ty.now result }
{
    match filled(t, x.0 as usize) {
        None => false,
        Some(_) => one_part(parts, u, x.0 as usize) && in_type(t, Some(w), ty, x),
    }
}

/// Whether each of the classes that is in the type at the view of the first number has a counterpart that is in it at
/// the second, and has the same part.
fn covers_of(
    t: &Table,
    g: &Groups,
    parts: &[usize],
    among: &[usize],
    v: ClassId,
    w: ClassId,
    family: ClassId,
    ty: &Ty,
) -> bool
    ensures yes { IsTrue result → SaysCovers t.now g.now v w family
        (λ p V W. CoversOf p t.now.known.items parts.now among.now V W ty.now) }
    ensures no { result ≡ false → SaysCovers t.now g.now v w family
        (λ p V W. Uncovered p (SamePart t.now.known.items parts.now) V W ty.now) }
{
    for u in among {
        if class_in(t, v, ty, *u) && !has_twin(t, g, parts, *u, w, family, ty) {
            return false;
        }
    }
    true
}

/// Whether each class of the type at the view of the first number has a counterpart that is in it at the second, and
/// has the same part. The type is that of a field of the first, and hangs on `this`.
pub fn covers(
    t: &Table,
    g: &Groups,
    all: &Prepared,
    parts: &[usize],
    v: ClassId,
    w: ClassId,
    ty: &Ty,
) -> bool
    ensures yes { IsTrue result → (types : AFieldTypes) → SaysTwo t.now g.now types all.now v w
        (λ p V W. HangsIn p V ty.now → Covers p (SamePart t.now.known.items parts.now) V W ty.now) }
    ensures no { result ≡ false → (types : AFieldTypes) → SaysTwo t.now g.now types all.now v w
        (λ p V W. HangsIn p V ty.now → Uncovered p (SamePart t.now.known.items parts.now) V W ty.now) }
{
    match at(&all.families, v.0 as usize) {
        None => false,
        Some(own) => match at(&all.classes, *own) {
            None => true,
            Some(among) => match family_of(t, &all.families, w) {
                None => false,
                Some(family) => covers_of(t, g, parts, among, v, w, family, ty),
            },
        },
    }
}

/// The family of the number, where it has one.
fn family_of(t: &Table, families: &[usize], w: ClassId) -> Option<ClassId>
    ensures some { IfSome result (λ id. slice_get families.now w.0 ≡ Some id.0) }
    ensures none { IfNone result ((n : ℕ) → slice_get families.now w.0 ≡ Some n → length t.now.known.items ≤ n) }
{
    match at(families, w.0 as usize) {
        None => None,
        Some(n) => filled(t, *n),
    }
}
