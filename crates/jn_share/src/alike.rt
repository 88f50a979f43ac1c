ghost use Rattle.std.specs.Prelude.{◌≡◌, ◌<◌, ◌↔◌, false, ℕ, List, Any, Contains, length, IsTrue};
ghost use Rattle.jn_base.specs.declared.tree.Name.{Name as AName};
ghost use Rattle.jn_base.specs.declared.tree.Program.{Program};
ghost use Rattle.jn_base.specs.Paths.{Path as APath};
ghost use Rattle.jn_table.specs.declared.field_types.FieldTypes.{FieldTypes as AFieldTypes};
ghost use Rattle.jn_table.specs.Tables.{IsFilledAt};
ghost use Rattle.jn_sem.specs.Sharing.{HangsOnThis};
ghost use Rattle.jn_share.specs.Parting.{SamePart, SameField, OtherField, Alike, NotAlike};
ghost use Rattle.jn_share.specs.Prepared.{AreDecls};
ghost use Rattle.jn_share.specs.Parts.{IsThis, OfThis, EntryFor, SaysTwo, DeclsOf, DeclsGiven};

use crate::groups::Groups;
use crate::parting::covers;
use crate::prepared::Prepared;
use jn_base::compare::same_names;
use jn_base::types::{Anchor, Atom, Ty};
use jn_table::{ClassId, FieldTy, FieldTypes, Table};
use sqlite_items::at;

/// Whether the anchor is one of `this`.
pub fn is_this(anchor: Anchor) -> bool
    ensures { IsTrue result ↔ IsThis anchor }
{
    match anchor {
        Anchor::Root => false,
        Anchor::Up(path, _) => path == 0,
    }
}

/// Whether the anchor of one of the atoms is one of `this`.
fn some_this(xs: &[Atom]) -> bool
    ensures { IsTrue result ↔ Any OfThis xs.now }
{
    for x in xs {
        if is_this(x.anchor) {
            return true;
        }
    }
    false
}

/// Whether the type hangs on `this`.
pub fn hangs_on_this(ty: &Ty) -> bool
    ensures { IsTrue result ↔ HangsOnThis ty.now }
{
    match ty {
        Ty::Class(xs, _) => some_this(xs.as_slice()),
        Ty::Int => false,
        Ty::Bool => false,
        Ty::Null => false,
        Ty::Void => false,
    }
}

/// Whether the entries are of one declaration.
fn one_place(x: &FieldTy, y: &FieldTy) -> bool
    ensures { IsTrue result ↔ (x.now.class ≡ y.now.class) }
{
    x.class.0 == y.class.0
}

/// Whether the type covers the one view by the other, both ways.
fn both_cover(
    t: &Table,
    g: &Groups,
    all: &Prepared,
    parts: &[usize],
    v: ClassId,
    w: ClassId,
    x: &FieldTy,
) -> bool
    ensures yes { IsTrue result → (types : AFieldTypes) → SaysTwo t.now g.now types all.now v w
        (λ p V W. (f : AName) (Q : APath) → EntryFor p t.now.known.items V f x.now Q
        → EntryFor p t.now.known.items W f x.now Q → SameField p (SamePart t.now.known.items parts.now) V W f) }
    ensures no { result ≡ false → (types : AFieldTypes) → SaysTwo t.now g.now types all.now v w
        (λ p V W. (f : AName) (Q : APath) → EntryFor p t.now.known.items V f x.now Q
        → EntryFor p t.now.known.items W f x.now Q → OtherField p (SamePart t.now.known.items parts.now) V W f) }
{
    if !hangs_on_this(&x.ty) {
        return true;
    }
    if !covers(t, g, all, parts, v, w, &x.ty) {
        return false;
    }
    covers(t, g, all, parts, w, v, &x.ty)
}

/// Whether the fields of the two entries are one field of the two classes.
fn same_typed(
    t: &Table,
    g: &Groups,
    all: &Prepared,
    parts: &[usize],
    v: ClassId,
    x: &FieldTy,
    w: ClassId,
    y: &FieldTy,
) -> bool
    ensures yes { IsTrue result → (types : AFieldTypes) → SaysTwo t.now g.now types all.now v w
        (λ p V W. (f : AName) (Q R : APath) → EntryFor p t.now.known.items V f x.now Q
        → EntryFor p t.now.known.items W f y.now R → SameField p (SamePart t.now.known.items parts.now) V W f) }
    ensures no { result ≡ false → (types : AFieldTypes) → SaysTwo t.now g.now types all.now v w
        (λ p V W. (f : AName) (Q R : APath) → EntryFor p t.now.known.items V f x.now Q
        → EntryFor p t.now.known.items W f y.now R → OtherField p (SamePart t.now.known.items parts.now) V W f) }
{
    if !one_place(x, y) {
        return false;
    }
    both_cover(t, g, all, parts, v, w, x)
}

/// Whether the field of the two declarations is one field of the two classes.
pub fn same_field(
    t: &Table,
    g: &Groups,
    types: &FieldTypes,
    all: &Prepared,
    parts: &[usize],
    v: ClassId,
    dv: usize,
    w: ClassId,
    dw: usize,
) -> bool
    ensures yes { IsTrue result → SaysTwo t.now g.now types.now all.now v w (λ p V W. (f : AName)
        → DeclsOf p t.now types.now V dv W dw f → SameField p (SamePart t.now.known.items parts.now) V W f) }
    ensures no { result ≡ false → SaysTwo t.now g.now types.now all.now v w (λ p V W. (f : AName)
        → DeclsOf p t.now types.now V dv W dw f → OtherField p (SamePart t.now.known.items parts.now) V W f) }
{
    match at(&types.list, dv) {
        None => false,
        Some(x) => match at(&types.list, dw) {
            None => false,
            Some(y) => same_typed(t, g, all, parts, v, x, w, y),
        },
    }
}

/// Whether each field of the two classes is one field, by the numbers of their declarations, place by place.
fn same_fields(
    t: &Table,
    g: &Groups,
    types: &FieldTypes,
    all: &Prepared,
    parts: &[usize],
    v: ClassId,
    dvs: &[usize],
    w: ClassId,
    dws: &[usize],
) -> bool
    requires { length dws.now ≡ length dvs.now }
    ensures yes { IsTrue result → SaysTwo t.now g.now types.now all.now v w (λ p V W. (fields : List AName)
        → AreDecls p t.now.known.items types.now.list.items V fields dvs.now
        → AreDecls p t.now.known.items types.now.list.items W fields dws.now → (f : AName) → Contains fields f
        → SameField p (SamePart t.now.known.items parts.now) V W f) }
    ensures no { result ≡ false → SaysTwo t.now g.now types.now all.now v w (λ p V W. (fields : List AName)
        → AreDecls p t.now.known.items types.now.list.items V fields dvs.now
        → AreDecls p t.now.known.items types.now.list.items W fields dws.now
        → NotAlike p (SamePart t.now.known.items parts.now) V W) }
{
    for i in 0..dvs.len() {
        if !same_field(t, g, types, all, parts, v, dvs[i], w, dws[i]) {
            return false;
        }
    }
    true
}

/// The numbers of the declarations of the fields of the number, none where there are none.
pub fn decls_of(all: &Prepared, v: ClassId) -> &[usize]
    ensures { DeclsGiven all.now.decls.items v.0 result.now }
{
    match at(&all.decls, v.0 as usize) {
        None => &[],
        Some(decls) => decls,
    }
}

/// Whether nothing tells the two classes apart.
pub fn alike(
    t: &Table,
    g: &Groups,
    types: &FieldTypes,
    all: &Prepared,
    parts: &[usize],
    v: ClassId,
    w: ClassId,
) -> bool
    requires v { IsFilledAt t.now v }
    requires w { IsFilledAt t.now w }
    ensures yes { IsTrue result → SaysTwo t.now g.now types.now all.now v w
        (λ p V W. Alike p (SamePart t.now.known.items parts.now) V W) }
    ensures no { result ≡ false → SaysTwo t.now g.now types.now all.now v w
        (λ p V W. NotAlike p (SamePart t.now.known.items parts.now) V W) }
{
    if !same_names(&t.row(v).fields, &t.row(w).fields) {
        return false;
    }
    let dvs = decls_of(all, v);
    let dws = decls_of(all, w);
    if dvs.len() != dws.len() {
        return false;
    }
    same_fields(t, g, types, all, parts, v, dvs, w, dws)
}
