ghost use Rattle.std.specs.Prelude.{◌≡◌, ◌++◌, ◌↔◌, [], List, ℕ, reverse, drop, length, IsTrue, IfSome, IfNone, option_copied, Any, slice_get, Some, Contains};
ghost use Rattle.jn_base.specs.declared.tree.Name.{Name as AName};
ghost use Rattle.jn_base.specs.declared.tree.Program.{Program};
ghost use Rattle.jn_base.specs.Paths.{Path as APath};
ghost use Rattle.jn_base.specs.Atoms.{atom_of, Among as IsAmong};
ghost use Rattle.jn_base.specs.Supers.{Sup};
ghost use Rattle.jn_table.specs.Rows.{IsNumber};
ghost use Rattle.jn_table.specs.Tables.{IsFilled, IsFilledAt};
ghost use Rattle.jn_sem.specs.Sets.{Inside, InAtom, InAtoms, InType};
ghost use Rattle.jn_sem.specs.Sharing.{IsClass};
ghost use Rattle.jn_share.specs.Atoms.{HasNames, FrontTold, SaysAt, SaysOf, InEach};

use jn_base::compare::same_names;
use jn_base::tree::{Kind, Name};
use jn_base::types::{Anchor, Atom, Ty};
use jn_table::{ClassId, Table};
use sqlite_items::at;

/// What stands behind the first names, where the names begin with these.
fn after<'a>(names: &'a [Name], first: &[Name]) -> Option<&'a [Name]>
    ensures some { IfSome result (λ rest. names.now ≡ first.now ++ rest.now) }
    ensures none { IfNone result ((rest : List AName) → names.now ≡ first.now ++ rest → ⊥) }
{
    if names.len() < first.len() {
        return None;
    }
    if !same_names(&names[..first.len()], first) {
        return None;
    }
    Some(&names[first.len()..])
}

/// Whether the names are those of the three lists, one behind the other.
fn is_joined(names: &[Name], a: &[Name], b: &[Name], c: &[Name]) -> bool
    ensures { IsTrue result ↔ (names.now ≡ a.now ++ (b.now ++ c.now)) }
{
    match after(names, a) {
        None => false,
        Some(rest) => match after(rest, b) {
            None => false,
            Some(last) => same_names(last, c),
        },
    }
}

/// Whether the path of the number has the names of the three lists.
fn is_path(t: &Table, id: ClassId, a: &[Name], b: &[Name], c: &[Name]) -> bool
    ensures { IsTrue result ↔ HasNames t.now.known.items (a.now ++ (b.now ++ c.now)) id }
{
    match at(t.known(), id.0 as usize) {
        None => false,
        Some(path) => is_joined(path.names.as_slice(), a, b, c),
    }
}

/// Whether the path of one of the numbers has the names of the three lists.
fn some_path(t: &Table, ids: &[ClassId], a: &[Name], b: &[Name], c: &[Name]) -> bool
    ensures { IsTrue result ↔ Any (HasNames t.now.known.items (a.now ++ (b.now ++ c.now))) ids.now }
{
    for id in ids {
        if is_path(t, *id, a, b, c) {
            return true;
        }
    }
    false
}

/// The names of the path of the number.
pub fn names_of(t: &Table, id: ClassId) -> &[Name]
    requires { IsFilledAt t.now id }
    ensures { HasNames t.now.known.items result.now id }
{
    t.known()[id.0 as usize].names.as_slice()
}

/// The names without the last ones.
fn without(names: &[Name], k: usize) -> &[Name]
    ensures { reverse result.now ≡ drop k (reverse names.now) }
{
    &names[..names.len().saturating_sub(k)]
}

/// Whether the path of the number is inside the path of the names `front` and the exact names of the atom.
fn is_inside(t: &Table, front: &[Name], x: &Atom, u: ClassId) -> bool
    requires { IsFilledAt t.now u }
    ensures { SaysOf t.now u (λ p U. IsTrue result ↔ Inside p U
        ((atom_of x.now).exact ++ reverse front.now) (atom_of x.now).names) }
{
    let names = x.names.as_slice();
    let exact = x.exact.as_slice();
    if !is_joined(without(names_of(t, u), names.len()), front, exact, &[]) {
        return false;
    }
    some_path(t, &t.row(u).sups, front, exact, names)
}

/// The names of the path of an anchor, where its path has a view: `this` may have the view of the number.
fn front_of(t: &Table, view: Option<ClassId>, anchor: Anchor) -> Option<&[Name]>
    ensures { FrontTold t.now view anchor (option_copied result) }
{
    match anchor {
        Anchor::Root => Some(&[]),
        Anchor::Up(path, k) => match view {
            None => None,
            Some(id) => {
                if path != 0 {
                    return None;
                }
                match at(t.known(), id.0 as usize) {
                    None => None,
                    Some(path) => Some(without(path.names.as_slice(), k as usize)),
                }
            }
        },
    }
}

/// Whether the path of the number is in the atom, where `this` has the view of that number and no other path has one.
/// Without a number no path has a view.
pub fn in_atom(t: &Table, view: Option<ClassId>, x: &Atom, u: ClassId) -> bool
    requires { IsFilledAt t.now u }
    ensures { SaysAt t.now view u (λ p v U. IsTrue result ↔ InAtom p v (atom_of x.now) U) }
{
    match front_of(t, view, x.anchor) {
        None => false,
        Some(front) => is_inside(t, front, x, u),
    }
}

/// Whether it is in each of the atoms.
pub fn in_atoms(t: &Table, view: Option<ClassId>, xs: &[Atom], u: ClassId) -> bool
    requires { IsFilledAt t.now u }
    ensures { SaysAt t.now view u (λ p v U. IsTrue result ↔ InEach p v xs.now U) }
{
    for x in xs {
        if !in_atom(t, view, x, u) {
            return false;
        }
    }
    true
}

/// Whether it is in the type.
pub fn in_type(t: &Table, view: Option<ClassId>, ty: &Ty, u: ClassId) -> bool
    requires { IsFilledAt t.now u }
    ensures { SaysAt t.now view u (λ p v U. IsTrue result ↔ InType p v ty.now U) }
{
    match ty {
        Ty::Class(xs, _) => in_atoms(t, view, xs.as_slice(), u),
        Ty::Int => false,
        Ty::Bool => false,
        Ty::Null => false,
        Ty::Void => false,
    }
}
