//! The views of paths: that of `this`, and those of the variables in scope.

ghost use Rattle.std.specs.Prelude.{◌≡◌, ◌++◌, [], List, reverse, IfOk, IsTrue, ◌↔◌, option_copied};
ghost use Rattle.std.specs.Option.{option_map};
ghost use Rattle.jn_base.specs.declared.path.Path.{Path as ShownPath};
ghost use Rattle.jn_base.specs.declared.tree.Program.{Program};
ghost use Rattle.jn_base.specs.Atoms.{atom_of};
ghost use Rattle.jn_table.specs.Tables.{IsFilled, IsFilledAt};
ghost use Rattle.jn_table.specs.Rows.{IsNumber};
ghost use Rattle.jn_base.specs.Paths.{Path as APath};
ghost use Rattle.jn_sem.specs.Sets.{InAtom, InType};
ghost use Rattle.jn_share.specs.Atoms.{InEach};
ghost use Rattle.jn_meaning.specs.Values.{path_at};
ghost use Rattle.jn_meaning.specs.Seen.{views_of, FrontTold, IsRooted};

use crate::classes::{names_at, without};
use crate::locals::Locals;
use jn_base::tree::Name;
use jn_base::types::{Anchor, Atom, Ty};
use jn_share::in_atom;
use jn_table::{ClassId, Table};
use sqlite_items::Items;
use std::alloc::{AllocError, Global};

/// The view of `this`, and the variables, of which those of class type have views.
#[derive(Clone, Copy)]
pub struct Seen<'f> {
    pub this: Option<ClassId>,
    pub locals: &'f Locals,
}

/// The view of a path.
fn view(seen: &Seen, path: u32) -> Option<ClassId>
    ensures { (known : List ShownPath) → views_of known seen.now path ≡ option_map (path_at known) result }
{
    if path == 0 {
        seen.this
    } else {
        seen.locals.view(path)
    }
}

/// The names of the path of an anchor, none where its path has no view.
fn front<'t>(t: &'t Table, seen: &Seen, anchor: Anchor) -> Option<&'t [Name]>
    ensures { FrontTold t.now.known.items seen.now anchor (option_copied result) }
{
    match anchor {
        Anchor::Root => Some(&[]),
        Anchor::Up(path, k) => match view(seen, path) {
            None => None,
            Some(id) => Some(without(names_at(t, id), k as usize)),
        },
    }
}

/// The names of both lists.
pub fn joined(alloc: Global, one: &[Name], other: &[Name]) -> Result<Items<Name>, AllocError>
    ensures { IfOk result (λ names. names ≡ one.now ++ other.now) }
{
    let mut names = Items::from_slice(alloc, one)?;
    for name in other {
        names.push(*name)?;
    }
    Ok(names)
}

/// The atom with the names of its anchor's path before its exact names, and no anchor; none where the path has no view.
pub fn rooted(alloc: Global, t: &Table, seen: &Seen, x: &Atom) -> Result<Option<Atom>, AllocError>
    ensures { IfOk result (λ o. IsRooted t.now.known.items seen.now x.now o) }
{
    match front(t, seen, x.anchor) {
        None => Ok(None),
        Some(names) => {
            let exact = joined(alloc, names, x.exact.as_slice())?;
            let names = Items::from_slice(alloc, x.names.as_slice())?;
            Ok(Some(Atom {
                anchor: Anchor::Root,
                exact,
                names,
            }))
        }
    }
}

/// Whether a class is in an atom, by these views.
fn is_in_atom(
    alloc: Global,
    t: &Table,
    seen: &Seen,
    x: &Atom,
    id: ClassId,
) -> Result<bool, AllocError>
    requires { IsFilledAt t.now id }
    ensures { IfOk result (λ b. (p : Program) (U : APath) → IsFilled p t.now → IsNumber t.now.known.items id U → IsTrue b ↔ InAtom p (views_of t.now.known.items seen.now) (atom_of x.now) U) }
{
    match rooted(alloc, t, seen, x)? {
        None => Ok(false),
        Some(y) => Ok(in_atom(t, None, &y, id)),
    }
}

/// Whether it is in each of the atoms.
fn is_in_atoms(
    alloc: Global,
    t: &Table,
    seen: &Seen,
    xs: &[Atom],
    id: ClassId,
) -> Result<bool, AllocError>
    requires { IsFilledAt t.now id }
    ensures { IfOk result (λ b. (p : Program) (U : APath) → IsFilled p t.now → IsNumber t.now.known.items id U → IsTrue b ↔ InEach p (views_of t.now.known.items seen.now) xs.now U) }
{
    for x in xs {
        if !is_in_atom(alloc, t, seen, x, id)? {
            return Ok(false);
        }
    }
    Ok(true)
}

/// Whether it is in the type.
pub fn is_in_type(
    alloc: Global,
    t: &Table,
    seen: &Seen,
    ty: &Ty,
    id: ClassId,
) -> Result<bool, AllocError>
    requires { IsFilledAt t.now id }
    ensures { IfOk result (λ b. (p : Program) (U : APath) → IsFilled p t.now → IsNumber t.now.known.items id U → IsTrue b ↔ InType p (views_of t.now.known.items seen.now) ty.now U) }
{
    match ty {
        Ty::Class(xs, _) => is_in_atoms(alloc, t, seen, xs.as_slice(), id),
        Ty::Int => Ok(false),
        Ty::Bool => Ok(false),
        Ty::Null => Ok(false),
        Ty::Void => Ok(false),
    }
}
