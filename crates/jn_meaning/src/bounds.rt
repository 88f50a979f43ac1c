//! The bound of an atom of a body: what its path is known to be where the body is written.

ghost use Rattle.std.specs.Prelude.{◌≡◌, ◌<◌, [], length, IfOk, IfSome};
ghost use Rattle.jn_base.specs.Atoms.{atoms_in, anchor_at, atom_at, first_at, atom_of};
ghost use Rattle.jn_base.specs.Scopes.{bound_of};
ghost use Rattle.jn_names.specs.Scoped.{scope_from, IsNewest};

use jn_base::names::Var;
use jn_base::types::{Anchor, Atom, Ty};
use jn_names::Bound;
use std::alloc::{AllocError, Global};

/// The place of the newest variable of a path.
fn newest_at(vars: &[Var], path: u32) -> Option<usize>
    ensures within { IfSome result (λ i. i < length vars.now) }
    ensures newest { IsNewest vars.now path result }
{
    let mut found = None;
    for i in 0..vars.len() {
        if vars[i].path == path {
            found = Some(i);
        }
    }
    found
}

/// The bound of a path of which no variable is: the class for `this`.
fn outer_bound(alloc: Global, class: &Bound, path: u32) -> Result<Bound, AllocError>
    ensures { IfOk result (λ b. b ≡ bound_of (scope_from class.now []) path) }
{
    if path == 0 {
        return class.without(alloc, 0);
    }
    Ok(Bound::root(alloc))
}

/// The bound of a path, in a class with its variables in order.
#[cycle(bounds)]
pub fn path_bound(
    alloc: Global,
    class: &Bound,
    vars: &[Var],
    path: u32,
) -> Result<Bound, AllocError>
    ensures { IfOk result (λ b. b ≡ bound_of (scope_from class.now vars.now) path) }
{
    match newest_at(vars, path) {
        None => outer_bound(alloc, class, path),
        Some(i) => first_bound(alloc, class, &vars[..i], &vars[i].ty),
    }
}

/// The bound of a type's first atom.
#[cycle(bounds)]
fn first_bound(alloc: Global, class: &Bound, vars: &[Var], ty: &Ty) -> Result<Bound, AllocError>
    ensures { IfOk result (λ b. b ≡ first_at (bound_of (scope_from class.now vars.now)) (atoms_in ty.now)) }
{
    match ty {
        Ty::Class(atoms, _) => match atoms.as_slice().first() {
            None => Ok(Bound::root(alloc)),
            Some(x) => atom_bound(alloc, class, vars, x),
        },
        Ty::Int => Ok(Bound::root(alloc)),
        Ty::Bool => Ok(Bound::root(alloc)),
        Ty::Null => Ok(Bound::root(alloc)),
        Ty::Void => Ok(Bound::root(alloc)),
    }
}

/// The bound of an atom.
#[cycle(bounds)]
pub fn atom_bound(alloc: Global, class: &Bound, vars: &[Var], x: &Atom) -> Result<Bound, AllocError>
    ensures { IfOk result (λ b. b ≡ atom_at (bound_of (scope_from class.now vars.now)) (atom_of x.now)) }
{
    let mut b = anchor_bound(alloc, class, vars, x.anchor)?;
    b.extend(x.exact.as_slice())?;
    b.extend(x.names.as_slice())?;
    Ok(b)
}

/// The bound of an anchor.
#[cycle(bounds)]
fn anchor_bound(
    alloc: Global,
    class: &Bound,
    vars: &[Var],
    anchor: Anchor,
) -> Result<Bound, AllocError>
    ensures { IfOk result (λ b. b ≡ anchor_at (bound_of (scope_from class.now vars.now)) anchor) }
{
    match anchor {
        Anchor::Root => Ok(Bound::root(alloc)),
        Anchor::Up(path, k) => {
            let b = path_bound(alloc, class, vars, path)?;
            b.without(alloc, k as usize)
        }
    }
}
