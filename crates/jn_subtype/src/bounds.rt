ghost use Rattle.std.specs.Prelude.{◌≡◌, ◌<◌, true, All, IfOk, IfSome, length};
ghost use Rattle.jn_base.specs.Atoms.{atoms_in, anchor_at, atom_at, first_at, atom_of};
ghost use Rattle.jn_base.specs.Scopes.{bound_of, bound};
ghost use Rattle.jn_base.specs.Fits.{BindsFit};
ghost use Rattle.jn_intern.specs.Pools.{InPool, ScopeInPool, scope_in};
ghost use Rattle.jn_subtype.specs.Binds.{binds_in};
ghost use Rattle.jn_subtype.specs.Newest.{IsNewest, EachOnce};

use jn_base::types::{Anchor, Atom, Ty};
use jn_intern::{Bind, Pool, Scope, place_of};
use jn_names::Bound;
use jn_normal::Conjunct;
use std::alloc::{AllocError, Global};

/// The place of the newest bind of a path.
fn newest(binds: &[Bind], path: u32) -> Option<usize>
    ensures within { IfSome result (λ i. i < length binds.now) }
    ensures newest { IsNewest binds.now path result }
{
    let mut found = None;
    for i in 0..binds.len() {
        if binds[i].path == path {
            found = Some(i);
        }
    }
    found
}

/// The same, found at once where it is known that each path is bound once.
fn place(binds: &[Bind], path: u32, once: bool) -> Option<usize>
    requires { once ≡ true → EachOnce binds.now }
    ensures within { IfSome result (λ i. i < length binds.now) }
    ensures newest { IsNewest binds.now path result }
{
    if once {
        return place_of(binds, path);
    }
    newest(binds, path)
}

/// The bound of a path, in binds from the oldest on; `once` says that they fit, so that each path is bound once.
#[cycle(bounds)]
fn bound_of_path(
    alloc: Global,
    pool: &Pool,
    binds: &[Bind],
    path: u32,
    once: bool,
) -> Result<Bound, AllocError>
    requires known { All (λ b. InPool pool.now b.ty) binds.now }
    requires fits { once ≡ true → BindsFit (binds_in pool.now binds.now) }
    ensures { IfOk result (λ b. b ≡ bound_of (binds_in pool.now binds.now) path) }
{
    match place(binds, path, once) {
        None => Ok(Bound::root(alloc)),
        Some(i) => bound_of_first(alloc, pool, &binds[..i], pool.show(binds[i].ty), once),
    }
}

/// The bound of a type's first atom.
#[cycle(bounds)]
fn bound_of_first(
    alloc: Global,
    pool: &Pool,
    binds: &[Bind],
    ty: &Ty,
    once: bool,
) -> Result<Bound, AllocError>
    requires known { All (λ b. InPool pool.now b.ty) binds.now }
    requires fits { once ≡ true → BindsFit (binds_in pool.now binds.now) }
    ensures { IfOk result (λ b. b ≡ first_at (bound_of (binds_in pool.now binds.now)) (atoms_in ty.now)) }
{
    match ty {
        Ty::Class(atoms, _) => match atoms.as_slice().first() {
            None => Ok(Bound::root(alloc)),
            Some(x) => bound_of_atom(alloc, pool, binds, x, once),
        },
        Ty::Int => Ok(Bound::root(alloc)),
        Ty::Bool => Ok(Bound::root(alloc)),
        Ty::Null => Ok(Bound::root(alloc)),
        Ty::Void => Ok(Bound::root(alloc)),
    }
}

/// The bound of an atom.
#[cycle(bounds)]
fn bound_of_atom(
    alloc: Global,
    pool: &Pool,
    binds: &[Bind],
    x: &Atom,
    once: bool,
) -> Result<Bound, AllocError>
    requires known { All (λ b. InPool pool.now b.ty) binds.now }
    requires fits { once ≡ true → BindsFit (binds_in pool.now binds.now) }
    ensures { IfOk result (λ b. b ≡ atom_at (bound_of (binds_in pool.now binds.now)) (atom_of x.now)) }
{
    let mut b = bound_of_anchor(alloc, pool, binds, x.anchor, once)?;
    b.extend(x.exact.as_slice())?;
    b.extend(x.names.as_slice())?;
    Ok(b)
}

/// The bound of an anchor.
#[cycle(bounds)]
fn bound_of_anchor(
    alloc: Global,
    pool: &Pool,
    binds: &[Bind],
    anchor: Anchor,
    once: bool,
) -> Result<Bound, AllocError>
    requires known { All (λ b. InPool pool.now b.ty) binds.now }
    requires fits { once ≡ true → BindsFit (binds_in pool.now binds.now) }
    ensures { IfOk result (λ b. b ≡ anchor_at (bound_of (binds_in pool.now binds.now)) anchor) }
{
    match anchor {
        Anchor::Root => Ok(Bound::root(alloc)),
        Anchor::Up(path, k) => {
            let b = bound_of_path(alloc, pool, binds, path, once)?;
            b.without(alloc, k as usize)
        }
    }
}

/// The bound of a path, in binds from the oldest on.
pub fn path_bound(
    alloc: Global,
    pool: &Pool,
    binds: &[Bind],
    path: u32,
) -> Result<Bound, AllocError>
    requires known { All (λ b. InPool pool.now b.ty) binds.now }
    ensures { IfOk result (λ b. b ≡ bound_of (binds_in pool.now binds.now) path) }
{
    bound_of_path(alloc, pool, binds, path, false)
}

/// The bound of an atom, in binds from the oldest on.
pub fn atom_bound(alloc: Global, pool: &Pool, binds: &[Bind], x: &Atom) -> Result<Bound, AllocError>
    requires known { All (λ b. InPool pool.now b.ty) binds.now }
    ensures { IfOk result (λ b. b ≡ atom_at (bound_of (binds_in pool.now binds.now)) (atom_of x.now)) }
{
    bound_of_atom(alloc, pool, binds, x, false)
}

/// The bound of an atom in a scope that fits.
pub fn scope_bound(alloc: Global, pool: &Pool, scope: &Scope, x: &Atom) -> Result<Bound, AllocError>
    requires known { ScopeInPool pool.now scope.now }
    requires fits { BindsFit (scope_in pool.now scope.now) }
    ensures { IfOk result (λ b. b ≡ bound (scope_in pool.now scope.now) (atom_of x.now)) }
{
    bound_of_atom(alloc, pool, scope.binds.as_slice(), x, true)
}

/// The same of an atom as contracts see it.
pub fn bound_in(
    alloc: Global,
    pool: &Pool,
    scope: &Scope,
    x: &Conjunct,
) -> Result<Bound, AllocError>
    requires known { ScopeInPool pool.now scope.now }
    requires fits { BindsFit (scope_in pool.now scope.now) }
    ensures { IfOk result (λ b. b ≡ bound (scope_in pool.now scope.now) x.now) }
{
    let mut b = bound_of_anchor(alloc, pool, scope.binds.as_slice(), x.anchor(), true)?;
    b.extend(x.exact())?;
    b.extend(x.names())?;
    Ok(b)
}
