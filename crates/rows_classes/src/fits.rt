//! Whether types and scopes fit, which the calls on types ask for.

ghost use Rattle.std.specs.Prelude.{◌≡◌, ◌↔◌, ◌∷◌, [], List, All, Contains, IfOk, IsTrue, length, map};
ghost use Rattle.jn_base.specs.declared.types.Atom.{Atom as ShownAtom};
ghost use Rattle.jn_base.specs.declared.types.Ty.{Ty as AType};
ghost use Rattle.jn_base.specs.Paths.{Path};
ghost use Rattle.jn_base.specs.Atoms.{atom_of, shown_atom};
ghost use Rattle.jn_base.specs.Scopes.{Binds, bound, this_atom, this_type};
ghost use Rattle.jn_base.specs.Fits.{Anchored, AtomsFit, TypeFits, BindsFit, ScopeFits};
ghost use Rattle.jn_sem.specs.Normal.{MovedFits, swapped};
ghost use Rattle.jn_sem.specs.Normal.{moved as moved_atom};
ghost use Rattle.jn_intern.specs.Pools.{InPool, ScopeInPool, scope_in};
ghost use Rattle.jn_subtype.specs.Binds.{binds_in};

use jn_base::types::{Anchor, Atom, Ty};
use jn_intern::{Bind, Pool, Scope};
use jn_normal::moved;
use jn_subtype::{atom_bound, path_bound};
use sqlite_items::Items;
use std::alloc::{AllocError, Global};

/// Whether one of the binds is of the path.
fn has_path(binds: &[Bind], path: u32) -> bool
    ensures { (pool : List AType) → IsTrue result ↔ Binds (binds_in pool binds.now) path }
{
    for b in binds {
        if b.path == path {
            return true;
        }
    }
    false
}

/// Whether the anchor's path is bound, and has more names than are taken off.
fn is_anchored(
    alloc: Global,
    pool: &Pool,
    binds: &[Bind],
    anchor: Anchor,
) -> Result<bool, AllocError>
    requires known { All (λ b. InPool pool.now b.ty) binds.now }
    ensures { IfOk result (λ r. IsTrue r → Anchored (binds_in pool.now binds.now) anchor) }
{
    match anchor {
        Anchor::Root => Ok(true),
        Anchor::Up(path, k) => {
            let taken = k as usize;
            let bound = path_bound(alloc, pool, binds, path)?;
            Ok(has_path(binds, path) && taken < bound.depth())
        }
    }
}

/// Whether the atom is anchored, with a bound of so many names.
fn is_deep(
    alloc: Global,
    pool: &Pool,
    binds: &[Bind],
    x: &Atom,
    depth: usize,
) -> Result<bool, AllocError>
    requires known { All (λ b. InPool pool.now b.ty) binds.now }
    ensures anchored { IfOk result (λ r. IsTrue r → Anchored (binds_in pool.now binds.now) x.now.anchor) }
    ensures deep { IfOk result (λ r. IsTrue r → length (bound (binds_in pool.now binds.now) (atom_of x.now)) ≡ depth) }
{
    let bound = atom_bound(alloc, pool, binds, x)?;
    if bound.depth() != depth {
        return Ok(false);
    }
    is_anchored(alloc, pool, binds, x.anchor)
}

/// Whether all atoms are.
fn are_deep(
    alloc: Global,
    pool: &Pool,
    binds: &[Bind],
    xs: &[Atom],
    depth: usize,
) -> Result<bool, AllocError>
    requires known { All (λ b. InPool pool.now b.ty) binds.now }
    ensures anchored { IfOk result (λ r. IsTrue r → (x : ShownAtom) → Contains xs.now x
        → Anchored (binds_in pool.now binds.now) x.anchor) }
    ensures deep { IfOk result (λ r. IsTrue r → (x : ShownAtom) → Contains xs.now x
        → length (bound (binds_in pool.now binds.now) (atom_of x)) ≡ depth) }
{
    for x in xs {
        if !is_deep(alloc, pool, binds, x, depth)? {
            return Ok(false);
        }
    }
    Ok(true)
}

/// Whether there are atoms, all anchored, with bounds of one depth, at most 255.
fn atoms_fit(alloc: Global, pool: &Pool, binds: &[Bind], xs: &[Atom]) -> Result<bool, AllocError>
    requires known { All (λ b. InPool pool.now b.ty) binds.now }
    ensures { IfOk result (λ r. IsTrue r → AtomsFit (binds_in pool.now binds.now) (map atom_of xs.now)) }
{
    if xs.is_empty() {
        return Ok(false);
    }
    let depth = atom_bound(alloc, pool, binds, &xs[0])?.depth();
    if depth > 255 {
        return Ok(false);
    }
    are_deep(alloc, pool, binds, xs, depth)
}

/// Whether the type fits the binds.
pub fn type_fits(alloc: Global, pool: &Pool, binds: &[Bind], t: &Ty) -> Result<bool, AllocError>
    requires known { All (λ b. InPool pool.now b.ty) binds.now }
    ensures { IfOk result (λ r. IsTrue r → TypeFits (binds_in pool.now binds.now) t.now) }
{
    match t {
        Ty::Class(xs, _) => atoms_fit(alloc, pool, binds, xs.as_slice()),
        Ty::Int => Ok(true),
        Ty::Bool => Ok(true),
        Ty::Null => Ok(true),
        Ty::Void => Ok(true),
    }
}

/// Whether the type fits the binds with `to[i]` put for each path `from[i]`.
pub fn moved_fits(
    alloc: Global,
    pool: &Pool,
    binds: &[Bind],
    from: &[u32],
    to: &[u32],
    t: &Ty,
) -> Result<bool, AllocError>
    requires long { length from.now ≡ length to.now }
    requires known { All (λ b. InPool pool.now b.ty) binds.now }
    ensures { IfOk result (λ r. IsTrue r → MovedFits (binds_in pool.now binds.now) (swapped from.now to.now) t.now) }
{
    match t {
        Ty::Class(xs, _) => moved_atoms_fit(alloc, pool, binds, from, to, xs.as_slice()),
        Ty::Int => Ok(true),
        Ty::Bool => Ok(true),
        Ty::Null => Ok(true),
        Ty::Void => Ok(true),
    }
}

/// Whether the atoms fit with their paths replaced.
fn moved_atoms_fit(
    alloc: Global,
    pool: &Pool,
    binds: &[Bind],
    from: &[u32],
    to: &[u32],
    xs: &[Atom],
) -> Result<bool, AllocError>
    requires long { length from.now ≡ length to.now }
    requires known { All (λ b. InPool pool.now b.ty) binds.now }
    ensures { IfOk result (λ r. IsTrue r
        → AtomsFit (binds_in pool.now binds.now) (map (moved_atom (swapped from.now to.now)) (map atom_of xs.now))) }
{
    let moved = moved_atoms(alloc, from, to, xs)?;
    atoms_fit(alloc, pool, binds, moved.as_slice())
}

/// The atoms with their paths replaced.
fn moved_atoms(
    alloc: Global,
    from: &[u32],
    to: &[u32],
    xs: &[Atom],
) -> Result<Items<Atom>, AllocError>
    requires { length from.now ≡ length to.now }
    ensures { IfOk result (λ ys. map atom_of ys ≡ map (moved_atom (swapped from.now to.now)) (map atom_of xs.now)) }
{
    let mut all = Items::new(alloc);
    for x in xs {
        let one = moved_one(alloc, from, to, x)?;
        all.push(one)?;
    }
    Ok(all)
}

/// The atom with its path replaced.
fn moved_one(alloc: Global, from: &[u32], to: &[u32], x: &Atom) -> Result<Atom, AllocError>
    requires { length from.now ≡ length to.now }
    ensures { IfOk result (λ y. atom_of y ≡ moved_atom (swapped from.now to.now) (atom_of x.now)) }
{
    let exact = Items::from_slice(alloc, x.exact.as_slice())?;
    let names = Items::from_slice(alloc, x.names.as_slice())?;
    Ok(Atom {
        anchor: moved(from, to, x.anchor),
        exact,
        names,
    })
}

/// Whether the pool has the types of the binds.
fn are_known(pool: &Pool, binds: &[Bind]) -> bool
    ensures { IsTrue result → All (λ b. InPool pool.now b.ty) binds.now }
{
    for b in binds {
        if b.ty.0 >= pool.len() {
            return false;
        }
    }
    true
}

/// Whether the paths are distinct, and each type fits the binds before its own.
fn binds_fit(alloc: Global, pool: &Pool, binds: &[Bind]) -> Result<bool, AllocError>
    requires known { All (λ b. InPool pool.now b.ty) binds.now }
    ensures { IfOk result (λ r. IsTrue r → BindsFit (binds_in pool.now binds.now)) }
{
    for i in 0..binds.len() {
        let before = &binds[..i];
        if has_path(before, binds[i].path) {
            return Ok(false);
        }
        if !type_fits(alloc, pool, before, pool.show(binds[i].ty))? {
            return Ok(false);
        }
    }
    Ok(true)
}

/// Whether there is one atom, at the root and without exact names.
fn are_plain(xs: &[Atom]) -> bool
    ensures { IsTrue result → (Q : Path) × (xs.now ≡ shown_atom (this_atom Q) ∷ []) }
{
    if xs.len() != 1 || xs[0].exact.len() != 0 {
        return false;
    }
    match xs[0].anchor {
        Anchor::Root => true,
        Anchor::Up(_, _) => false,
    }
}

/// Whether it is the type of `this` in a class.
fn is_this(t: &Ty) -> bool
    ensures { IsTrue result → (Q : Path) × (t.now ≡ this_type Q) }
{
    match t {
        Ty::Class(xs, m) => m.0 == [0, 0, 0, 0] && are_plain(xs.as_slice()),
        Ty::Int => false,
        Ty::Bool => false,
        Ty::Null => false,
        Ty::Void => false,
    }
}

/// Whether the scope is of types of the pool and fits, with `this` as its oldest path.
pub fn scope_fits(alloc: Global, pool: &Pool, scope: &Scope) -> Result<bool, AllocError>
    ensures known { IfOk result (λ r. IsTrue r → ScopeInPool pool.now scope.now) }
    ensures fits { IfOk result (λ r. IsTrue r → ScopeFits (scope_in pool.now scope.now)) }
{
    let binds = scope.binds.as_slice();
    if binds.is_empty() || !are_known(pool, binds) {
        return Ok(false);
    }
    if binds[0].path != 0 || !is_this(pool.show(binds[0].ty)) {
        return Ok(false);
    }
    binds_fit(alloc, pool, binds)
}
