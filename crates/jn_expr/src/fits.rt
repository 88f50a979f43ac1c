//! Which types fit a scope.
//!
//! The types of an accepted header, and those that expressions get by the rules, fit the scopes in which they get them;
//! where one didn't, a call would tell nothing.

ghost use Rattle.std.specs.Prelude.{◌≡◌, IfOk, IsTrue, All, map, length};
ghost use Rattle.jn_base.specs.Atoms.{atom_of};
ghost use Rattle.jn_base.specs.Scopes.{bound};
ghost use Rattle.jn_base.specs.Fits.{Anchored, AtomsFit, TypeFits};
ghost use Rattle.jn_intern.specs.Pools.{ScopeInPool, scope_in};
ghost use Rattle.jn_expr.specs.Fitting.{FitsAt};

use jn_base::types::{Anchor, Atom, Ty};
use jn_intern::{Pool, Scope};
use jn_subtype::{atom_bound, path_bound};
use std::alloc::{AllocError, Global};

/// How many names the bound of an atom has.
fn depth_of(alloc: Global, pool: &Pool, scope: &Scope, x: &Atom) -> Result<usize, AllocError>
    requires { ScopeInPool pool.now scope.now }
    ensures { IfOk result (λ n. n ≡ length (bound (scope_in pool.now scope.now) (atom_of x.now))) }
{
    let b = atom_bound(alloc, pool, scope.binds.as_slice(), x)?;
    Ok(b.depth())
}

/// Whether the anchor's path is in the scope, with a bound of more names than are taken off.
fn is_anchored(alloc: Global, pool: &Pool, scope: &Scope, a: Anchor) -> Result<bool, AllocError>
    requires { ScopeInPool pool.now scope.now }
    ensures { IfOk result (λ r. IsTrue r → Anchored (scope_in pool.now scope.now) a) }
{
    match a {
        Anchor::Root => Ok(true),
        Anchor::Up(q, k) => {
            let b = path_bound(alloc, pool, scope.binds.as_slice(), q)?;
            Ok((k as usize) < b.depth())
        }
    }
}

/// Whether the atom is anchored, and its bound has so many names.
fn fits_at(
    alloc: Global,
    pool: &Pool,
    scope: &Scope,
    x: &Atom,
    depth: usize,
) -> Result<bool, AllocError>
    requires { ScopeInPool pool.now scope.now }
    ensures { IfOk result (λ r. IsTrue r → FitsAt (scope_in pool.now scope.now) depth (atom_of x.now)) }
{
    if !is_anchored(alloc, pool, scope, x.anchor)? {
        return Ok(false);
    }
    let n = depth_of(alloc, pool, scope, x)?;
    Ok(n == depth)
}

/// Whether each of the atoms fits, with a bound of so many names.
fn all_fit_at(
    alloc: Global,
    pool: &Pool,
    scope: &Scope,
    xs: &[Atom],
    depth: usize,
) -> Result<bool, AllocError>
    requires { ScopeInPool pool.now scope.now }
    ensures { IfOk result (λ r. IsTrue r
        → All (λ x. FitsAt (scope_in pool.now scope.now) depth (atom_of x)) xs.now) }
{
    for x in xs {
        if !fits_at(alloc, pool, scope, x, depth)? {
            return Ok(false);
        }
    }
    Ok(true)
}

/// Whether the atoms fit the scope.
pub fn atoms_fit(alloc: Global, pool: &Pool, scope: &Scope, xs: &[Atom]) -> Result<bool, AllocError>
    requires { ScopeInPool pool.now scope.now }
    ensures { IfOk result (λ r. IsTrue r → AtomsFit (scope_in pool.now scope.now) (map atom_of xs.now)) }
{
    match xs.first() {
        None => Ok(false),
        Some(one) => {
            let depth = depth_of(alloc, pool, scope, one)?;
            if depth > 255 {
                return Ok(false);
            }
            all_fit_at(alloc, pool, scope, xs, depth)
        }
    }
}

/// Whether the type fits the scope.
pub fn type_fits(alloc: Global, pool: &Pool, scope: &Scope, ty: &Ty) -> Result<bool, AllocError>
    requires { ScopeInPool pool.now scope.now }
    ensures { IfOk result (λ r. IsTrue r → TypeFits (scope_in pool.now scope.now) ty.now) }
{
    match ty {
        Ty::Class(xs, _) => atoms_fit(alloc, pool, scope, xs.as_slice()),
        Ty::Int => Ok(true),
        Ty::Bool => Ok(true),
        Ty::Null => Ok(true),
        Ty::Void => Ok(true),
    }
}
