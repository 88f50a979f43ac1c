ghost use Rattle.std.specs.Prelude.{◌≡◌, ◌<◌, ◌≤◌, ◌^◌, All, IfNone, IfOk, IfSome, length, map, reverse, take};
ghost use Rattle.jn_base.specs.Atoms.{atom_of, atoms_in, levels};
ghost use Rattle.jn_base.specs.Fits.{Anchored, BindsFit};
ghost use Rattle.jn_sem.specs.Normal.{by_first, normal};
ghost use Rattle.jn_intern.specs.Pools.{InPool, ScopeInPool, bind_in, scope_in};

use crate::conjunct::Conjunct;
use jn_base::types::{Anchor, Atom, Ty};
use jn_intern::{Bind, Pool, Scope, place_of};
use std::alloc::{AllocError, Global};

/// The atom rewritten by the first of the atoms that has at most `k` inexact names, where there is one.
fn by_first(
    alloc: Global,
    k: usize,
    x: &Conjunct,
    atoms: &[Atom],
) -> Result<Option<Conjunct>, AllocError>
    requires small { levels (by_first k x.now (map atom_of atoms.now)).anchor < 2 ^ 8 }
    ensures some { IfOk result (λ o. IfSome o (λ y. y ≡ by_first k x.now (map atom_of atoms.now))) }
    ensures none { IfOk result (λ o. IfNone o (by_first k x.now (map atom_of atoms.now) ≡ x.now)) }
{
    for z in atoms {
        if z.names.len() <= k {
            return Ok(Some(x.reduced(alloc, z, k)?));
        }
    }
    Ok(None)
}

/// The atom rewritten by its path's type, where it has `k` levels and one of the type's atoms has at most so many
/// inexact names.
fn rewrite(alloc: Global, ty: &Ty, k: usize, x: &Conjunct) -> Result<Option<Conjunct>, AllocError>
    requires small { levels (by_first k x.now (atoms_in ty.now)).anchor < 2 ^ 8 }
    ensures some { IfOk result (λ o. IfSome o (λ y. y ≡ by_first k x.now (atoms_in ty.now))) }
    ensures none { IfOk result (λ o. IfNone o (by_first k x.now (atoms_in ty.now) ≡ x.now)) }
{
    match ty {
        Ty::Class(atoms, _) => by_first(alloc, k, x, atoms.as_slice()),
        Ty::Int => Ok(None),
        Ty::Bool => Ok(None),
        Ty::Null => Ok(None),
        Ty::Void => Ok(None),
    }
}

/// The atom rewritten by the first `n` of the binds, from the newest of them back. Each rewriting brings in an older
/// path, or is the last.
fn normal_from(
    alloc: Global,
    pool: &Pool,
    binds: &[Bind],
    n: usize,
    x: Conjunct,
) -> Result<Conjunct, AllocError>
    requires known { All (λ b. InPool pool.now b.ty) binds.now }
    requires fits { BindsFit (reverse (map (bind_in pool.now) binds.now)) }
    requires within { n ≤ length binds.now }
    requires anchored { Anchored (reverse (map (bind_in pool.now) binds.now)) x.anchor }
    ensures { IfOk result (λ y. y ≡ normal (reverse (map (bind_in pool.now) (take n binds.now))) x) }
{
    match x.anchor() {
        Anchor::Root => Ok(x),
        Anchor::Up(path, k) => match place_of(&binds[..n], path) {
            None => Ok(x),
            Some(i) => match rewrite(alloc, pool.show(binds[i].ty), k as usize, &x)? {
                None => Ok(x),
                Some(y) => normal_from(alloc, pool, binds, i, y),
            },
        },
    }
}

/// The normal form of an atom.
pub fn normal_atom(
    alloc: Global,
    pool: &Pool,
    scope: &Scope,
    x: Conjunct,
) -> Result<Conjunct, AllocError>
    requires known { ScopeInPool pool.now scope.now }
    requires fits { BindsFit (scope_in pool.now scope.now) }
    requires anchored { Anchored (scope_in pool.now scope.now) x.anchor }
    ensures { IfOk result (λ y. y ≡ normal (scope_in pool.now scope.now) x) }
{
    let binds = scope.binds.as_slice();
    normal_from(alloc, pool, binds, binds.len(), x)
}
