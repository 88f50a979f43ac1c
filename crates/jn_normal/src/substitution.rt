ghost use Rattle.std.specs.Prelude.{◌≡◌, IfOk, All, length, map};
ghost use Rattle.jn_base.specs.Atoms.{atom_of};
ghost use Rattle.jn_base.specs.Fits.{Anchored, BindsFit, TypeFits, ScopeFits};
ghost use Rattle.jn_sem.specs.Normal.{moved_anchor, swapped, MovedFits, TypeSubst, NormalType};
ghost use Rattle.jn_sem.specs.NormalFunction.{in_order, moved_normal, subst_type};
ghost use Rattle.jn_intern.specs.Pools.{InPool, ScopeInPool, shown, scope_in, Keeps};

use crate::conjunct::Conjunct;
use crate::rewriting::normal_atom;
use jn_base::types::{Anchor, Atom, Ty};
use jn_intern::{Pool, Scope, TyId};
use sqlite_items::Items;
use std::alloc::{AllocError, Global};

/// What stands for the path `q`: `to[i]` where it is `from[i]`, else `q` itself.
#[tactic(auto, using(crate::proofs::Replacing::swapped_next))]
fn replacement(from: &[u32], to: &[u32], q: u32) -> u32
    requires { length from.now ≡ length to.now }
    ensures { result ≡ swapped from.now to.now q }
{
    for i in 0..from.len() {
        if q == from[i] {
            return to[i];
        }
    }
    q
}

/// The anchor with its path replaced.
pub fn moved(from: &[u32], to: &[u32], a: Anchor) -> Anchor
    requires { length from.now ≡ length to.now }
    ensures { result ≡ moved_anchor (swapped from.now to.now) a }
{
    match a {
        Anchor::Root => Anchor::Root,
        Anchor::Up(q, k) => Anchor::Up(replacement(from, to, q), k),
    }
}

/// The normal forms of the atoms with their paths replaced, in the order of the atoms.
fn normals(
    alloc: Global,
    pool: &Pool,
    scope: &Scope,
    xs: &[Atom],
    from: &[u32],
    to: &[u32],
) -> Result<Vec<Conjunct>, AllocError>
    requires long { length from.now ≡ length to.now }
    requires known { ScopeInPool pool.now scope.now }
    requires fits { BindsFit (scope_in pool.now scope.now) }
    requires anchored { All
        (λ x. Anchored (scope_in pool.now scope.now) (moved_anchor (swapped from.now to.now) x.anchor)) xs.now }
    ensures { IfOk result (λ ys. ys.items
        ≡ map (moved_normal (scope_in pool.now scope.now) (swapped from.now to.now)) (map atom_of xs.now)) }
{
    let mut all = Vec::new(alloc);
    for x in xs {
        let start = Conjunct::at(alloc, moved(from, to, x.anchor), x)?;
        let one = normal_atom(alloc, pool, scope, start)?;
        all.push(one)?;
    }
    Ok(all)
}

/// The atoms in order, without doubles.
fn in_order(xs: Vec<Conjunct>) -> Result<Vec<Conjunct>, AllocError>
    ensures { IfOk result (λ ys. ys.items ≡ in_order xs.items) }
{
    let mut all = xs;
    all.sort()?;
    all.dedup();
    Ok(all)
}

/// The atoms as a type has them.
fn shown_atoms(alloc: Global, xs: Vec<Conjunct>) -> Result<Items<Atom>, AllocError>
    ensures { IfOk result (λ ys. map atom_of ys ≡ xs.items) }
{
    let mut all = Items::new(alloc);
    for x in xs {
        all.push(x.shown())?;
    }
    Ok(all)
}

/// The type with its paths replaced, in normal form.
fn substituted(
    alloc: Global,
    pool: &Pool,
    scope: &Scope,
    t: &Ty,
    from: &[u32],
    to: &[u32],
) -> Result<Ty, AllocError>
    requires long { length from.now ≡ length to.now }
    requires known { ScopeInPool pool.now scope.now }
    requires fits { BindsFit (scope_in pool.now scope.now) }
    requires type_fits { MovedFits (scope_in pool.now scope.now) (swapped from.now to.now) t.now }
    ensures { IfOk result (λ u. u ≡ subst_type (scope_in pool.now scope.now) (swapped from.now to.now) t.now) }
{
    match t {
        Ty::Int => Ok(Ty::Int),
        Ty::Bool => Ok(Ty::Bool),
        Ty::Null => Ok(Ty::Null),
        Ty::Void => Ok(Ty::Void),
        Ty::Class(atoms, masks) => {
            let forms = normals(alloc, pool, scope, atoms.as_slice(), from, to)?;
            let sorted = in_order(forms)?;
            let shown = shown_atoms(alloc, sorted)?;
            Ok(Ty::Class(shown, *masks))
        }
    }
}

/// The number of the type with `to[i]` put for each path `from[i]`, all at once, in normal form.
///
/// The scope fits, and so does the type with its paths replaced.
pub fn subst(
    alloc: Global,
    pool: &mut Pool,
    scope: &Scope,
    t: TyId,
    from: &[u32],
    to: &[u32],
) -> Result<TyId, AllocError>
    requires long { length from.now ≡ length to.now }
    requires number { InPool pool.old t }
    requires known { ScopeInPool pool.old scope.now }
    requires fits { ScopeFits (scope_in pool.old scope.now) }
    requires type_fits { MovedFits (scope_in pool.old scope.now) (swapped from.now to.now) (shown pool.old t) }
    ensures keeps { Keeps pool.old pool.new }
    ensures number { IfOk result (λ u. InPool pool.new u) }
    ensures subst { IfOk result
        (λ u. TypeSubst (scope_in pool.old scope.now) (swapped from.now to.now) (shown pool.old t)
        (shown pool.new u)) }
{
    let term = substituted(alloc, pool, scope, pool.show(t), from, to)?;
    let id = pool.intern(&term)?;
    Ok(id)
}

/// The number of the type's normal form.
///
/// The scope fits, and so does the type.
pub fn normal(alloc: Global, pool: &mut Pool, scope: &Scope, t: TyId) -> Result<TyId, AllocError>
    requires number { InPool pool.old t }
    requires known { ScopeInPool pool.old scope.now }
    requires fits { ScopeFits (scope_in pool.old scope.now) }
    requires type_fits { TypeFits (scope_in pool.old scope.now) (shown pool.old t) }
    ensures keeps { Keeps pool.old pool.new }
    ensures number { IfOk result (λ u. InPool pool.new u) }
    ensures normal { IfOk result (λ u. NormalType (scope_in pool.old scope.now) (shown pool.old t) (shown pool.new u)) }
{
    let id = subst(alloc, pool, scope, t, &[], &[])?;
    Ok(id)
}
