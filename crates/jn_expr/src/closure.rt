//! The root closure of a type: each path is replaced by the atoms of its own type, until none is left.

ghost use Rattle.std.specs.Prelude.{◌≡◌, ◌↔◌, ◌<◌, ◌^◌, [], ◌∷◌, All, Contains, IfOk, map};
ghost use Rattle.jn_base.specs.declared.tree.Program.{Program};
ghost use Rattle.jn_base.specs.Atoms.{Atom as AnAtom, Among, atom_of, atoms_in, levels};
ghost use Rattle.jn_base.specs.Fits.{Anchored, BindsFit, TypeFits};
ghost use Rattle.jn_intern.specs.Pools.{ScopeInPool, scope_in};
ghost use Rattle.jn_sem.specs.RootClosure.{Opens, InClosure};
ghost use Rattle.jn_sem.specs.Widening.{replaced};
ghost use Rattle.jn_subtype.specs.Older.{IsOlder};
ghost use Rattle.jn_table.specs.Tables.{IsFilled};
ghost use Rattle.jn_rules.specs.Questions.{IsClosure};
ghost use Rattle.jn_expr.specs.Closed.{OpensBy};

use jn_base::types::{Anchor, Atom, Ty};
use jn_intern::{Pool, Scope, bind_of};
use jn_normal::Conjunct;
use jn_subtype::scope_bound;
use jn_table::Table;
use sqlite_items::Items;
use std::alloc::{AllocError, Global};

/// The atom alone.
fn only(alloc: Global, x: &Atom) -> Result<Items<Atom>, AllocError>
    ensures { IfOk result (λ ts. map atom_of ts ≡ atom_of x.now ∷ []) }
{
    let mut one = Items::new(alloc);
    let copy = Conjunct::at(alloc, x.anchor, x)?;
    one.push(copy.shown())?;
    Ok(one)
}

/// What the atom `z` of the path's type makes of the atom.
fn replace(alloc: Global, x: &Atom, z: &Atom, k: usize) -> Result<Atom, AllocError>
    requires { levels (replaced (atom_of z.now) k (atom_of x.now)).anchor < 2 ^ 8 }
    ensures { IfOk result (λ y. atom_of y ≡ replaced (atom_of z.now) k (atom_of x.now)) }
{
    let start = Conjunct::at(alloc, x.anchor, x)?;
    let end = start.replaced(alloc, z, k)?;
    Ok(end.shown())
}

/// The atoms that the closure puts for an atom, by those of its path's type.
#[cycle(opening)]
fn open_atoms(
    alloc: Global,
    pool: &Pool,
    scope: &Scope,
    table: &Table,
    x: &Atom,
    zs: &[Atom],
    k: usize,
) -> Result<Items<Atom>, AllocError>
    requires known { ScopeInPool pool.now scope.now }
    requires fits { BindsFit (scope_in pool.now scope.now) }
    requires older { (z : AnAtom) → Among (map atom_of zs.now) z
        → IsOlder (scope_in pool.now scope.now) (atom_of x.now) (replaced z k (atom_of x.now)) }
    ensures { IfOk result (λ ts. (p : Program) → IsFilled p table.now → (t : AnAtom) → Contains (map atom_of ts) t
        ↔ OpensBy p (scope_in pool.now scope.now) (map atom_of zs.now) k (atom_of x.now) t) }
{
    let mut all = Items::new(alloc);
    for z in zs {
        let y = replace(alloc, x, z, k)?;
        let more = open(alloc, pool, scope, table, &y)?;
        all.append(more)?;
    }
    Ok(all)
}

/// The atoms that the closure puts for an atom, by its path's type.
#[cycle(opening)]
fn open_type(
    alloc: Global,
    pool: &Pool,
    scope: &Scope,
    table: &Table,
    x: &Atom,
    ty: &Ty,
    k: usize,
) -> Result<Items<Atom>, AllocError>
    requires known { ScopeInPool pool.now scope.now }
    requires fits { BindsFit (scope_in pool.now scope.now) }
    requires older { (z : AnAtom) → Among (atoms_in ty.now) z
        → IsOlder (scope_in pool.now scope.now) (atom_of x.now) (replaced z k (atom_of x.now)) }
    ensures { IfOk result (λ ts. (p : Program) → IsFilled p table.now → (t : AnAtom) → Contains (map atom_of ts) t
        ↔ OpensBy p (scope_in pool.now scope.now) (atoms_in ty.now) k (atom_of x.now) t) }
{
    match ty {
        Ty::Class(zs, _) => open_atoms(alloc, pool, scope, table, x, zs.as_slice(), k),
        Ty::Int => Ok(Items::new(alloc)),
        Ty::Bool => Ok(Items::new(alloc)),
        Ty::Null => Ok(Items::new(alloc)),
        Ty::Void => Ok(Items::new(alloc)),
    }
}

/// The atoms that the closure puts for an atom.
#[cycle(opening)]
fn open(
    alloc: Global,
    pool: &Pool,
    scope: &Scope,
    table: &Table,
    x: &Atom,
) -> Result<Items<Atom>, AllocError>
    requires known { ScopeInPool pool.now scope.now }
    requires fits { BindsFit (scope_in pool.now scope.now) }
    requires anchored { Anchored (scope_in pool.now scope.now) x.now.anchor }
    ensures { IfOk result (λ ts. (p : Program) → IsFilled p table.now → (t : AnAtom) → Contains (map atom_of ts) t
        ↔ Opens p (scope_in pool.now scope.now) (atom_of x.now) t) }
{
    let bound = scope_bound(alloc, pool, scope, x)?;
    if !bound.is_known(table) {
        return Ok(Items::new(alloc));
    }
    match x.anchor {
        Anchor::Root => only(alloc, x),
        Anchor::Up(path, k) => match bind_of(scope.binds.as_slice(), path) {
            None => Ok(Items::new(alloc)),
            Some(b) => open_type(alloc, pool, scope, table, x, pool.show(b.ty), k as usize),
        },
    }
}

/// The atoms of the root closure of these.
fn close_atoms(
    alloc: Global,
    pool: &Pool,
    scope: &Scope,
    table: &Table,
    xs: &[Atom],
) -> Result<Items<Atom>, AllocError>
    requires known { ScopeInPool pool.now scope.now }
    requires fits { BindsFit (scope_in pool.now scope.now) }
    requires anchored { All (λ x. Anchored (scope_in pool.now scope.now) x.anchor) xs.now }
    ensures { IfOk result (λ ts. (p : Program) → IsFilled p table.now → (t : AnAtom) → Contains (map atom_of ts) t
        ↔ InClosure p (scope_in pool.now scope.now) (map atom_of xs.now) t) }
{
    let mut all = Items::new(alloc);
    for x in xs {
        let more = open(alloc, pool, scope, table, x)?;
        all.append(more)?;
    }
    Ok(all)
}

/// The atoms of the root closure of a type. No other type than a class type has one.
pub fn closed(
    alloc: Global,
    pool: &Pool,
    scope: &Scope,
    table: &Table,
    ty: &Ty,
) -> Result<Items<Atom>, AllocError>
    requires known { ScopeInPool pool.now scope.now }
    requires fits { BindsFit (scope_in pool.now scope.now) }
    requires ty { TypeFits (scope_in pool.now scope.now) ty.now }
    ensures { IfOk result (λ ts. (p : Program) → IsFilled p table.now
        → IsClosure p (scope_in pool.now scope.now) ty.now (map atom_of ts)) }
{
    match ty {
        Ty::Class(xs, _) => close_atoms(alloc, pool, scope, table, xs.as_slice()),
        Ty::Int => Ok(Items::new(alloc)),
        Ty::Bool => Ok(Items::new(alloc)),
        Ty::Null => Ok(Items::new(alloc)),
        Ty::Void => Ok(Items::new(alloc)),
    }
}
