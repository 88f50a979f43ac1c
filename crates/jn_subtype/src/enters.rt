ghost use Rattle.std.specs.Prelude.{◌≡◌, ◌↔◌, All, Contains, IfOk, OnOk, map};
ghost use Rattle.jn_base.specs.declared.tree.Program.{Program};
ghost use Rattle.jn_base.specs.Universe.{InUniverse};
ghost use Rattle.jn_base.specs.Atoms.{Atom as AnAtom, Among, atom_of, atoms_in};
ghost use Rattle.jn_base.specs.Scopes.{bound};
ghost use Rattle.jn_base.specs.Fits.{Anchored, BindsFit};
ghost use Rattle.jn_table.specs.Tables.{IsFilled};
ghost use Rattle.jn_intern.specs.Pools.{ScopeInPool, scope_in};
ghost use Rattle.jn_sem.specs.Widening.{replaced};
ghost use Rattle.jn_sem.specs.Search.{Enters};
ghost use Rattle.jn_subtype.specs.Older.{IsOlder};
ghost use Rattle.jn_subtype.specs.Turns.{Adds, Replaces};

use crate::bounds::bound_in;
use jn_base::types::{Anchor, Atom, Ty};
use jn_intern::{Pool, Scope, bind_of};
use jn_normal::Conjunct;
use jn_table::Table;
use std::alloc::{AllocError, Global};

/// Adds what the atom `z` of the path's type makes of `w`, where the bound is then one of the universe.
fn add_replaced(
    alloc: Global,
    pool: &Pool,
    scope: &Scope,
    table: &Table,
    w: &Conjunct,
    z: &Atom,
    k: usize,
    all: &mut Vec<Conjunct>,
) -> Result<(), AllocError>
    requires known { ScopeInPool pool.now scope.now }
    requires fits { BindsFit (scope_in pool.now scope.now) }
    requires older { IsOlder (scope_in pool.now scope.now) w.now (replaced (atom_of z.now) k w.now) }
    ensures exact { OnOk result ((p : Program) → IsFilled p table.now
        → Adds (λ t. (t ≡ replaced (atom_of z.now) k w.now)
        × InUniverse p (bound (scope_in pool.now scope.now) t)) all.old.items all.new.items) }
    ensures older { OnOk result (All (IsOlder (scope_in pool.now scope.now) w.now) all.old.items
        → All (IsOlder (scope_in pool.now scope.now) w.now) all.new.items) }
{
    let t = w.replaced(alloc, z, k)?;
    let b = bound_in(alloc, pool, scope, &t)?;
    if !b.is_known(table) {
        return Ok(());
    }
    all.push(t)?;
    Ok(())
}

/// What each of the atoms makes of `w`, where the bound is then one of the universe.
fn by_atoms(
    alloc: Global,
    pool: &Pool,
    scope: &Scope,
    table: &Table,
    w: &Conjunct,
    atoms: &[Atom],
    k: usize,
) -> Result<Vec<Conjunct>, AllocError>
    requires known { ScopeInPool pool.now scope.now }
    requires fits { BindsFit (scope_in pool.now scope.now) }
    requires older { (z : AnAtom) → Among (map atom_of atoms.now) z
        → IsOlder (scope_in pool.now scope.now) w.now (replaced z k w.now) }
    ensures exact { IfOk result (λ ts. (p : Program) → IsFilled p table.now → (t : AnAtom) → Contains ts.items t
        ↔ Replaces p (scope_in pool.now scope.now) (map atom_of atoms.now) k w.now t) }
    ensures older { IfOk result (λ ts. All (IsOlder (scope_in pool.now scope.now) w.now) ts.items) }
{
    let mut all = Vec::new(alloc);
    for z in atoms {
        add_replaced(alloc, pool, scope, table, w, z, k, &mut all)?;
    }
    Ok(all)
}

/// What each atom of a type makes of `w`, where the bound is then one of the universe.
fn by_type(
    alloc: Global,
    pool: &Pool,
    scope: &Scope,
    table: &Table,
    w: &Conjunct,
    ty: &Ty,
    k: usize,
) -> Result<Vec<Conjunct>, AllocError>
    requires known { ScopeInPool pool.now scope.now }
    requires fits { BindsFit (scope_in pool.now scope.now) }
    requires older { (z : AnAtom) → Among (atoms_in ty.now) z
        → IsOlder (scope_in pool.now scope.now) w.now (replaced z k w.now) }
    ensures exact { IfOk result (λ ts. (p : Program) → IsFilled p table.now → (t : AnAtom) → Contains ts.items t
        ↔ Replaces p (scope_in pool.now scope.now) (atoms_in ty.now) k w.now t) }
    ensures older { IfOk result (λ ts. All (IsOlder (scope_in pool.now scope.now) w.now) ts.items) }
{
    match ty {
        Ty::Class(atoms, _) => by_atoms(alloc, pool, scope, table, w, atoms.as_slice(), k),
        Ty::Int => Ok(Vec::new(alloc)),
        Ty::Bool => Ok(Vec::new(alloc)),
        Ty::Null => Ok(Vec::new(alloc)),
        Ty::Void => Ok(Vec::new(alloc)),
    }
}

/// The atoms to which a step 3 leads from `w`: each atom of its path's type stands for the path, where the bound is
/// then one of the universe.
pub fn enters(
    alloc: Global,
    pool: &Pool,
    scope: &Scope,
    table: &Table,
    w: &Conjunct,
) -> Result<Vec<Conjunct>, AllocError>
    requires known { ScopeInPool pool.now scope.now }
    requires fits { BindsFit (scope_in pool.now scope.now) }
    requires anchored { Anchored (scope_in pool.now scope.now) w.now.anchor }
    ensures exact { IfOk result (λ ts. (p : Program) → IsFilled p table.now → (t : AnAtom) → Contains ts.items t
        ↔ Enters p (scope_in pool.now scope.now) w.now t) }
    ensures older { IfOk result (λ ts. All (IsOlder (scope_in pool.now scope.now) w.now) ts.items) }
{
    match w.anchor() {
        Anchor::Root => Ok(Vec::new(alloc)),
        Anchor::Up(path, k) => match bind_of(scope.binds.as_slice(), path) {
            None => Ok(Vec::new(alloc)),
            Some(b) => by_type(alloc, pool, scope, table, w, pool.show(b.ty), k as usize),
        },
    }
}
