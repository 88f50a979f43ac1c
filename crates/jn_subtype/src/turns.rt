ghost use Rattle.std.specs.Prelude.{◌↔◌, All, Contains, IfOk};
ghost use Rattle.jn_base.specs.declared.tree.Program.{Program};
ghost use Rattle.jn_base.specs.Atoms.{Atom as AnAtom};
ghost use Rattle.jn_base.specs.Fits.{Anchored, BindsFit};
ghost use Rattle.jn_table.specs.Tables.{IsFilled};
ghost use Rattle.jn_intern.specs.Pools.{ScopeInPool, scope_in};
ghost use Rattle.jn_sem.specs.Search.{TurnsTo};
ghost use Rattle.jn_subtype.specs.Older.{IsOlder};
ghost use Rattle.jn_subtype.specs.Turns.{SpreadEnters};

use crate::climbs::climbs;
use crate::enters::enters;
use crate::spreads::spreads;
use jn_intern::{Pool, Scope};
use jn_normal::Conjunct;
use jn_table::Table;
use std::alloc::{AllocError, Global};

/// The atoms to which one step 4 or none and then one step 3 lead from `z`.
fn spread_and_enter(
    alloc: Global,
    pool: &Pool,
    scope: &Scope,
    table: &Table,
    z: &Conjunct,
) -> Result<Vec<Conjunct>, AllocError>
    requires known { ScopeInPool pool.now scope.now }
    requires fits { BindsFit (scope_in pool.now scope.now) }
    requires anchored { Anchored (scope_in pool.now scope.now) z.now.anchor }
    ensures exact { IfOk result (λ ts. (p : Program) → IsFilled p table.now → (t : AnAtom) → Contains ts.items t
        ↔ SpreadEnters p (scope_in pool.now scope.now) z.now t) }
    ensures older { IfOk result (λ ts. All (IsOlder (scope_in pool.now scope.now) z.now) ts.items) }
{
    let ws = spreads(alloc, pool, scope, table, z)?;
    let mut all = Vec::new(alloc);
    for w in ws.as_slice() {
        let mut more = enters(alloc, pool, scope, table, w)?;
        all.append(&mut more)?;
    }
    Ok(all)
}

/// The atoms that are reached from `x` with one atom of its path's type: by steps 1 and 2, then one step 4 or none,
/// then one step 3. Each has an older path, or none.
pub fn turns(
    alloc: Global,
    pool: &Pool,
    scope: &Scope,
    table: &Table,
    x: &Conjunct,
) -> Result<Vec<Conjunct>, AllocError>
    requires known { ScopeInPool pool.now scope.now }
    requires fits { BindsFit (scope_in pool.now scope.now) }
    requires anchored { Anchored (scope_in pool.now scope.now) x.now.anchor }
    ensures exact { IfOk result (λ ts. (p : Program) → IsFilled p table.now → (t : AnAtom) → Contains ts.items t
        ↔ TurnsTo p (scope_in pool.now scope.now) x.now t) }
    ensures older { IfOk result (λ ts. All (IsOlder (scope_in pool.now scope.now) x.now) ts.items) }
{
    let zs = climbs(alloc, pool, scope, table, x)?;
    let mut all = Vec::new(alloc);
    for z in zs.as_slice() {
        let mut more = spread_and_enter(alloc, pool, scope, table, z)?;
        all.append(&mut more)?;
    }
    Ok(all)
}
