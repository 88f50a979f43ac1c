ghost use Rattle.std.specs.Prelude.{◌≡◌, ◌↔◌, All, Contains, IfOk, OnOk, drop, length};
ghost use Rattle.jn_base.specs.declared.tree.Program.{Program};
ghost use Rattle.jn_base.specs.Atoms.{Atom as AnAtom};
ghost use Rattle.jn_base.specs.Fits.{BindsFit};
ghost use Rattle.jn_table.specs.Tables.{IsFilled};
ghost use Rattle.jn_intern.specs.Pools.{ScopeInPool, scope_in};
ghost use Rattle.jn_sem.specs.Search.{Spreads, spread};
ghost use Rattle.jn_subtype.specs.Turns.{Adds};

use crate::bounds::bound_in;
use jn_intern::{Pool, Scope};
use jn_names::Bound;
use jn_normal::Conjunct;
use jn_table::Table;
use std::alloc::{AllocError, Global};

/// Adds `z` with the inexact names of the path, where its other names are the outer ones.
fn add_spread(
    alloc: Global,
    z: &Conjunct,
    outer: &Bound,
    above: &Bound,
    all: &mut Vec<Conjunct>,
) -> Result<(), AllocError>
    ensures { OnOk result (Adds (λ w. (drop (length z.now.names) above.now ≡ outer.now)
        × (w ≡ spread z.now above.now)) all.old.items all.new.items) }
{
    let n = z.names().len();
    let rest = above.without(alloc, n)?;
    if !rest.is(outer) {
        return Ok(());
    }
    let names = above.names();
    let from = names.len().saturating_sub(n);
    let w = Conjunct::of(alloc, z.anchor(), z.exact(), &names[from..])?;
    all.push(w)?;
    Ok(())
}

/// The atoms to which one step 4 or none leads from `z`: the inexact names become those of a super of the bound that
/// has the same outer names.
pub fn spreads(
    alloc: Global,
    pool: &Pool,
    scope: &Scope,
    table: &Table,
    z: &Conjunct,
) -> Result<Vec<Conjunct>, AllocError>
    requires known { ScopeInPool pool.now scope.now }
    requires fits { BindsFit (scope_in pool.now scope.now) }
    ensures exact { IfOk result (λ ws. (p : Program) → IsFilled p table.now → (w : AnAtom) → Contains ws.items w
        ↔ Spreads p (scope_in pool.now scope.now) z.now w) }
    ensures anchors { IfOk result (λ ws. All (λ w. w.anchor ≡ z.now.anchor) ws.items) }
{
    let b = bound_in(alloc, pool, scope, z)?;
    let outer = b.without(alloc, z.names().len())?;
    let supers = b.supers(alloc, table)?;
    let mut all = Vec::new(alloc);
    for above in supers.as_slice() {
        add_spread(alloc, z, &outer, above, &mut all)?;
    }
    Ok(all)
}
