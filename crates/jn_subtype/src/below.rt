ghost use Rattle.std.specs.Prelude.{◌↔◌, All, IfOk, IsTrue, map};
ghost use Rattle.jn_reach.specs.Chain.{Chain};
ghost use Rattle.jn_base.specs.declared.tree.Program.{Program};
ghost use Rattle.jn_base.specs.Atoms.{atom_of};
ghost use Rattle.jn_base.specs.Fits.{Anchored, BindsFit, TypeFits};
ghost use Rattle.jn_table.specs.Tables.{IsFilled};
ghost use Rattle.jn_intern.specs.Pools.{ScopeInPool, scope_in};
ghost use Rattle.jn_sem.specs.Widening.{Widens};
ghost use Rattle.jn_sem.specs.Below.{ReachedFrom, BelowAtoms, Below};

use crate::ends::ends;
use crate::turns::turns;
use jn_base::types::{Atom, Ty};
use jn_intern::{Pool, Scope};
use jn_masks::within;
use jn_normal::Conjunct;
use jn_table::Table;
use std::alloc::{AllocError, Global};

/// Whether `y` is the end of a chain of widening steps from `x`.
pub fn below(
    alloc: Global,
    pool: &Pool,
    scope: &Scope,
    table: &Table,
    x: &Conjunct,
    y: &Conjunct,
) -> Result<bool, AllocError>
    requires known { ScopeInPool pool.now scope.now }
    requires fits { BindsFit (scope_in pool.now scope.now) }
    requires anchored { Anchored (scope_in pool.now scope.now) x.now.anchor }
    ensures { IfOk result (λ r. (p : Program) → IsFilled p table.now → IsTrue r
        ↔ Chain (Widens p (scope_in pool.now scope.now)) x.now y.now) }
{
    if ends(alloc, pool, scope, table, x, y)? {
        return Ok(true);
    }
    let all = turns(alloc, pool, scope, table, x)?;
    for t in all.as_slice() {
        if below(alloc, pool, scope, table, t, y)? {
            return Ok(true);
        }
    }
    Ok(false)
}

/// Whether `y` is the end of a chain of widening steps from one of the atoms.
fn is_reached(
    alloc: Global,
    pool: &Pool,
    scope: &Scope,
    table: &Table,
    xs: &[Atom],
    y: &Atom,
) -> Result<bool, AllocError>
    requires known { ScopeInPool pool.now scope.now }
    requires fits { BindsFit (scope_in pool.now scope.now) }
    requires anchored { All (λ x. Anchored (scope_in pool.now scope.now) x.anchor) xs.now }
    ensures { IfOk result (λ r. (p : Program) → IsFilled p table.now → IsTrue r
        ↔ ReachedFrom p (scope_in pool.now scope.now) (map atom_of xs.now) (atom_of y.now)) }
{
    let end = Conjunct::at(alloc, y.anchor, y)?;
    for x in xs {
        let start = Conjunct::at(alloc, x.anchor, x)?;
        if below(alloc, pool, scope, table, &start, &end)? {
            return Ok(true);
        }
    }
    Ok(false)
}

/// Whether each of the upper atoms is reached from one of the lower ones.
fn are_reached(
    alloc: Global,
    pool: &Pool,
    scope: &Scope,
    table: &Table,
    xs: &[Atom],
    ys: &[Atom],
) -> Result<bool, AllocError>
    requires known { ScopeInPool pool.now scope.now }
    requires fits { BindsFit (scope_in pool.now scope.now) }
    requires anchored { All (λ x. Anchored (scope_in pool.now scope.now) x.anchor) xs.now }
    ensures { IfOk result (λ r. (p : Program) → IsFilled p table.now → IsTrue r
        ↔ BelowAtoms p (scope_in pool.now scope.now) (map atom_of xs.now) (map atom_of ys.now)) }
{
    for y in ys {
        if !is_reached(alloc, pool, scope, table, xs, y)? {
            return Ok(false);
        }
    }
    Ok(true)
}

/// Whether the type `s` is below the type `t`.
#[tactic(auto, using(crate::proofs::Reaching::both_ints, crate::proofs::Reaching::both_booleans, crate::proofs::Reaching::null_below))]
pub fn is_below(
    alloc: Global,
    pool: &Pool,
    scope: &Scope,
    table: &Table,
    s: &Ty,
    t: &Ty,
) -> Result<bool, AllocError>
    requires known { ScopeInPool pool.now scope.now }
    requires fits { BindsFit (scope_in pool.now scope.now) }
    requires s_fits { TypeFits (scope_in pool.now scope.now) s.now }
    ensures { IfOk result (λ r. (p : Program) → IsFilled p table.now → IsTrue r
        ↔ Below p (scope_in pool.now scope.now) s.now t.now) }
{
    match s {
        Ty::Int => Ok(matches!(t, Ty::Int)),
        Ty::Bool => Ok(matches!(t, Ty::Bool)),
        Ty::Null => Ok(matches!(t, Ty::Class(_, _))),
        Ty::Void => Ok(false),
        Ty::Class(xs, m) => match t {
            Ty::Class(ys, n) => {
                if !within(*m, *n) {
                    return Ok(false);
                }
                are_reached(alloc, pool, scope, table, xs.as_slice(), ys.as_slice())
            }
            _ => Ok(false),
        },
    }
}
