ghost use Rattle.std.specs.Prelude.{◌≡◌, ◌↔◌, ◌<◌, ◌-◌, ◌^◌, ℕ, All, Contains, IfOk, length};
ghost use Rattle.jn_reach.specs.Chain.{Chain};
ghost use Rattle.jn_base.specs.declared.tree.Program.{Program};
ghost use Rattle.jn_base.specs.Atoms.{Atom as AnAtom, levels, lifted};
ghost use Rattle.jn_base.specs.Scopes.{Scope as AScope, bound};
ghost use Rattle.jn_base.specs.Fits.{Anchored, BindsFit};
ghost use Rattle.jn_table.specs.Tables.{IsFilled};
ghost use Rattle.jn_intern.specs.Pools.{ScopeInPool, scope_in};
ghost use Rattle.jn_sem.specs.Search.{Climbs, CanClimb, climbed};
ghost use Rattle.jn_subtype.specs.Older.{IsAsOld};

use crate::bounds::bound_in;
use jn_base::types::Anchor;
use jn_intern::{Pool, Scope};
use jn_names::Bound;
use jn_normal::{Conjunct, further};
use jn_table::Table;
use std::alloc::{AllocError, Global};

/// How many atoms steps 1 and 2 lead to, itself among them, where `b` is the bound: one more than the names that can
/// be moved. These are the exact names, and where the bound is in the universe also those of the anchor's bound but
/// for the outermost.
fn count(table: &Table, b: &Bound, x: &Conjunct) -> usize
    ensures exact { (p : Program) (s : AScope) → IsFilled p table.now → b.now ≡ bound s x.now
        → Anchored s x.now.anchor → (i : ℕ) → i < result ↔ CanClimb p s x.now i }
    ensures anchored { (s : AScope) → b.now ≡ bound s x.now → Anchored s x.now.anchor → (i : ℕ) → i < result
        → Anchored s (lifted (i - length x.now.exact) x.now.anchor) }
{
    let exact = x.exact().len();
    match x.anchor() {
        Anchor::Root => exact + 1,
        Anchor::Up(_, _) => {
            if !b.is_known(table) {
                return exact + 1;
            }
            let above = b.depth().saturating_sub(x.names().len());
            above.max(exact + 1)
        }
    }
}

/// The atom after `i` names have been moved, where `b` is its bound.
fn climb(alloc: Global, b: &Bound, x: &Conjunct, i: usize) -> Result<Conjunct, AllocError>
    requires small { levels (lifted (i - length x.now.exact) x.now.anchor) < 2 ^ 8 }
    ensures { IfOk result (λ z. (s : AScope) → b.now ≡ bound s x.now → z ≡ climbed s x.now i) }
{
    let exact = x.exact();
    let names = b.names();
    let anchor = further(i.saturating_sub(exact.len()), x.anchor());
    let kept = exact.len().saturating_sub(i);
    let from = names
        .len()
        .saturating_sub(x.names().len())
        .saturating_sub(i);
    Conjunct::of(alloc, anchor, &exact[..kept], &names[from..])
}

/// The atoms to which steps 1 and 2 lead from `x`, itself first: as many names as can be are moved, one after
/// another, from the innermost exact one outwards and on into the anchor's bound.
pub fn climbs(
    alloc: Global,
    pool: &Pool,
    scope: &Scope,
    table: &Table,
    x: &Conjunct,
) -> Result<Vec<Conjunct>, AllocError>
    requires known { ScopeInPool pool.now scope.now }
    requires fits { BindsFit (scope_in pool.now scope.now) }
    requires anchored { Anchored (scope_in pool.now scope.now) x.now.anchor }
    ensures exact { IfOk result (λ zs. (p : Program) → IsFilled p table.now → (z : AnAtom) → Contains zs.items z
        ↔ Chain (Climbs p (scope_in pool.now scope.now)) x.now z) }
    ensures old { IfOk result (λ zs. All (IsAsOld (scope_in pool.now scope.now) x.now) zs.items) }
{
    let b = bound_in(alloc, pool, scope, x)?;
    let mut all = Vec::new(alloc);
    for i in 0..count(table, &b, x) {
        let z = climb(alloc, &b, x, i)?;
        all.push(z)?;
    }
    Ok(all)
}
