//! Types in a scope: which are below which, substitution, normal forms, and fresh paths.

ghost use Rattle.std.specs.Prelude.{◌≡◌, ◌≤◌, suc, IfOk, List, length};
ghost use Rattle.jn_base.specs.declared.tree.Program.{Program};
ghost use Rattle.jn_base.specs.declared.types.Ty.{Ty as AType};
ghost use Rattle.jn_base.specs.Atoms.{Atom, atoms_in, Among};
ghost use Rattle.jn_base.specs.Scopes.{bound};
ghost use Rattle.jn_base.specs.Fits.{TypeFits};
ghost use Rattle.jn_table.specs.Tables.{IsFilled};
ghost use Rattle.jn_intern.specs.Pools.{InPool, shown, scope_in, Keeps};
ghost use Rattle.jn_sem.specs.Below.{Below};
ghost use Rattle.jn_sem.specs.Normal.{swapped, MovedFits};
ghost use Rattle.jn_sem.specs.NormalFunction.{normal_type};
ghost use Rattle.jn_subtype.specs.Binds.{binds_in};
ghost use Rattle.jn_rules.specs.Questions.{Answers};
ghost use Rattle.jn_rules.specs.Exprs.{next_path, put_in};
ghost use Rattle.jn_expr.specs.Envs.{InOrder, IsScope};
ghost use Rattle.jn_expr.specs.Passing.{Shows, IsPassing};
ghost use Rattle.jn_expr.specs.Calling.{DeepAs};

use crate::fits::type_fits;
use jn_intern::{Bind, Pool, Scope, TyId};
use jn_normal::{normal, subst};
use jn_subtype::Judge;
use jn_table::Table;
use std::alloc::{AllocError, Global};

/// Whether the first type is below the second one.
pub fn below(
    judge: &mut Judge,
    pool: &mut Pool,
    table: &Table,
    scope: &Scope,
    s: TyId,
    t: TyId,
) -> Result<bool, AllocError>
    requires s { InPool pool.old s }
    requires t { InPool pool.old t }
    requires scope { IsScope pool.old scope.now }
    requires s_fits { TypeFits (scope_in pool.old scope.now) (shown pool.old s) }
    requires t_fits { TypeFits (scope_in pool.old scope.now) (shown pool.old t) }
    ensures below { IfOk result (λ r. (p : Program) → IsFilled p table.now
        → Answers (Below p (scope_in pool.old scope.now) (shown pool.old s) (shown pool.old t)) r) }
    ensures keeps { Keeps pool.old pool.new }
{
    judge.sub(pool, table, scope, s, t)
}

/// The type with the paths `to` put for the first of the paths `from`, in normal form.
pub fn put_in(
    alloc: Global,
    pool: &mut Pool,
    scope: &Scope,
    t: TyId,
    from: &[u32],
    to: &[u32],
) -> Result<TyId, AllocError>
    requires number { InPool pool.old t }
    requires scope { IsScope pool.old scope.now }
    requires short { length to.now ≤ length from.now }
    requires moved { MovedFits (scope_in pool.old scope.now) (swapped from.now to.now) (shown pool.old t) }
    ensures is { IfOk result (λ u. Shows pool.new u
        (put_in (scope_in pool.old scope.now) from.now to.now (shown pool.old t))) }
    ensures fits { IfOk result (λ u. TypeFits (scope_in pool.new scope.now) (shown pool.new u)) }
    ensures keeps { Keeps pool.old pool.new }
{
    subst(alloc, pool, scope, t, &from[..to.len()], to)
}

/// The type in normal form.
pub fn normal_of(alloc: Global, pool: &mut Pool, scope: &Scope, t: TyId) -> Result<TyId, AllocError>
    requires number { InPool pool.old t }
    requires scope { IsScope pool.old scope.now }
    ensures is { IfOk result (λ u. Shows pool.new u (normal_type (scope_in pool.old scope.now) (shown pool.old t))) }
    ensures fits { IfOk result (λ u. TypeFits (scope_in pool.new scope.now) (shown pool.new u)) }
    ensures deep { IfOk result (λ u. (x : Atom) → Among (atoms_in (shown pool.old t)) x
        → DeepAs (scope_in pool.new scope.now) (shown pool.new u) (bound (scope_in pool.old scope.now) x)) }
    ensures keeps { Keeps pool.old pool.new }
{
    if !type_fits(alloc, pool, scope, pool.show(t))? {
        return Err(AllocError);
    }
    normal(alloc, pool, scope, t)
}

/// The number behind that of a fresh path.
fn behind(path: u32) -> Result<u32, AllocError>
    ensures { IfOk result (λ q. q ≡ suc path) }
{
    if path > 4_000_255 {
        return Err(AllocError);
    }
    Ok(path + 1)
}

/// The number of the next fresh path: the one behind that of the newest one.
fn next_path(binds: &[Bind]) -> Result<u32, AllocError>
    ensures { IfOk result (λ q. (pool : List AType) → InOrder (binds_in pool binds.now)
        → q ≡ next_path (binds_in pool binds.now)) }
{
    let n = binds.len();
    for i in 0..n {
        let path = binds[n - 1 - i].path;
        if path >= 256 {
            return behind(path);
        }
    }
    Ok(256)
}

/// A fresh path with the type.
pub fn fresh_path(pool: &Pool, scope: &mut Scope, ty: TyId) -> Result<u32, AllocError>
    requires number { InPool pool.now ty }
    requires scope { IsScope pool.now scope.old }
    requires fits { TypeFits (scope_in pool.now scope.old) (shown pool.now ty) }
    ensures { IfOk result (λ q. IsPassing pool.now scope.old scope.new (shown pool.now ty) None q) }
{
    let path = next_path(&scope.binds)?;
    scope.binds.push(Bind { path, ty })?;
    Ok(path)
}

/// The path of a value of the type: its own, or a fresh one.
pub fn path_of(
    pool: &Pool,
    scope: &mut Scope,
    ty: TyId,
    path: Option<u32>,
) -> Result<u32, AllocError>
    requires number { InPool pool.now ty }
    requires scope { IsScope pool.now scope.old }
    requires fits { TypeFits (scope_in pool.now scope.old) (shown pool.now ty) }
    ensures { IfOk result (λ q. IsPassing pool.now scope.old scope.new (shown pool.now ty) path q) }
{
    match path {
        Some(q) => Ok(q),
        None => fresh_path(pool, scope, ty),
    }
}
