//! What the header of a method grants to a view change.

ghost use Rattle.std.specs.Prelude.{◌≡◌, ◌↔◌, IfOk, IsTrue};
ghost use Rattle.jn_base.specs.declared.tree.Program.{Program as AProgram};
ghost use Rattle.jn_base.specs.Atoms.{no_masks, atoms_in};
ghost use Rattle.jn_base.specs.Fits.{TypeFits};
ghost use Rattle.jn_intern.specs.Pools.{InPool, shown, scope_in, Keeps};
ghost use Rattle.jn_sem.specs.Below.{Below};
ghost use Rattle.jn_sem.specs.NormalFunction.{normal_type};
ghost use Rattle.jn_table.specs.Tables.{IsFilled};
ghost use Rattle.jn_rules.specs.Plans.{Target, target_type};
ghost use Rattle.jn_rules.specs.Questions.{Answers};
ghost use Rattle.jn_rules.specs.Stmts.{remasked};
ghost use Rattle.jn_rules.specs.Exprs.{header_grants};
ghost use Rattle.jn_expr.specs.Passing.{Shows};
ghost use Rattle.jn_heads.specs.Told.{itself};
ghost use Rattle.jn_expr.specs.Envs.{ArePartsOf, IsScope, Stays, parts, here_at};
ghost use Rattle.jn_expr.specs.Told.{QuietTold};
ghost use Rattle.jn_expr.specs.Granting.{GrantTold, constraint_grants};

use crate::env::Env;
use crate::masks::masks_of;
use crate::types::{below, normal_of};
use jn_base::tree::{Constraint, Method, Program};
use jn_base::types::{Masks, Ty};
use jn_heads::{CheckFault, Pledge, pledge_of};
use jn_intern::{Pool, Scope, TyId, copied_type};
use jn_masks::within;
use jn_names::Bound;
use jn_subtype::Judge;
use jn_table::Table;
use std::alloc::{AllocError, Global};

/// The type without its masks.
fn unmasked(alloc: Global, ty: &Ty) -> Result<Ty, AllocError>
    ensures { IfOk result (λ u. u ≡ remasked no_masks ty.now) }
{
    match copied_type(alloc, ty)? {
        Ty::Class(xs, _) => Ok(Ty::Class(xs, Masks([0, 0, 0, 0]))),
        Ty::Int => Ok(Ty::Int),
        Ty::Bool => Ok(Ty::Bool),
        Ty::Null => Ok(Ty::Null),
        Ty::Void => Ok(Ty::Void),
    }
}

/// The type without its masks, in normal form.
fn normal_unmasked(
    alloc: Global,
    pool: &mut Pool,
    scope: &Scope,
    ty: &Ty,
) -> Result<TyId, AllocError>
    requires { IsScope pool.old scope.now }
    ensures is { IfOk result (λ u. Shows pool.new u
        (normal_type (scope_in pool.old scope.now) (remasked no_masks ty.now))) }
    ensures keeps { Keeps pool.old pool.new }
{
    let bare = unmasked(alloc, ty)?;
    let id = pool.intern(&bare)?;
    normal_of(alloc, pool, scope, id)
}

/// Whether two targets have one atom in normal form.
fn is_atom(
    alloc: Global,
    pool: &mut Pool,
    scope: &Scope,
    a: &Ty,
    b: &Ty,
) -> Result<bool, AllocError>
    requires { IsScope pool.old scope.now }
    ensures is { IfOk result (λ r. (x y : Target) → a.now ≡ target_type x → b.now ≡ target_type y → IsTrue r
        ↔ (atoms_in (normal_type (scope_in pool.old scope.now) (target_type x))
        ≡ atoms_in (normal_type (scope_in pool.old scope.now) (target_type y)))) }
    ensures keeps { Keeps pool.old pool.new }
{
    let one = normal_unmasked(alloc, pool, scope, a)?;
    let other = normal_unmasked(alloc, pool, scope, b)?;
    Ok(pool.same(one, other))
}

/// Whether the type is below the left side of a constraint, in normal form.
fn is_below_left(
    alloc: Global,
    judge: &mut Judge,
    pool: &mut Pool,
    table: &Table,
    scope: &Scope,
    from: TyId,
    left: &Ty,
) -> Result<bool, AllocError>
    requires number { InPool pool.old from }
    requires scope { IsScope pool.old scope.now }
    requires fits { TypeFits (scope_in pool.old scope.now) (shown pool.old from) }
    ensures below { IfOk result (λ r. (p : AProgram) → IsFilled p table.now
        → Answers (Below p (scope_in pool.old scope.now) (shown pool.old from)
        (normal_type (scope_in pool.old scope.now) left.now)) r) }
    ensures keeps { Keeps pool.old pool.new }
{
    let id = pool.intern(left)?;
    let form = normal_of(alloc, pool, scope, id)?;
    below(judge, pool, table, scope, from, form)
}

/// Whether a constraint grants a view change from the type to the target.
fn grants(
    alloc: Global,
    judge: &mut Judge,
    pool: &mut Pool,
    table: &Table,
    scope: &Scope,
    pledge: &Pledge,
    from: TyId,
    to: &Ty,
) -> Result<bool, AllocError>
    requires number { InPool pool.old from }
    requires scope { IsScope pool.old scope.now }
    requires fits { TypeFits (scope_in pool.old scope.now) (shown pool.old from) }
    ensures is { IfOk result (λ r. GrantTold table.now (scope_in pool.old scope.now) pledge.now
        (shown pool.old from) to.now r) }
    ensures keeps { Keeps pool.old pool.new }
{
    if !is_below_left(alloc, judge, pool, table, scope, from, &pledge.from)? {
        return Ok(false);
    }
    if !is_atom(alloc, pool, scope, &pledge.to, to)? {
        return Ok(false);
    }
    Ok(within(masks_of(&pledge.to), masks_of(to)))
}

/// Whether a constraint of the method grants a view change from the type to the target.
fn constraint_grants(
    alloc: Global,
    p: &Program,
    class: &Bound,
    m: &Method,
    env: &mut Env,
    scope: &Scope,
    constraint: &Constraint,
    from: TyId,
    to: &Ty,
) -> Result<bool, CheckFault>
    requires parts { ArePartsOf p.now (parts env.old) }
    requires scope { IsScope env.old.pool scope.now }
    requires number { InPool env.old.pool from }
    requires fits { TypeFits (scope_in env.old.pool scope.now) (shown env.old.pool from) }
    ensures told { (u : Target) → to.now ≡ target_type u → QuietTold p.now
        (constraint_grants class.now m.now.name.name constraint.now (scope_in env.old.pool scope.now)
        (shown env.old.pool from) u) itself result }
    ensures stays { Stays env.old env.new }
    ensures marks { env.new.marks ≡ env.old.marks }
{
    match pledge_of(
        alloc,
        p,
        &mut env.table,
        &env.masks,
        class,
        m.name.name,
        constraint,
    ) {
        Err(fault) => Err(fault),
        Ok(pledge) => Ok(grants(
            alloc,
            &mut env.judge,
            &mut env.pool,
            &env.table,
            scope,
            &pledge,
            from,
            to,
        )?),
    }
}

/// Whether one of the constraints of the method grants a view change from the type to the target.
pub fn header_grants(
    alloc: Global,
    p: &Program,
    class: &Bound,
    m: &Method,
    env: &mut Env,
    scope: &Scope,
    from: TyId,
    to: &Ty,
) -> Result<bool, CheckFault>
    requires parts { ArePartsOf p.now (parts env.old) }
    requires scope { IsScope env.old.pool scope.now }
    requires number { InPool env.old.pool from }
    requires fits { TypeFits (scope_in env.old.pool scope.now) (shown env.old.pool from) }
    ensures told { (u : Target) → to.now ≡ target_type u → QuietTold p.now
        (header_grants (here_at class.now m.now env.old.vars.list) (scope_in env.old.pool scope.now)
        (shown env.old.pool from) u) itself result }
    ensures stays { Stays env.old env.new }
    ensures marks { env.new.marks ≡ env.old.marks }
{
    for constraint in m.sharing.as_slice() {
        match constraint_grants(alloc, p, class, m, env, scope, constraint, from, to) {
            Err(fault) => return Err(fault),
            Ok(granted) => {
                if granted {
                    return Ok(true);
                }
            }
        }
    }
    Ok(false)
}
