//! Fields of values.

ghost use Rattle.std.specs.Prelude.{◌≡◌, IfOk};
ghost use Rattle.jn_base.specs.Atoms.{atoms_in, first_at};
ghost use Rattle.jn_base.specs.Scopes.{bound_of};
ghost use Rattle.jn_intern.specs.Pools.{InPool, ScopeInPool, shown, scope_in};
ghost use Rattle.jn_rules.specs.Questions.{IsFoundField};
ghost use Rattle.jn_rules.specs.Exprs.{field_gives, suffix_typed};
ghost use Rattle.jn_expr.specs.Envs.{ArePartsOf, IsScope, Stays, parts, here_at};
ghost use Rattle.jn_expr.specs.Found.{found_of};
ghost use Rattle.jn_expr.specs.Told.{PlanTold, FaultIs, refusal_at};
ghost use Rattle.jn_expr.specs.Values.{IsValue, TypedFits, typed_in};

use crate::env::{Env, Value};
use crate::fault::refused;
use crate::marks::note_member;
use crate::masks::{is_masked, masks_of};
use crate::members::{Declared, field_of};
use crate::types::{path_of, put_in};
use crate::values::is_class;
use crate::views::plain_of;
use jn_base::refusal::Rule;
use jn_base::tree::{Method, Name, Named, Place, Program};
use jn_base::types::Ty;
use jn_heads::CheckFault;
use jn_intern::{Pool, Scope};
use jn_names::Bound;
use jn_subtype::atom_bound;
use std::alloc::{AllocError, Global};

// ---- receivers

/// The bound of a type's first atom.
fn first_bound(alloc: Global, pool: &Pool, scope: &Scope, ty: &Ty) -> Result<Bound, AllocError>
    requires { ScopeInPool pool.now scope.now }
    ensures { IfOk result (λ b. b ≡ first_at (bound_of (scope_in pool.now scope.now)) (atoms_in ty.now)) }
{
    match ty {
        Ty::Class(xs, _) => match xs.as_slice().first() {
            None => Ok(Bound::root(alloc)),
            Some(x) => atom_bound(alloc, pool, scope.binds.as_slice(), x),
        },
        Ty::Int => Ok(Bound::root(alloc)),
        Ty::Bool => Ok(Bound::root(alloc)),
        Ty::Null => Ok(Bound::root(alloc)),
        Ty::Void => Ok(Bound::root(alloc)),
    }
}

/// A refusal of a member at a place: it shows the bound of the receiver's first atom, and a name.
pub fn of_receiver(
    alloc: Global,
    rule: Rule,
    pool: &Pool,
    scope: &Scope,
    ty: &Ty,
    at: Place,
    name: Name,
) -> CheckFault
    requires { ScopeInPool pool.now scope.now }
    ensures { FaultIs result (refusal_at rule at (first_at (bound_of (scope_in pool.now scope.now))
        (atoms_in ty.now)) name) }
{
    match first_bound(alloc, pool, scope, ty) {
        Err(_) => CheckFault::Memory,
        Ok(b) => refused(alloc, rule, at, &b, name),
    }
}

// ---- fields

/// The value of a field that was found: E19 where it is masked.
fn read_field(
    alloc: Global,
    p: &Program,
    env: &mut Env,
    scope: &mut Scope,
    x: Value,
    f: &Named,
    found: &Declared,
) -> Result<Value, CheckFault>
    requires parts { ArePartsOf p.now (parts env.old) }
    requires scope { IsScope env.old.pool scope.old }
    requires number { InPool env.old.pool x.ty }
    requires fits { TypedFits (typed_in env.old.pool scope.old x) }
    requires found { IsFoundField p.now (scope_in env.old.pool scope.old) (shown env.old.pool x.ty) f.now.name
        (found_of found.now) }
    ensures told { PlanTold p.now
        (field_gives f.now (typed_in env.old.pool scope.old x) (found_of found.now))
        (typed_in env.new.pool scope.new) env.old.marks env.new.marks result }
    ensures value { IfOk result (λ v. IsValue env.new.pool scope.old scope.new v) }
    ensures stays { Stays env.old env.new }
{
    let masks = masks_of(env.pool.show(x.ty));
    if is_masked(masks, &env.masks, f.name) {
        return Err(of_receiver(
            alloc,
            Rule::E19,
            &env.pool,
            scope,
            env.pool.show(x.ty),
            f.at,
            f.name,
        ));
    }
    note_member(alloc, &mut env.marks, &found.class)?;
    let path = path_of(&env.pool, scope, x.ty, x.path)?;
    let ty = env.pool.intern(&found.ty)?;
    let put = put_in(alloc, &mut env.pool, scope, ty, &[0], &[path])?;
    plain_of(env, scope, put)
}

/// `.f` behind a value at a place: E18 where it is of no class type, E16 where it has no such field, E19 where that is
/// masked.
pub fn field_value(
    alloc: Global,
    p: &Program,
    class: &Bound,
    m: &Method,
    env: &mut Env,
    scope: &mut Scope,
    at: Place,
    x: Value,
    f: &Named,
) -> Result<Value, CheckFault>
    requires parts { ArePartsOf p.now (parts env.old) }
    requires scope { IsScope env.old.pool scope.old }
    requires number { InPool env.old.pool x.ty }
    requires fits { TypedFits (typed_in env.old.pool scope.old x) }
    ensures told { PlanTold p.now (suffix_typed (here_at class.now m.now env.old.vars.list) f.now None at
        (typed_in env.old.pool scope.old x))
        (typed_in env.new.pool scope.new) env.old.marks env.new.marks result }
    ensures value { IfOk result (λ v. IsValue env.new.pool scope.old scope.new v) }
    ensures stays { Stays env.old env.new }
{
    if !is_class(env.pool.show(x.ty)) {
        return Err(refused(alloc, Rule::E18, at, class, m.name.name));
    }
    match field_of(
        alloc,
        p,
        &mut env.table,
        &env.members,
        &env.masks,
        &env.pool,
        scope,
        env.pool.show(x.ty),
        f.name,
    )? {
        None => Err(of_receiver(
            alloc,
            Rule::E16,
            &env.pool,
            scope,
            env.pool.show(x.ty),
            f.at,
            f.name,
        )),
        Some(found) => read_field(alloc, p, env, scope, x, f, &found),
    }
}
