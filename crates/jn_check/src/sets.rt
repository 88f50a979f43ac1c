//! Assignments to fields.

ghost use Rattle.std.specs.Prelude.{◌≡◌, ℕ, IfOk, OnOk};
ghost use Rattle.jn_base.specs.declared.types.Ty.{Ty as AType};
ghost use Rattle.jn_base.specs.Scopes.{Scope as AScope};
ghost use Rattle.jn_intern.specs.Pools.{InPool, shown, scope_in};
ghost use Rattle.jn_rules.specs.Plans.{Plan};
ghost use Rattle.jn_rules.specs.Questions.{IsFoundField};
ghost use Rattle.jn_rules.specs.Exprs.{site_here};
ghost use Rattle.jn_rules.specs.Stmts.{Before, dropped, set_typed};
ghost use Rattle.jn_expr.specs.Envs.{ArePartsOf, IsScope, IsThere, Stays, parts, here_at};
ghost use Rattle.jn_expr.specs.Found.{found_of};
ghost use Rattle.jn_expr.specs.Steps.{LeadsTold};
ghost use Rattle.jn_expr.specs.Told.{PlanTold};
ghost use Rattle.jn_expr.specs.Values.{TypedFits, typed_in};
ghost use Rattle.jn_check.specs.States.{in_at, before_in, before_at, IsBefore, IsAfter, StaysButVars};
ghost use Rattle.jn_check.specs.Storing.{IsFieldAt, IsSlot, stored_in};

use crate::dropping::drop_field;
use crate::exprs::check_below;
use crate::state::Locals;
use jn_base::refusal::Rule;
use jn_base::tree::{Expr, Method, Named, Place, Program};
use jn_expr::{
    Declared, Env, Value, field_of, is_class, note_member, of_receiver, path_of, put_in, refused,
    value_of,
};
use jn_heads::CheckFault;
use jn_intern::{Scope, TyId};
use jn_names::Bound;
use std::alloc::{AllocError, Global};

/// The type of a field that the receiver has, with the receiver's path for `this`, its own or a fresh one. The class
/// that declares it is noted.
fn field_at(
    alloc: Global,
    p: &Program,
    env: &mut Env,
    scope: &mut Scope,
    v: Value,
    f: &Named,
    found: &Declared,
) -> Result<TyId, AllocError>
    requires parts { ArePartsOf p.now (parts env.old) }
    requires scope { IsScope env.old.pool scope.old }
    requires number { InPool env.old.pool v.ty }
    requires fits { TypedFits (typed_in env.old.pool scope.old v) }
    requires found { IsFoundField p.now (scope_in env.old.pool scope.old) (shown env.old.pool v.ty) f.now.name
        (found_of found.now) }
    ensures is { IfOk result (λ id. IsFieldAt env.old scope.old v (found_of found.now) env.new scope.new id) }
    ensures stays { Stays env.old env.new }
{
    note_member(alloc, &mut env.marks, &found.class)?;
    let path = path_of(&env.pool, scope, v.ty, v.path)?;
    let ty = env.pool.intern(&found.ty)?;
    let put = put_in(alloc, &mut env.pool, scope, ty, &[0], &[path])?;
    Ok(put)
}

/// The type of the field that is assigned to, by its receiver, which stands at the place: E18 where it is of no class
/// type, E16 where it has no such field.
fn stored_in(
    alloc: Global,
    p: &Program,
    class: &Bound,
    m: &Method,
    env: &mut Env,
    scope: &mut Scope,
    at: Place,
    v: Value,
    f: &Named,
) -> Result<TyId, CheckFault>
    requires parts { ArePartsOf p.now (parts env.old) }
    requires scope { IsScope env.old.pool scope.old }
    requires number { InPool env.old.pool v.ty }
    requires fits { TypedFits (typed_in env.old.pool scope.old v) }
    ensures told { (go : AScope → AType → Plan Before) → LeadsTold p.now
        (stored_in (here_at class.now m.now env.old.vars.list) at f.now (typed_in env.old.pool scope.old v) go)
        (λ id. go (scope_in env.new.pool scope.new) (shown env.new.pool id)) env.old.marks env.new.marks result }
    ensures slot { IfOk result (λ id. IsSlot env.new.pool scope.old scope.new id) }
    ensures stays { Stays env.old env.new }
{
    if !is_class(env.pool.show(v.ty)) {
        return Err(refused(alloc, Rule::E18, at, class, m.name.name));
    }
    match field_of(
        alloc,
        p,
        &mut env.table,
        &env.members,
        &env.masks,
        &env.pool,
        scope,
        env.pool.show(v.ty),
        f.name,
    )? {
        None => Err(of_receiver(
            alloc,
            Rule::E16,
            &env.pool,
            scope,
            env.pool.show(v.ty),
            f.at,
            f.name,
        )),
        Some(found) => {
            let id = field_at(alloc, p, env, scope, v, f, &found)?;
            Ok(id)
        }
    }
}

/// `r.f = e;` but for the masks of r's path: the refusals of r and of the field, the refusals of e, E18 where that
/// isn't below the field's type. It gives the path of r, where r has one.
fn stored(
    alloc: Global,
    p: &Program,
    class: &Bound,
    m: &Method,
    env: &mut Env,
    scope: &mut Scope,
    of: &Expr,
    f: &Named,
    e: &Expr,
) -> Result<Option<u32>, CheckFault>
    requires parts { ArePartsOf p.now (parts env.old) }
    requires scope { IsScope env.old.pool scope.old }
    requires there { IsThere p.now (site_here (here_at class.now m.now env.old.vars.list))
        (scope_in env.old.pool scope.old) }
    ensures told { (t : AType) (n : ℕ) → LeadsTold p.now
        (set_typed (in_at class.now m.now t) (before_in env.old.vars.list (scope_in env.old.pool scope.old) n)
        of.now f.now e.now)
        (λ path. dropped (before_in env.old.vars.list (scope_in env.old.pool scope.old) n) f.now.name path)
        env.old.marks env.new.marks result }
    ensures kept { IfOk result (λ path. scope.new.binds.items ≡ scope.old.binds.items) }
    ensures stays { Stays env.old env.new }
{
    let count = scope.binds.len();
    match value_of(alloc, p, class, m, env, scope, of) {
        Err(fault) => Err(fault),
        Ok(v) => match stored_in(alloc, p, class, m, env, scope, of.at, v, f) {
            Err(fault) => Err(fault),
            Ok(id) => match check_below(alloc, p, class, m, env, scope, e, id) {
                Err(fault) => Err(fault),
                Ok(()) => {
                    scope.binds.truncate(count);
                    Ok(v.path)
                }
            },
        },
    }
}

/// `r.f = e;`: the refusals of r, E18 where it is of no class type, E16 where it has no such field, the refusals of e,
/// E18 where that isn't below the field's type. Where r is a path other than `this`, f is no mask of it any more.
pub fn check_set(
    alloc: Global,
    p: &Program,
    class: &Bound,
    m: &Method,
    env: &mut Env,
    x: &mut Locals,
    of: &Expr,
    f: &Named,
    e: &Expr,
) -> Result<(), CheckFault>
    requires parts { ArePartsOf p.now (parts env.old) }
    requires before { IsBefore p.now class.now m.now.name.name env.old.pool env.old.vars.list x.old }
    ensures told { (t : AType) → PlanTold p.now
        (set_typed (in_at class.now m.now t) (before_at env.old x.old) of.now f.now e.now)
        (λ u. before_at env.new x.new) env.old.marks env.new.marks result }
    ensures after { OnOk result (IsAfter p.now class.now m.now.name.name env.old x.old env.new x.new) }
    ensures stays { StaysButVars env.old env.new }
{
    match stored(alloc, p, class, m, env, &mut x.scope, of, f, e) {
        Err(fault) => Err(fault),
        Ok(path) => {
            drop_field(alloc, &mut env.pool, &mut x.scope, &env.masks, path, f.name)?;
            Ok(())
        }
    }
}
