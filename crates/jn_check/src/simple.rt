//! Conditions, and statements that leave all as it is: calls, `print`, `return`.

ghost use Rattle.std.specs.Prelude.{◌≡◌, ◌||◌, true, Some, OnOk};
ghost use Rattle.jn_base.specs.declared.types.Ty.{Ty as AType};
ghost use Rattle.jn_intern.specs.Pools.{InPool, scope_in};
ghost use Rattle.jn_rules.specs.Plans.{Plan, done, then_do};
ghost use Rattle.jn_rules.specs.Exprs.{is_int, is_bool};
ghost use Rattle.jn_rules.specs.Stmts.{Before, typed, condition, print_typed, return_typed, is_void};
ghost use Rattle.jn_expr.specs.Envs.{ArePartsOf, Stays, parts};
ghost use Rattle.jn_expr.specs.Passing.{Shows};
ghost use Rattle.jn_expr.specs.Steps.{LeadsTold};
ghost use Rattle.jn_expr.specs.Told.{PlanTold};
ghost use Rattle.jn_check.specs.States.{in_at, before_at, IsBefore, IsAfter, IsKept, StaysButVars};

use crate::exprs::{check_below, type_alone};
use crate::state::Locals;
use jn_base::refusal::Rule;
use jn_base::tree::{Expr, Method, Place, Program};
use jn_base::types::Ty;
use jn_expr::{Env, is_bool, is_int, refused, type_fits};
use jn_heads::CheckFault;
use jn_intern::TyId;
use jn_names::Bound;
use std::alloc::Global;

/// A condition: the refusals of the expression, E18 where it isn't boolean.
pub fn check_condition(
    alloc: Global,
    p: &Program,
    class: &Bound,
    m: &Method,
    env: &mut Env,
    x: &mut Locals,
    e: &Expr,
) -> Result<(), CheckFault>
    requires parts { ArePartsOf p.now (parts env.old) }
    requires before { IsBefore p.now class.now m.now.name.name env.old.pool env.old.vars.list x.old }
    ensures told { (t : AType) (go : Plan Before) → LeadsTold p.now
        (condition (in_at class.now m.now t) (before_at env.old x.old) e.now go)
        (λ u. go) env.old.marks env.new.marks result }
    ensures kept { OnOk result (IsKept x.old x.new) }
    ensures stays { Stays env.old env.new }
{
    match type_alone(alloc, p, class, m, env, &mut x.scope, e) {
        Err(fault) => Err(fault),
        Ok(id) => {
            if !is_bool(env.pool.show(id)) {
                return Err(refused(alloc, Rule::E18, e.at, class, m.name.name));
            }
            Ok(())
        }
    }
}

/// A call as a statement: the refusals of the expression.
pub fn check_call(
    alloc: Global,
    p: &Program,
    class: &Bound,
    m: &Method,
    env: &mut Env,
    x: &mut Locals,
    e: &Expr,
) -> Result<(), CheckFault>
    requires parts { ArePartsOf p.now (parts env.old) }
    requires before { IsBefore p.now class.now m.now.name.name env.old.pool env.old.vars.list x.old }
    ensures told { (t : AType) → PlanTold p.now
        (then_do (typed (in_at class.now m.now t) (before_at env.old x.old) e.now (scope_in env.old.pool x.old.scope))
        (λ y. done (before_at env.old x.old)))
        (λ u. before_at env.new x.new) env.old.marks env.new.marks result }
    ensures after { OnOk result (IsAfter p.now class.now m.now.name.name env.old x.old env.new x.new) }
    ensures stays { StaysButVars env.old env.new }
{
    match type_alone(alloc, p, class, m, env, &mut x.scope, e) {
        Err(fault) => Err(fault),
        Ok(_) => Ok(()),
    }
}

/// Whether a value of the type is printed.
fn is_printed(ty: &Ty) -> bool
    ensures { result ≡ (is_int ty.now || is_bool ty.now) }
{
    is_int(ty) || is_bool(ty)
}

/// `print(e);`: the refusals of e, E18 where it is neither int nor boolean.
pub fn check_print(
    alloc: Global,
    p: &Program,
    class: &Bound,
    m: &Method,
    env: &mut Env,
    x: &mut Locals,
    e: &Expr,
) -> Result<(), CheckFault>
    requires parts { ArePartsOf p.now (parts env.old) }
    requires before { IsBefore p.now class.now m.now.name.name env.old.pool env.old.vars.list x.old }
    ensures told { (t : AType) → PlanTold p.now
        (print_typed (in_at class.now m.now t) (before_at env.old x.old) e.now)
        (λ u. before_at env.new x.new) env.old.marks env.new.marks result }
    ensures after { OnOk result (IsAfter p.now class.now m.now.name.name env.old x.old env.new x.new) }
    ensures stays { StaysButVars env.old env.new }
{
    match type_alone(alloc, p, class, m, env, &mut x.scope, e) {
        Err(fault) => Err(fault),
        Ok(id) => {
            if !is_printed(env.pool.show(id)) {
                return Err(refused(alloc, Rule::E18, e.at, class, m.name.name));
            }
            Ok(())
        }
    }
}

/// Whether it is the type void.
pub fn is_void(ty: &Ty) -> bool
    ensures { result ≡ is_void ty.now }
{
    match ty {
        Ty::Void => true,
        Ty::Int => false,
        Ty::Bool => false,
        Ty::Null => false,
        Ty::Class(_, _) => false,
    }
}

/// `return e;` where the method has no result: the refusals of e, and then E18 at `return`.
fn return_vainly(
    alloc: Global,
    p: &Program,
    class: &Bound,
    m: &Method,
    env: &mut Env,
    x: &mut Locals,
    e: &Expr,
    at: Place,
) -> Result<(), CheckFault>
    requires parts { ArePartsOf p.now (parts env.old) }
    requires before { IsBefore p.now class.now m.now.name.name env.old.pool env.old.vars.list x.old }
    ensures told { (t : AType) → is_void t ≡ true → PlanTold p.now
        (return_typed (in_at class.now m.now t) (before_at env.old x.old) (Some e.now) at)
        (λ u. before_at env.new x.new) env.old.marks env.new.marks result }
    ensures fails { OnOk result ⊥ }
    ensures stays { StaysButVars env.old env.new }
{
    match type_alone(alloc, p, class, m, env, &mut x.scope, e) {
        Err(fault) => Err(fault),
        Ok(_) => Err(refused(alloc, Rule::E18, at, class, m.name.name)),
    }
}

/// `return e;`: where the method has a result, the refusals of e, and E18 where it isn't below the result; else those
/// of e, and E18 at `return`.
fn return_value(
    alloc: Global,
    p: &Program,
    class: &Bound,
    m: &Method,
    gives: TyId,
    env: &mut Env,
    x: &mut Locals,
    e: &Expr,
    at: Place,
) -> Result<(), CheckFault>
    requires parts { ArePartsOf p.now (parts env.old) }
    requires before { IsBefore p.now class.now m.now.name.name env.old.pool env.old.vars.list x.old }
    requires number { InPool env.old.pool gives }
    ensures told { (t : AType) → Shows env.old.pool gives t → PlanTold p.now
        (return_typed (in_at class.now m.now t) (before_at env.old x.old) (Some e.now) at)
        (λ u. before_at env.new x.new) env.old.marks env.new.marks result }
    ensures after { OnOk result (IsAfter p.now class.now m.now.name.name env.old x.old env.new x.new) }
    ensures stays { StaysButVars env.old env.new }
{
    if is_void(env.pool.show(gives)) {
        return return_vainly(alloc, p, class, m, env, x, e, at);
    }
    if !type_fits(alloc, &env.pool, &x.scope, env.pool.show(gives))? {
        return Err(CheckFault::Memory);
    }
    check_below(alloc, p, class, m, env, &mut x.scope, e, gives)
}

/// `return`, with a value or without one. Without one it is E18 where the method has a result.
pub fn check_return(
    alloc: Global,
    p: &Program,
    class: &Bound,
    m: &Method,
    gives: TyId,
    env: &mut Env,
    x: &mut Locals,
    e: &Option<Expr>,
    at: Place,
) -> Result<(), CheckFault>
    requires parts { ArePartsOf p.now (parts env.old) }
    requires before { IsBefore p.now class.now m.now.name.name env.old.pool env.old.vars.list x.old }
    requires number { InPool env.old.pool gives }
    ensures told { (t : AType) → Shows env.old.pool gives t → PlanTold p.now
        (return_typed (in_at class.now m.now t) (before_at env.old x.old) e.now at)
        (λ u. before_at env.new x.new) env.old.marks env.new.marks result }
    ensures after { OnOk result (IsAfter p.now class.now m.now.name.name env.old x.old env.new x.new) }
    ensures stays { StaysButVars env.old env.new }
{
    match e {
        Some(e) => return_value(alloc, p, class, m, gives, env, x, e, at),
        None => {
            if !is_void(env.pool.show(gives)) {
                return Err(refused(alloc, Rule::E18, at, class, m.name.name));
            }
            Ok(())
        }
    }
}
