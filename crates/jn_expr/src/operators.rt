//! Operators and what they ask of their operands.

ghost use Rattle.std.specs.Prelude.{◌≡◌, IfOk};
ghost use Rattle.jn_base.specs.declared.tree.Program.{Program};
ghost use Rattle.jn_intern.specs.Pools.{InPool, shown};
ghost use Rattle.jn_rules.specs.Exprs.{is_int, is_bool, is_null_type, is_object, takes, comparable, takes_both, operator_type};
ghost use Rattle.jn_expr.specs.Envs.{IsScope, Stays, here_at};
ghost use Rattle.jn_expr.specs.Told.{PlanTold};
ghost use Rattle.jn_expr.specs.Values.{IsValue, typed_in};
ghost use Rattle.jn_expr.specs.Steps.{inverted, negated, operated};

use crate::env::{Env, Value};
use crate::fault::refused;
use crate::values::{is_class, plain};
use jn_base::refusal::Rule;
use jn_base::tree::{Link, Method, Op, Place};
use jn_base::types::Ty;
use jn_heads::CheckFault;
use jn_intern::{Scope, TyId};
use jn_names::Bound;
use std::alloc::Global;

pub fn is_int(ty: &Ty) -> bool
    ensures { result ≡ is_int ty.now }
{
    match ty {
        Ty::Int => true,
        Ty::Bool => false,
        Ty::Null => false,
        Ty::Void => false,
        Ty::Class(_, _) => false,
    }
}

pub fn is_bool(ty: &Ty) -> bool
    ensures { result ≡ is_bool ty.now }
{
    match ty {
        Ty::Bool => true,
        Ty::Int => false,
        Ty::Null => false,
        Ty::Void => false,
        Ty::Class(_, _) => false,
    }
}

pub fn is_null(ty: &Ty) -> bool
    ensures { result ≡ is_null_type ty.now }
{
    match ty {
        Ty::Null => true,
        Ty::Int => false,
        Ty::Bool => false,
        Ty::Void => false,
        Ty::Class(_, _) => false,
    }
}

/// Whether it is a class type or the type of null.
pub fn is_object(ty: &Ty) -> bool
    ensures { result ≡ is_object ty.now }
{
    is_class(ty) || is_null(ty)
}

/// Whether an operator takes an operand of the type.
pub fn takes(op: Op, ty: &Ty) -> bool
    ensures { result ≡ takes op ty.now }
{
    match op {
        Op::Or => is_bool(ty),
        Op::And => is_bool(ty),
        Op::Eq => true,
        Op::Ne => true,
        Op::Lt => is_int(ty),
        Op::Le => is_int(ty),
        Op::Gt => is_int(ty),
        Op::Ge => is_int(ty),
        Op::Add => is_int(ty),
        Op::Sub => is_int(ty),
        Op::Mul => is_int(ty),
        Op::Div => is_int(ty),
        Op::Rem => is_int(ty),
    }
}

/// Whether both are int, or both boolean, or each a class type or null.
fn comparable(s: &Ty, t: &Ty) -> bool
    ensures { result ≡ comparable s.now t.now }
{
    (is_int(s) && is_int(t)) || ((is_bool(s) && is_bool(t)) || (is_object(s) && is_object(t)))
}

/// Whether an operator takes two operands of these types together.
fn takes_both(op: Op, s: &Ty, t: &Ty) -> bool
    ensures { result ≡ takes_both op s.now t.now }
{
    match op {
        Op::Eq => comparable(s, t),
        Op::Ne => comparable(s, t),
        Op::Or => true,
        Op::And => true,
        Op::Lt => true,
        Op::Le => true,
        Op::Gt => true,
        Op::Ge => true,
        Op::Add => true,
        Op::Sub => true,
        Op::Mul => true,
        Op::Div => true,
        Op::Rem => true,
    }
}

/// What an operator gives.
fn operator_type(op: Op) -> Ty
    ensures { result ≡ operator_type op }
{
    match op {
        Op::Add => Ty::Int,
        Op::Sub => Ty::Int,
        Op::Mul => Ty::Int,
        Op::Div => Ty::Int,
        Op::Rem => Ty::Int,
        Op::Or => Ty::Bool,
        Op::And => Ty::Bool,
        Op::Eq => Ty::Bool,
        Op::Ne => Ty::Bool,
        Op::Lt => Ty::Bool,
        Op::Le => Ty::Bool,
        Op::Gt => Ty::Bool,
        Op::Ge => Ty::Bool,
    }
}

/// `!e`, behind `e` at the place: E18 where it is not boolean.
pub fn invert(
    alloc: Global,
    class: &Bound,
    m: &Method,
    env: &mut Env,
    scope: &Scope,
    at: Place,
    x: Value,
) -> Result<Value, CheckFault>
    requires scope { IsScope env.old.pool scope.now }
    requires number { InPool env.old.pool x.ty }
    ensures told { (p : Program) → PlanTold p
        (inverted (here_at class.now m.now env.old.vars.list) at (typed_in env.old.pool scope.now x))
        (typed_in env.new.pool scope.now) env.old.marks env.new.marks result }
    ensures value { IfOk result (λ v. IsValue env.new.pool scope.now scope.now v) }
    ensures stays { Stays env.old env.new }
{
    if !is_bool(env.pool.show(x.ty)) {
        return Err(refused(alloc, Rule::E18, at, class, m.name.name));
    }
    plain(env, scope, &Ty::Bool)
}

/// `-e`, behind `e` at the place: E18 where it is not int.
pub fn negate(
    alloc: Global,
    class: &Bound,
    m: &Method,
    env: &mut Env,
    scope: &Scope,
    at: Place,
    x: Value,
) -> Result<Value, CheckFault>
    requires scope { IsScope env.old.pool scope.now }
    requires number { InPool env.old.pool x.ty }
    ensures told { (p : Program) → PlanTold p
        (negated (here_at class.now m.now env.old.vars.list) at (typed_in env.old.pool scope.now x))
        (typed_in env.new.pool scope.now) env.old.marks env.new.marks result }
    ensures value { IfOk result (λ v. IsValue env.new.pool scope.now scope.now v) }
    ensures stays { Stays env.old env.new }
{
    if !is_int(env.pool.show(x.ty)) {
        return Err(refused(alloc, Rule::E18, at, class, m.name.name));
    }
    plain(env, scope, &Ty::Int)
}

/// An operator of a chain, behind its right operand `y`, with a value of the type `x` on its left: E18 where it doesn't
/// take the right one, or both together.
pub fn operate(
    alloc: Global,
    class: &Bound,
    m: &Method,
    env: &mut Env,
    scope: &Scope,
    l: &Link,
    x: TyId,
    y: Value,
) -> Result<Value, CheckFault>
    requires scope { IsScope env.old.pool scope.now }
    requires left { InPool env.old.pool x }
    requires right { InPool env.old.pool y.ty }
    ensures told { (p : Program) → PlanTold p
        (operated (here_at class.now m.now env.old.vars.list) l.now (shown env.old.pool x)
        (typed_in env.old.pool scope.now y))
        (typed_in env.new.pool scope.now) env.old.marks env.new.marks result }
    ensures value { IfOk result (λ v. IsValue env.new.pool scope.now scope.now v) }
    ensures stays { Stays env.old env.new }
{
    if !takes(l.op, env.pool.show(y.ty)) {
        return Err(refused(alloc, Rule::E18, l.right.at, class, m.name.name));
    }
    if !takes_both(l.op, env.pool.show(x), env.pool.show(y.ty)) {
        return Err(refused(alloc, Rule::E18, l.at, class, m.name.name));
    }
    let ty = operator_type(l.op);
    plain(env, scope, &ty)
}
