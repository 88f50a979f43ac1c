//! The types of whole expressions: over the tree, form by form.

ghost use Rattle.std.specs.Prelude.{◌≡◌, ◌≤◌, ◌-◌, ◌+◌, ℕ, List, length, slice_get, IfOk, OnOk};
ghost use Rattle.jn_base.specs.declared.tree.Method.{Method as AMethod};
ghost use Rattle.jn_base.specs.declared.names.Role.TheVariants as role;
ghost use Rattle.jn_base.specs.declared.names.Var.{Var as AVar};
ghost use Rattle.jn_base.specs.Members.{MethodAt};
ghost use Rattle.jn_base.specs.Paths.{Path as APath, shown as shown_path};
ghost use Rattle.jn_base.specs.Scopes.{Scope as AScope, bound_of};
ghost use Rattle.jn_intern.specs.Pools.{InPool, scope_in};
ghost use Rattle.jn_heads.specs.Params.{header_in};
ghost use Rattle.jn_rules.specs.Plans.{Plan, OfTerm, OfView, ask, then_do, taken};
ghost use Rattle.jn_rules.specs.Exprs.{Passed, site_here, expr_types, links_typed, suffixes_typed, suffix_typed};
ghost use Rattle.jn_rules.specs.Exprs.{args_typed, new_typed, super_typed, super_gives, view_typed};
ghost use Rattle.jn_rules.specs.Forms.{typed_expr, typed_args, typed_links, typed_parts, part_types};
ghost use Rattle.jn_expr.specs.Envs.{ArePartsOf, IsScope, IsThere, Stays, parts, here_at};
ghost use Rattle.jn_expr.specs.Passing.{Grows};
ghost use Rattle.jn_expr.specs.Told.{PlanTold};
ghost use Rattle.jn_expr.specs.Steps.{LeadsTold, inverted, negated, link_typed, passed_in};
ghost use Rattle.jn_expr.specs.Calling.{body_of, called, CallFits, arg_left, IsPassed};
ghost use Rattle.jn_expr.specs.Making.{made_call};
ghost use Rattle.jn_expr.specs.Typing.{TypeTold, AwaitsArgs};
ghost use Rattle.jn_expr.specs.Values.{IsValue, TypedFits, typed_in};

use crate::calls::{begin_method, pass_arg, result_of};
use crate::env::{Call, Env, Value};
use crate::fault::refused;
use crate::fields::field_value;
use crate::lookup::method_at;
use crate::news::{begin_new, made};
use crate::operators::{invert, negate, operate, takes};
use crate::super_calls::{begin_super, end_super};
use crate::supers::enter_super;
use crate::values::{path_value, plain, variable};
use crate::views::{begin_view, change_view};
use jn_base::refusal::Rule;
use jn_base::tree::{Expr, Link, Method, Named, Node, Place, Program, Suffix, Term, ViewTerm};
use jn_base::types::Ty;
use jn_heads::CheckFault;
use jn_intern::{Scope, TyId};
use jn_names::Bound;
use std::alloc::Global;

/// What an expression has that stands in the method `m` of the declaration at `class`, with the variables of `env` in
/// scope: its type, its path, and the scope with the fresh paths.
#[cycle(typing)]
#[tactic(auto, using(crate::proofs::Scopes::parts_stay))]
pub fn value_of(
    alloc: Global,
    p: &Program,
    class: &Bound,
    m: &Method,
    env: &mut Env,
    scope: &mut Scope,
    e: &Expr,
) -> Result<Value, CheckFault>
    requires parts { ArePartsOf p.now (parts env.old) }
    requires scope { IsScope env.old.pool scope.old }
    requires there { IsThere p.now (site_here (here_at class.now m.now env.old.vars.list))
        (scope_in env.old.pool scope.old) }
    ensures told { PlanTold p.now
        (expr_types (here_at class.now m.now env.old.vars.list) e.now (scope_in env.old.pool scope.old))
        (typed_in env.new.pool scope.new) env.old.marks env.new.marks result }
    ensures value { IfOk result (λ v. IsValue env.new.pool scope.old scope.new v) }
    ensures stays { Stays env.old env.new }
{
    match &e.node {
        Node::Int(_) => plain(env, scope, &Ty::Int),
        Node::Bool(_) => plain(env, scope, &Ty::Bool),
        Node::Null => plain(env, scope, &Ty::Null),
        Node::This => path_value(alloc, env, scope, 0),
        Node::Var(x) => variable(alloc, class, env, scope, e.at, *x),
        Node::New(t, args) => type_new(alloc, p, class, m, env, scope, e.at, t, args.as_slice()),
        Node::Super(t, name, args) => {
            type_super(alloc, p, class, m, env, scope, t, name, args.as_slice())
        }
        Node::Post(first, suffixes) => {
            let receiver = first.get();
            match value_of(alloc, p, class, m, env, scope, receiver) {
                Err(fault) => Err(fault),
                Ok(x) => type_parts(
                    alloc,
                    p,
                    class,
                    m,
                    env,
                    scope,
                    e.at,
                    receiver.at,
                    x,
                    suffixes.as_slice(),
                ),
            }
        }
        Node::Not(inner) => type_not(alloc, p, class, m, env, scope, inner.get()),
        Node::Neg(inner) => type_negative(alloc, p, class, m, env, scope, inner.get()),
        Node::View(view, inner) => {
            type_view(alloc, p, class, m, env, scope, e.at, view, inner.get())
        }
        Node::Chain(_, first, links) => {
            let operand = first.get();
            match value_of(alloc, p, class, m, env, scope, operand) {
                Err(fault) => Err(fault),
                Ok(x) => type_links(
                    alloc,
                    p,
                    class,
                    m,
                    env,
                    scope,
                    operand.at,
                    x,
                    links.as_slice(),
                ),
            }
        }
    }
}

/// `!e`.
#[cycle(typing)]
fn type_not(
    alloc: Global,
    p: &Program,
    class: &Bound,
    m: &Method,
    env: &mut Env,
    scope: &mut Scope,
    e: &Expr,
) -> Result<Value, CheckFault>
    requires parts { ArePartsOf p.now (parts env.old) }
    requires scope { IsScope env.old.pool scope.old }
    requires there { IsThere p.now (site_here (here_at class.now m.now env.old.vars.list))
        (scope_in env.old.pool scope.old) }
    ensures told { PlanTold p.now (then_do
        (expr_types (here_at class.now m.now env.old.vars.list) e.now (scope_in env.old.pool scope.old))
        (inverted (here_at class.now m.now env.old.vars.list) e.now.at))
        (typed_in env.new.pool scope.new) env.old.marks env.new.marks result }
    ensures value { IfOk result (λ v. IsValue env.new.pool scope.old scope.new v) }
    ensures stays { Stays env.old env.new }
{
    match value_of(alloc, p, class, m, env, scope, e) {
        Err(fault) => Err(fault),
        Ok(x) => invert(alloc, class, m, env, scope, e.at, x),
    }
}

/// `-e`.
#[cycle(typing)]
fn type_negative(
    alloc: Global,
    p: &Program,
    class: &Bound,
    m: &Method,
    env: &mut Env,
    scope: &mut Scope,
    e: &Expr,
) -> Result<Value, CheckFault>
    requires parts { ArePartsOf p.now (parts env.old) }
    requires scope { IsScope env.old.pool scope.old }
    requires there { IsThere p.now (site_here (here_at class.now m.now env.old.vars.list))
        (scope_in env.old.pool scope.old) }
    ensures told { PlanTold p.now (then_do
        (expr_types (here_at class.now m.now env.old.vars.list) e.now (scope_in env.old.pool scope.old))
        (negated (here_at class.now m.now env.old.vars.list) e.now.at))
        (typed_in env.new.pool scope.new) env.old.marks env.new.marks result }
    ensures value { IfOk result (λ v. IsValue env.new.pool scope.old scope.new v) }
    ensures stays { Stays env.old env.new }
{
    match value_of(alloc, p, class, m, env, scope, e) {
        Err(fault) => Err(fault),
        Ok(x) => negate(alloc, class, m, env, scope, e.at, x),
    }
}

/// A view change, which stands at the place: its target first, then the expression, and then what grants it.
#[cycle(typing)]
fn type_view(
    alloc: Global,
    p: &Program,
    class: &Bound,
    m: &Method,
    env: &mut Env,
    scope: &mut Scope,
    at: Place,
    view: &ViewTerm,
    e: &Expr,
) -> Result<Value, CheckFault>
    requires parts { ArePartsOf p.now (parts env.old) }
    requires scope { IsScope env.old.pool scope.old }
    requires there { IsThere p.now (site_here (here_at class.now m.now env.old.vars.list))
        (scope_in env.old.pool scope.old) }
    ensures told { PlanTold p.now
        (ask (OfView (site_here (here_at class.now m.now env.old.vars.list)) view.now)
        (taken (view_typed (here_at class.now m.now env.old.vars.list) at
        (typed_expr (here_at class.now m.now env.old.vars.list) e.now) (scope_in env.old.pool scope.old))))
        (typed_in env.new.pool scope.new) env.old.marks env.new.marks result }
    ensures value { IfOk result (λ v. IsValue env.new.pool scope.old scope.new v) }
    ensures stays { Stays env.old env.new }
{
    match begin_view(alloc, p, class, m, env, view) {
        Err(fault) => Err(fault),
        Ok(target) => match value_of(alloc, p, class, m, env, scope, e) {
            Err(fault) => Err(fault),
            Ok(x) => change_view(alloc, p, class, m, env, scope, at, e.at, &target, x),
        },
    }
}

/// One operator of a chain, with the value so far on its left, whose first operand stands at the place.
#[cycle(typing)]
fn type_link(
    alloc: Global,
    p: &Program,
    class: &Bound,
    m: &Method,
    env: &mut Env,
    scope: &mut Scope,
    at: Place,
    x: Value,
    l: &Link,
) -> Result<Value, CheckFault>
    requires parts { ArePartsOf p.now (parts env.old) }
    requires scope { IsScope env.old.pool scope.old }
    requires there { IsThere p.now (site_here (here_at class.now m.now env.old.vars.list))
        (scope_in env.old.pool scope.old) }
    requires number { InPool env.old.pool x.ty }
    requires fits { TypedFits (typed_in env.old.pool scope.old x) }
    ensures told { PlanTold p.now
        (link_typed (here_at class.now m.now env.old.vars.list) at (typed_in env.old.pool scope.old x) l.now
        (expr_types (here_at class.now m.now env.old.vars.list) l.now.right))
        (typed_in env.new.pool scope.new) env.old.marks env.new.marks result }
    ensures value { IfOk result (λ v. IsValue env.new.pool scope.old scope.new v) }
    ensures stays { Stays env.old env.new }
{
    if !takes(l.op, env.pool.show(x.ty)) {
        return Err(refused(alloc, Rule::E18, at, class, m.name.name));
    }
    match value_of(alloc, p, class, m, env, scope, &l.right) {
        Err(fault) => Err(fault),
        Ok(y) => operate(alloc, class, m, env, scope, l, x.ty, y),
    }
}

/// The operators of a chain, behind its first operand, which stands at the place and has the value.
#[cycle(typing)]
fn type_links(
    alloc: Global,
    p: &Program,
    class: &Bound,
    m: &Method,
    env: &mut Env,
    scope: &mut Scope,
    at: Place,
    x: Value,
    links: &[Link],
) -> Result<Value, CheckFault>
    requires parts { ArePartsOf p.now (parts env.old) }
    requires scope { IsScope env.old.pool scope.old }
    requires there { IsThere p.now (site_here (here_at class.now m.now env.old.vars.list))
        (scope_in env.old.pool scope.old) }
    requires number { InPool env.old.pool x.ty }
    requires fits { TypedFits (typed_in env.old.pool scope.old x) }
    ensures told { PlanTold p.now
        (links_typed (here_at class.now m.now env.old.vars.list) at (typed_in env.old.pool scope.old x)
        (typed_links (here_at class.now m.now env.old.vars.list) links.now))
        (typed_in env.new.pool scope.new) env.old.marks env.new.marks result }
    ensures value { IfOk result (λ v. IsValue env.new.pool scope.old scope.new v) }
    ensures stays { Stays env.old env.new }
{
    let mut left = x;
    for l in links {
        match type_link(alloc, p, class, m, env, scope, at, left, l) {
            Err(fault) => return Err(fault),
            Ok(value) => {
                left = value;
            }
        }
    }
    Ok(left)
}

/// What stands behind a value and a dot: a field, or a call. The value stands at the place.
#[cycle(typing)]
fn type_part(
    alloc: Global,
    p: &Program,
    class: &Bound,
    m: &Method,
    env: &mut Env,
    scope: &mut Scope,
    at: Place,
    x: Value,
    part: &Suffix,
) -> Result<Value, CheckFault>
    requires parts { ArePartsOf p.now (parts env.old) }
    requires scope { IsScope env.old.pool scope.old }
    requires there { IsThere p.now (site_here (here_at class.now m.now env.old.vars.list))
        (scope_in env.old.pool scope.old) }
    requires number { InPool env.old.pool x.ty }
    requires fits { TypedFits (typed_in env.old.pool scope.old x) }
    ensures told { PlanTold p.now
        (part_types (here_at class.now m.now env.old.vars.list) part.now at (typed_in env.old.pool scope.old x))
        (typed_in env.new.pool scope.new) env.old.marks env.new.marks result }
    ensures value { IfOk result (λ v. IsValue env.new.pool scope.old scope.new v) }
    ensures stays { Stays env.old env.new }
{
    match &part.args {
        None => field_value(alloc, p, class, m, env, scope, at, x, &part.name),
        Some(args) => type_call(
            alloc,
            p,
            class,
            m,
            env,
            scope,
            at,
            x,
            &part.name,
            args.as_slice(),
        ),
    }
}

/// All that stands behind a value: the first receiver stands at `at`, each later one where the whole does.
#[cycle(typing)]
fn type_parts(
    alloc: Global,
    p: &Program,
    class: &Bound,
    m: &Method,
    env: &mut Env,
    scope: &mut Scope,
    whole: Place,
    at: Place,
    x: Value,
    suffixes: &[Suffix],
) -> Result<Value, CheckFault>
    requires parts { ArePartsOf p.now (parts env.old) }
    requires scope { IsScope env.old.pool scope.old }
    requires there { IsThere p.now (site_here (here_at class.now m.now env.old.vars.list))
        (scope_in env.old.pool scope.old) }
    requires number { InPool env.old.pool x.ty }
    requires fits { TypedFits (typed_in env.old.pool scope.old x) }
    ensures told { PlanTold p.now
        (suffixes_typed whole at (typed_parts (here_at class.now m.now env.old.vars.list) suffixes.now)
        (typed_in env.old.pool scope.old x))
        (typed_in env.new.pool scope.new) env.old.marks env.new.marks result }
    ensures value { IfOk result (λ v. IsValue env.new.pool scope.old scope.new v) }
    ensures stays { Stays env.old env.new }
{
    let mut value = x;
    let mut place = at;
    for part in suffixes {
        match type_part(alloc, p, class, m, env, scope, place, value, part) {
            Err(fault) => return Err(fault),
            Ok(next) => {
                value = next;
            }
        }
        place = whole;
    }
    Ok(value)
}

/// One argument, and then its test against the parameter and its path.
#[cycle(typing)]
fn type_arg(
    alloc: Global,
    p: &Program,
    class: &Bound,
    m: &Method,
    env: &mut Env,
    scope: &mut Scope,
    call: &mut Call,
    e: &Expr,
) -> Result<(), CheckFault>
    requires parts { ArePartsOf p.now (parts env.old) }
    requires scope { IsScope env.old.pool scope.old }
    requires there { IsThere p.now (site_here (here_at class.now m.now env.old.vars.list))
        (scope_in env.old.pool scope.old) }
    requires call { CallFits p.now env.old.pool (scope_in env.old.pool scope.old) call.old }
    requires next { length call.old.paths.items ≤ length call.old.header.at.vars.list }
    ensures told { (x : AVar) (go : List ℕ → AScope → Plan Passed)
        → slice_get call.old.header.at.vars.list (length call.old.paths.items - 1) ≡ Some x → LeadsTold p.now
        (then_do (expr_types (here_at class.now m.now env.old.vars.list) e.now (scope_in env.old.pool scope.old))
        (λ t. arg_left (here_at class.now m.now env.old.vars.list) call.old.from.items x e.now.at t
        call.old.paths.items go))
        (λ u. go call.new.paths.items (scope_in env.new.pool scope.new)) env.old.marks env.new.marks result }
    ensures passed { OnOk result (IsPassed env.new.pool scope.old scope.new call.old call.new) }
    ensures longer { OnOk result (length call.new.paths.items ≡ length call.old.paths.items + 1) }
    ensures fits { OnOk result (CallFits p.now env.new.pool (scope_in env.new.pool scope.new) call.new) }
    ensures stays { Stays env.old env.new }
{
    match value_of(alloc, p, class, m, env, scope, e) {
        Err(fault) => Err(fault),
        Ok(v) => pass_arg(alloc, p, class, m, env, scope, call, e.at, v),
    }
}

/// All arguments of a call that has the path of its receiver, in turn.
#[cycle(typing)]
fn type_args(
    alloc: Global,
    p: &Program,
    class: &Bound,
    m: &Method,
    env: &mut Env,
    scope: &mut Scope,
    call: &mut Call,
    args: &[Expr],
) -> Result<(), CheckFault>
    requires parts { ArePartsOf p.now (parts env.old) }
    requires scope { IsScope env.old.pool scope.old }
    requires there { IsThere p.now (site_here (here_at class.now m.now env.old.vars.list))
        (scope_in env.old.pool scope.old) }
    requires call { CallFits p.now env.old.pool (scope_in env.old.pool scope.old) call.old }
    requires first { length call.old.paths.items ≡ 1 }
    requires count { length call.old.header.at.vars.list ≡ length args.now }
    ensures told { PlanTold p.now
        (args_typed (here_at class.now m.now env.old.vars.list) call.old.from.items call.old.header.at.vars.list
        (typed_args (here_at class.now m.now env.old.vars.list) args.now) call.old.paths.items
        (scope_in env.old.pool scope.old))
        (λ u. passed_in env.new.pool scope.new call.new) env.old.marks env.new.marks result }
    ensures passed { OnOk result (IsPassed env.new.pool scope.old scope.new call.old call.new) }
    ensures fits { OnOk result (CallFits p.now env.new.pool (scope_in env.new.pool scope.new) call.new) }
    ensures full { OnOk result (length call.new.paths.items ≡ length call.new.header.at.vars.list + 1) }
    ensures stays { Stays env.old env.new }
{
    for e in args {
        match type_arg(alloc, p, class, m, env, scope, call, e) {
            Err(fault) => return Err(fault),
            Ok(()) => {}
        }
    }
    Ok(())
}

/// The arguments of a call of a method, and then its result.
#[cycle(typing)]
fn type_called(
    alloc: Global,
    p: &Program,
    class: &Bound,
    m: &Method,
    env: &mut Env,
    scope: &mut Scope,
    call: &mut Call,
    args: &[Expr],
) -> Result<Value, CheckFault>
    requires parts { ArePartsOf p.now (parts env.old) }
    requires scope { IsScope env.old.pool scope.old }
    requires there { IsThere p.now (site_here (here_at class.now m.now env.old.vars.list))
        (scope_in env.old.pool scope.old) }
    requires call { CallFits p.now env.old.pool (scope_in env.old.pool scope.old) call.old }
    requires first { length call.old.paths.items ≡ 1 }
    requires count { length call.old.header.at.vars.list ≡ length args.now }
    ensures told { PlanTold p.now
        (called (here_at class.now m.now env.old.vars.list) (header_in env.old.pool call.old.header)
        (typed_args (here_at class.now m.now env.old.vars.list) args.now) call.old.paths.items
        (scope_in env.old.pool scope.old))
        (typed_in env.new.pool scope.new) env.old.marks env.new.marks result }
    ensures value { IfOk result (λ v. IsValue env.new.pool scope.old scope.new v) }
    ensures stays { Stays env.old env.new }
{
    match type_args(alloc, p, class, m, env, scope, call, args) {
        Err(fault) => Err(fault),
        Ok(()) => result_of(alloc, p, env, scope, call),
    }
}

/// A call of a method of a value that stands at the place.
#[cycle(typing)]
fn type_call(
    alloc: Global,
    p: &Program,
    class: &Bound,
    m: &Method,
    env: &mut Env,
    scope: &mut Scope,
    at: Place,
    x: Value,
    name: &Named,
    args: &[Expr],
) -> Result<Value, CheckFault>
    requires parts { ArePartsOf p.now (parts env.old) }
    requires scope { IsScope env.old.pool scope.old }
    requires there { IsThere p.now (site_here (here_at class.now m.now env.old.vars.list))
        (scope_in env.old.pool scope.old) }
    requires number { InPool env.old.pool x.ty }
    requires fits { TypedFits (typed_in env.old.pool scope.old x) }
    ensures told { PlanTold p.now
        (suffix_typed (here_at class.now m.now env.old.vars.list) name.now
        (Some (typed_args (here_at class.now m.now env.old.vars.list) args.now)) at
        (typed_in env.old.pool scope.old x))
        (typed_in env.new.pool scope.new) env.old.marks env.new.marks result }
    ensures value { IfOk result (λ v. IsValue env.new.pool scope.old scope.new v) }
    ensures stays { Stays env.old env.new }
{
    match begin_method(alloc, p, class, m, env, scope, at, x, name, args.len()) {
        Err(fault) => Err(fault),
        Ok(begun) => {
            let mut call = begun;
            type_called(alloc, p, class, m, env, scope, &mut call, args)
        }
    }
}

/// The arguments of the constructor, where there is one, and then the new object.
#[cycle(typing)]
fn type_made(
    alloc: Global,
    p: &Program,
    class: &Bound,
    m: &Method,
    env: &mut Env,
    scope: &mut Scope,
    value: Value,
    constructor: Option<Call>,
    args: &[Expr],
) -> Result<Value, CheckFault>
    requires parts { ArePartsOf p.now (parts env.old) }
    requires scope { IsScope env.old.pool scope.old }
    requires there { IsThere p.now (site_here (here_at class.now m.now env.old.vars.list))
        (scope_in env.old.pool scope.old) }
    requires number { InPool env.old.pool value.ty }
    requires fits { TypedFits (typed_in env.old.pool scope.old value) }
    requires call { AwaitsArgs p.now env.old.pool (scope_in env.old.pool scope.old) (length args.now) constructor }
    ensures told { PlanTold p.now
        (made_call (here_at class.now m.now env.old.vars.list) env.old.pool scope.old
        (typed_args (here_at class.now m.now env.old.vars.list) args.now) value constructor)
        (typed_in env.new.pool scope.new) env.old.marks env.new.marks result }
    ensures value { IfOk result (λ v. IsValue env.new.pool scope.old scope.new v) }
    ensures stays { Stays env.old env.new }
{
    match constructor {
        None => made(env, scope, value),
        Some(begun) => {
            let mut call = begun;
            match type_args(alloc, p, class, m, env, scope, &mut call, args) {
                Err(fault) => Err(fault),
                Ok(()) => made(env, scope, value),
            }
        }
    }
}

/// A `new`, which stands at the place.
#[cycle(typing)]
fn type_new(
    alloc: Global,
    p: &Program,
    class: &Bound,
    m: &Method,
    env: &mut Env,
    scope: &mut Scope,
    at: Place,
    t: &Term,
    args: &[Expr],
) -> Result<Value, CheckFault>
    requires parts { ArePartsOf p.now (parts env.old) }
    requires scope { IsScope env.old.pool scope.old }
    requires there { IsThere p.now (site_here (here_at class.now m.now env.old.vars.list))
        (scope_in env.old.pool scope.old) }
    ensures told { PlanTold p.now
        (ask (OfTerm role.New (site_here (here_at class.now m.now env.old.vars.list)) t.now)
        (taken (new_typed (here_at class.now m.now env.old.vars.list) at
        (typed_args (here_at class.now m.now env.old.vars.list) args.now) (scope_in env.old.pool scope.old))))
        (typed_in env.new.pool scope.new) env.old.marks env.new.marks result }
    ensures value { IfOk result (λ v. IsValue env.new.pool scope.old scope.new v) }
    ensures stays { Stays env.old env.new }
{
    match begin_new(alloc, p, class, m, env, scope, at, t, args.len()) {
        Err(fault) => Err(fault),
        Ok(making) => type_made(
            alloc,
            p,
            class,
            m,
            env,
            scope,
            making.value,
            making.call,
            args,
        ),
    }
}

/// The call of the body that a `super` calls.
#[cycle(typing)]
fn type_super_body(
    alloc: Global,
    p: &Program,
    class: &Bound,
    m: &Method,
    env: &mut Env,
    scope: &mut Scope,
    owner: &Bound,
    method: &Method,
    name: &Named,
    args: &[Expr],
) -> Result<Value, CheckFault>
    requires parts { ArePartsOf p.now (parts env.old) }
    requires scope { IsScope env.old.pool scope.old }
    requires there { IsThere p.now (site_here (here_at class.now m.now env.old.vars.list))
        (scope_in env.old.pool scope.old) }
    requires at { MethodAt p.now owner.now method.now.name.name method.now }
    requires deep { length (bound_of (scope_in env.old.pool scope.old) 0) ≡ length owner.now }
    ensures told { PlanTold p.now
        (super_gives (here_at class.now m.now env.old.vars.list) name.now
        (typed_args (here_at class.now m.now env.old.vars.list) args.now) (scope_in env.old.pool scope.old)
        (body_of owner.now method.now))
        (typed_in env.new.pool scope.new) env.old.marks env.new.marks result }
    ensures value { IfOk result (λ v. IsValue env.new.pool scope.old scope.new v) }
    ensures stays { Stays env.old env.new }
{
    match enter_super(alloc, p, class, m, env, owner, method, name, args.len()) {
        Err(fault) => Err(fault),
        Ok(begun) => {
            let mut call = begun;
            match type_args(alloc, p, class, m, env, scope, &mut call, args) {
                Err(fault) => Err(fault),
                Ok(()) => end_super(alloc, p, class, m, env, scope, owner, method, name, &call),
            }
        }
    }
}

/// A `super`.
#[cycle(typing)]
fn type_super(
    alloc: Global,
    p: &Program,
    class: &Bound,
    m: &Method,
    env: &mut Env,
    scope: &mut Scope,
    t: &Term,
    name: &Named,
    args: &[Expr],
) -> Result<Value, CheckFault>
    requires parts { ArePartsOf p.now (parts env.old) }
    requires scope { IsScope env.old.pool scope.old }
    requires there { IsThere p.now (site_here (here_at class.now m.now env.old.vars.list))
        (scope_in env.old.pool scope.old) }
    ensures told { PlanTold p.now
        (ask (OfTerm role.Super (site_here (here_at class.now m.now env.old.vars.list)) t.now)
        (taken (super_typed (here_at class.now m.now env.old.vars.list) t.now name.now
        (typed_args (here_at class.now m.now env.old.vars.list) args.now) (scope_in env.old.pool scope.old))))
        (typed_in env.new.pool scope.new) env.old.marks env.new.marks result }
    ensures value { IfOk result (λ v. IsValue env.new.pool scope.old scope.new v) }
    ensures stays { Stays env.old env.new }
{
    match begin_super(alloc, p, class, m, env, scope, t, name) {
        Err(fault) => Err(fault),
        Ok(owner) => {
            let path = owner.shown(alloc)?;
            match method_at(p, &env.table, &path, name.name) {
                None => Err(CheckFault::Memory),
                Some(method) => {
                    type_super_body(alloc, p, class, m, env, scope, &owner, method, name, args)
                }
            }
        }
    }
}

/// The type of an expression that stands in the method of the declaration of which `env` tells; the scope has the
/// fresh paths then.
pub fn type_of(
    alloc: Global,
    p: &Program,
    env: &mut Env,
    scope: &mut Scope,
    e: &Expr,
) -> Result<TyId, CheckFault>
    requires parts { ArePartsOf p.now (parts env.old) }
    requires scope { IsScope env.old.pool scope.old }
    requires there { (Q : APath) (m : AMethod) → env.old.class ≡ shown_path Q → MethodAt p.now Q env.old.method m
        → IsThere p.now (site_here (here_at Q m env.old.vars.list)) (scope_in env.old.pool scope.old) }
    ensures told { (Q : APath) (m : AMethod) → env.old.class ≡ shown_path Q → MethodAt p.now Q env.old.method m
        → TypeTold p.now (expr_types (here_at Q m env.old.vars.list) e.now (scope_in env.old.pool scope.old))
        env.new.pool scope.new env.old.marks env.new.marks result }
    ensures number { IfOk result (λ id. InPool env.new.pool id) }
    ensures scope { IfOk result (λ id. IsScope env.new.pool scope.new) }
    ensures grows { IfOk result (λ id. Grows scope.old scope.new) }
    ensures stays { Stays env.old env.new }
{
    let class = Bound::of(alloc, env.class.names.as_slice())?;
    match method_at(p, &env.table, &env.class, env.method) {
        None => Err(CheckFault::Memory),
        Some(m) => match value_of(alloc, p, &class, m, env, scope, e) {
            Err(fault) => Err(fault),
            Ok(value) => Ok(value.ty),
        },
    }
}
