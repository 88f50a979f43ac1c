//! Calls, but for going over their arguments.

ghost use Rattle.std.specs.Prelude.{◌≡◌, ◌≤◌, ◌+◌, ◌-◌, ◌++◌, [], ◌∷◌, ℕ, List, length, slice_get, IfOk, OnOk};
ghost use Rattle.jn_base.specs.declared.tree.Expr.{Expr as AnExpr};
ghost use Rattle.jn_base.specs.declared.names.Var.{Var as AVar};
ghost use Rattle.jn_base.specs.Members.{MethodAt};
ghost use Rattle.jn_base.specs.Scopes.{Scope as AScope};
ghost use Rattle.jn_intern.specs.Pools.{InPool, shown, scope_in, Keeps};
ghost use Rattle.jn_rules.specs.Plans.{Plan};
ghost use Rattle.jn_rules.specs.Headers.{Header as TypedHeader};
ghost use Rattle.jn_rules.specs.Exprs.{Typing, Typed, Passed, suffix_typed, replaced_paths, put_in, result_gives, type_passed};
ghost use Rattle.jn_heads.specs.Params.{header_in};
ghost use Rattle.jn_sem.specs.Normal.{swapped, MovedFits};
ghost use Rattle.jn_rule_laws.specs.LawsOfOneHeader.{HeaderFits};
ghost use Rattle.jn_expr.specs.Envs.{ArePartsOf, IsScope, Stays, parts, here_at};
ghost use Rattle.jn_expr.specs.Passing.{Shows};
ghost use Rattle.jn_expr.specs.Told.{PlanTold};
ghost use Rattle.jn_base.specs.Fits.{TypeFits};
ghost use Rattle.jn_expr.specs.Values.{IsValue, TypedFits, typed_in};
ghost use Rattle.jn_expr.specs.Steps.{LeadsTold, entered, passed_in};
ghost use Rattle.jn_expr.specs.Calling.{body_of, OwnerLeads, receiver_left, called, Begins, IsBegun, DeepAs, CallFits};
ghost use Rattle.jn_expr.specs.Calling.{arg_left, IsPassed};

use crate::env::{Call, Env, Value};
use crate::fault::refused;
use crate::fields::of_receiver;
use crate::lookup::method_at;
use crate::marks::note_member;
use crate::masks::{first_mask, masks_of};
use crate::members::method_of;
use crate::operators::is_null;
use crate::types::{below, path_of, put_in};
use crate::values::is_class;
use crate::views::plain_of;
use jn_base::names::Var;
use jn_base::refusal::Rule;
use jn_base::tree::{Method, Named, Place, Program};
use jn_heads::{CheckFault, Header, header_of};
use jn_intern::{Pool, Scope, TyId};
use jn_names::Bound;
use std::alloc::{AllocError, Global};

/// `this` and the parameters, by their paths.
fn replaced_paths(alloc: Global, vars: &[Var]) -> Result<Vec<u32>, AllocError>
    ensures { IfOk result (λ all. all.items ≡ replaced_paths vars.now) }
{
    let mut all = Vec::new(alloc);
    all.push(0)?;
    for v in vars {
        all.push(v.path)?;
    }
    Ok(all)
}

/// A call with this header, whose receiver has the path.
pub fn begin_call(alloc: Global, header: Header, first: u32) -> Result<Call, AllocError>
    ensures { IfOk result (λ call. Begins header first call) }
{
    let from = replaced_paths(alloc, header.at.vars.list.as_slice())?;
    let mut paths = Vec::new(alloc);
    paths.push(first)?;
    Ok(Call {
        header,
        from,
        paths,
    })
}

/// The header of the body that is called, with so many arguments: E17 at the place where it has another number of
/// parameters. The class that declares it is noted.
pub fn enter(
    alloc: Global,
    p: &Program,
    class: &Bound,
    m: &Method,
    env: &mut Env,
    owner: &Bound,
    method: &Method,
    at: Place,
    count: usize,
) -> Result<Header, CheckFault>
    requires parts { ArePartsOf p.now (parts env.old) }
    requires at { MethodAt p.now owner.now method.now.name.name method.now }
    ensures told { (go : TypedHeader → Plan Typed) → LeadsTold p.now
        (entered (here_at class.now m.now env.old.vars.list) (body_of owner.now method.now) at count go)
        (λ h. go (header_in env.new.pool h)) env.old.marks env.new.marks result }
    ensures number { IfOk result (λ h. InPool env.new.pool h.result) }
    ensures fits { IfOk result (λ h. HeaderFits p.now (body_of owner.now method.now) (header_in env.new.pool h)) }
    ensures count { IfOk result (λ h. length h.at.vars.list ≡ count) }
    ensures stays { Stays env.old env.new }
{
    match header_of(
        alloc,
        p,
        &mut env.table,
        &env.masks,
        &mut env.pool,
        owner,
        method,
    ) {
        Err(fault) => Err(fault),
        Ok(header) => {
            if header.at.vars.list.len() != count {
                return Err(refused(alloc, Rule::E17, at, class, m.name.name));
            }
            note_member(alloc, &mut env.marks, owner)?;
            Ok(header)
        }
    }
}

/// The call of a body for a receiver of the type, whose path is its own or a fresh one.
pub fn enter_with(
    alloc: Global,
    p: &Program,
    class: &Bound,
    m: &Method,
    env: &mut Env,
    scope: &mut Scope,
    owner: &Bound,
    method: &Method,
    at: Place,
    x: Value,
    count: usize,
) -> Result<Call, CheckFault>
    requires parts { ArePartsOf p.now (parts env.old) }
    requires scope { IsScope env.old.pool scope.old }
    requires number { InPool env.old.pool x.ty }
    requires fits { TypedFits (typed_in env.old.pool scope.old x) }
    requires at { MethodAt p.now owner.now method.now.name.name method.now }
    requires deep { DeepAs (scope_in env.old.pool scope.old) (shown env.old.pool x.ty) owner.now }
    ensures told { (go : TypedHeader → Plan Typed) → LeadsTold p.now
        (entered (here_at class.now m.now env.old.vars.list) (body_of owner.now method.now) at count go)
        (λ call. go (header_in env.new.pool call.header)) env.old.marks env.new.marks result }
    ensures call { IfOk result (λ call. IsBegun env.new.pool (scope_in env.old.pool scope.old) scope.old scope.new
        (shown env.old.pool x.ty) x.path call) }
    ensures fits { IfOk result (λ call. CallFits p.now env.new.pool (scope_in env.new.pool scope.new) call) }
    ensures count { IfOk result (λ call. length call.header.at.vars.list ≡ count) }
    ensures stays { Stays env.old env.new }
{
    match enter(alloc, p, class, m, env, owner, method, at, count) {
        Err(fault) => Err(fault),
        Ok(header) => {
            let path = path_of(&env.pool, scope, x.ty, x.path)?;
            let call = begin_call(alloc, header, path)?;
            Ok(call)
        }
    }
}

/// The class that has the body of a method of a value at a place: E18 where the value is of no class type, E16 where it
/// has no such method, E19 where a field of it is masked.
fn receiver(
    alloc: Global,
    p: &Program,
    class: &Bound,
    m: &Method,
    env: &Env,
    scope: &Scope,
    at: Place,
    x: Value,
    name: &Named,
) -> Result<Bound, CheckFault>
    requires parts { ArePartsOf p.now (parts env.now) }
    requires scope { IsScope env.now.pool scope.now }
    requires number { InPool env.now.pool x.ty }
    ensures told { (es : List (AnExpr × Typing)) → OwnerLeads p.now name.now.name
        (suffix_typed (here_at class.now m.now env.now.vars.list) name.now (Some es) at
        (typed_in env.now.pool scope.now x))
        (receiver_left (here_at class.now m.now env.now.vars.list) name.now es (typed_in env.now.pool scope.now x))
        env.now.marks env.now.marks result }
    ensures deep { IfOk result (λ Q. DeepAs (scope_in env.now.pool scope.now) (shown env.now.pool x.ty) Q) }
{
    let ty = env.pool.show(x.ty);
    if !is_class(ty) {
        return Err(refused(alloc, Rule::E18, at, class, m.name.name));
    }
    match method_of(
        alloc,
        &env.pool,
        scope,
        &env.table,
        &env.members,
        ty,
        name.name,
    )? {
        None => Err(of_receiver(alloc, Rule::E16, &env.pool, scope, ty, name.at, name.name)),
        Some(owner) => match first_mask(p, masks_of(ty), &env.masks) {
            None => Ok(owner),
            Some(field) => Err(of_receiver(alloc, Rule::E19, &env.pool, scope, ty, name.at, field)),
        },
    }
}

/// A call of a method, but for its arguments, of which there are so many: E17 where the method has another number of
/// parameters.
pub fn begin_method(
    alloc: Global,
    p: &Program,
    class: &Bound,
    m: &Method,
    env: &mut Env,
    scope: &mut Scope,
    at: Place,
    x: Value,
    name: &Named,
    count: usize,
) -> Result<Call, CheckFault>
    requires parts { ArePartsOf p.now (parts env.old) }
    requires scope { IsScope env.old.pool scope.old }
    requires number { InPool env.old.pool x.ty }
    requires fits { TypedFits (typed_in env.old.pool scope.old x) }
    ensures told { (es : List (AnExpr × Typing)) → length es ≡ count → LeadsTold p.now
        (suffix_typed (here_at class.now m.now env.old.vars.list) name.now (Some es) at
        (typed_in env.old.pool scope.old x))
        (λ call. called (here_at class.now m.now env.old.vars.list)
        (header_in env.new.pool call.header) es call.paths.items (scope_in env.new.pool scope.new))
        env.old.marks env.new.marks result }
    ensures call { IfOk result (λ call. IsBegun env.new.pool (scope_in env.old.pool scope.old) scope.old scope.new
        (shown env.old.pool x.ty) x.path call) }
    ensures fits { IfOk result (λ call. CallFits p.now env.new.pool (scope_in env.new.pool scope.new) call) }
    ensures count { IfOk result (λ call. length call.header.at.vars.list ≡ count) }
    ensures stays { Stays env.old env.new }
{
    match receiver(alloc, p, class, m, env, scope, at, x, name) {
        Err(fault) => Err(fault),
        Ok(owner) => {
            let path = owner.shown(alloc)?;
            match method_at(p, &env.table, &path, name.name) {
                None => Err(CheckFault::Memory),
                Some(method) => {
                    enter_with(
                        alloc, p, class, m, env, scope, &owner, method, name.at, x, count,
                    )
                }
            }
        }
    }
}

/// The type of the next parameter, with the paths put that are known.
fn wanted(alloc: Global, pool: &mut Pool, scope: &Scope, call: &Call) -> Result<TyId, AllocError>
    requires scope { IsScope pool.old scope.now }
    requires short { length call.now.paths.items ≤ length call.now.from.items }
    requires moved { (x : AVar) → slice_get call.now.header.at.vars.list (length call.now.paths.items - 1) ≡ Some x
        → MovedFits (scope_in pool.old scope.now) (swapped call.now.from.items call.now.paths.items) x.ty }
    ensures is { IfOk result (λ u. (x : AVar) → slice_get call.now.header.at.vars.list
        (length call.now.paths.items - 1) ≡ Some x
        → Shows pool.new u (put_in (scope_in pool.old scope.now) call.now.from.items call.now.paths.items x.ty)) }
    ensures number { IfOk result (λ u. InPool pool.new u) }
    ensures fits { IfOk result (λ u. TypeFits (scope_in pool.new scope.now) (shown pool.new u)) }
    ensures keeps { Keeps pool.old pool.new }
{
    let i = call.paths.len().saturating_sub(1);
    match call.header.at.vars.list.get(i) {
        None => Err(AllocError),
        Some(x) => {
            let ty = pool.intern(&x.ty)?;
            put_in(alloc, pool, scope, ty, &call.from, &call.paths)
        }
    }
}

/// A null argument is passed with the type of its parameter.
fn type_passed(pool: &Pool, ty: TyId, want: TyId) -> TyId
    requires ty { InPool pool.now ty }
    requires want { InPool pool.now want }
    ensures is { shown pool.now result ≡ type_passed (shown pool.now ty) (shown pool.now want) }
    ensures number { InPool pool.now result }
{
    if is_null(pool.show(ty)) {
        return want;
    }
    ty
}

/// Passes an argument that stands at the place: E18 where it is not below the type of its parameter.
pub fn pass_arg(
    alloc: Global,
    p: &Program,
    class: &Bound,
    m: &Method,
    env: &mut Env,
    scope: &mut Scope,
    call: &mut Call,
    place: Place,
    v: Value,
) -> Result<(), CheckFault>
    requires parts { ArePartsOf p.now (parts env.old) }
    requires scope { IsScope env.old.pool scope.old }
    requires number { InPool env.old.pool v.ty }
    requires fits { TypedFits (typed_in env.old.pool scope.old v) }
    requires call { CallFits p.now env.old.pool (scope_in env.old.pool scope.old) call.old }
    requires next { length call.old.paths.items ≤ length call.old.header.at.vars.list }
    ensures told { (x : AVar) (go : List ℕ → AScope → Plan Passed)
        → slice_get call.old.header.at.vars.list (length call.old.paths.items - 1) ≡ Some x → LeadsTold p.now
        (arg_left (here_at class.now m.now env.old.vars.list) call.old.from.items x place
        (typed_in env.old.pool scope.old v) call.old.paths.items go)
        (λ u. go call.new.paths.items (scope_in env.new.pool scope.new)) env.old.marks env.new.marks result }
    ensures passed { OnOk result (IsPassed env.new.pool scope.old scope.new call.old call.new) }
    ensures longer { OnOk result (length call.new.paths.items ≡ length call.old.paths.items + 1) }
    ensures fits { OnOk result (CallFits p.now env.new.pool (scope_in env.new.pool scope.new) call.new) }
    ensures stays { Stays env.old env.new }
{
    let want = wanted(alloc, &mut env.pool, scope, call)?;
    if !below(&mut env.judge, &mut env.pool, &env.table, scope, v.ty, want)? {
        return Err(refused(alloc, Rule::E18, place, class, m.name.name));
    }
    let passed = type_passed(&env.pool, v.ty, want);
    let path = path_of(&env.pool, scope, passed, v.path)?;
    call.paths.push(path)?;
    Ok(())
}

/// The result of a call, with the paths of its receiver and its arguments put for `this` and the parameters.
pub fn result_of(
    alloc: Global,
    p: &Program,
    env: &mut Env,
    scope: &Scope,
    call: &Call,
) -> Result<Value, CheckFault>
    requires scope { IsScope env.old.pool scope.now }
    requires call { CallFits p.now env.old.pool (scope_in env.old.pool scope.now) call.now }
    requires full { length call.now.paths.items ≡ length call.now.header.at.vars.list + 1 }
    ensures told { PlanTold p.now (result_gives (header_in env.old.pool call.now.header)
        (passed_in env.old.pool scope.now call.now))
        (typed_in env.new.pool scope.now) env.old.marks env.new.marks result }
    ensures value { IfOk result (λ v. IsValue env.new.pool scope.now scope.now v) }
    ensures stays { Stays env.old env.new }
{
    let put = put_in(
        alloc,
        &mut env.pool,
        scope,
        call.header.result,
        &call.from,
        &call.paths,
    )?;
    plain_of(env, scope, put)
}
