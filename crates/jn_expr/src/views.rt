//! View changes.

ghost use Rattle.std.specs.Prelude.{◌≡◌, IfOk, option_copied};
ghost use Rattle.jn_base.specs.declared.tree.Program.{Program as AProgram};
ghost use Rattle.jn_base.specs.declared.types.Anchor.TheVariants.{Root};
ghost use Rattle.jn_intern.specs.Pools.{InPool, shown, scope_in};
ghost use Rattle.jn_rules.specs.Plans.{Target, target_type, Plan, AtomMark, OfView, note, ask, taken};
ghost use Rattle.jn_rules.specs.Exprs.{Typed, plain, gives, site_here, by_sharing, viewed_as};
ghost use Rattle.jn_sem.specs.NormalFunction.{normal_type};
ghost use Rattle.jn_expr.specs.Envs.{ArePartsOf, IsScope, Stays, parts, here_at};
ghost use Rattle.jn_expr.specs.Told.{PlanTold};
ghost use Rattle.jn_base.specs.Fits.{TypeFits};
ghost use Rattle.jn_expr.specs.Values.{IsValue, TypedFits, typed_in};
ghost use Rattle.jn_expr.specs.Viewing.{TargetTold, TargetLeads, granted_or, changed};

use crate::env::{Env, Value};
use crate::fault::{no_view, not_shared, refused};
use crate::grants::header_grants;
use crate::marks::{kind_of, note_atom, note_kind};
use crate::masks::masks_of;
use crate::members::path_of_number;
use crate::operators::{is_null, is_object};
use crate::sharing::sharing_of;
use crate::types::normal_of;
use jn_base::names::Role;
use jn_base::refusal::Rule;
use jn_base::tree::{Method, Place, Program, ViewTerm};
use jn_base::types::{Anchor, Atom, Ty};
use jn_heads::{CheckFault, of_names, spot};
use jn_intern::{Scope, TyId};
use jn_names::{Bound, resolve_view};
use jn_views::Held;
use std::alloc::Global;

/// What the target of a view stands for: one atom with masks.
fn target_of(
    alloc: Global,
    p: &Program,
    class: &Bound,
    m: &Method,
    env: &mut Env,
    view: &ViewTerm,
) -> Result<Ty, CheckFault>
    requires { ArePartsOf p.now (parts env.old) }
    ensures told { TargetTold p.now (here_at class.now m.now env.old.vars.list) view.now result }
    ensures stays { Stays env.old env.new }
    ensures marks { env.new.marks ≡ env.old.marks }
{
    let spot = spot(alloc, class, m.name.name, Role::View)?;
    match resolve_view(alloc, p, &mut env.table, &spot, &env.vars, &env.masks, view) {
        Ok(ty) => Ok(ty),
        Err(fault) => Err(of_names(fault)),
    }
}

/// The atom of a target.
fn target_atom(ty: &Ty) -> Option<&Atom>
    ensures { (u : Target) → ty.now ≡ target_type u → option_copied result ≡ Some u.atom }
{
    match ty {
        Ty::Class(xs, _) => xs.as_slice().first(),
        Ty::Int => None,
        Ty::Bool => None,
        Ty::Null => None,
        Ty::Void => None,
    }
}

/// The target of a view, whose atom is noted.
pub fn begin_view(
    alloc: Global,
    p: &Program,
    class: &Bound,
    m: &Method,
    env: &mut Env,
    view: &ViewTerm,
) -> Result<Ty, CheckFault>
    requires { ArePartsOf p.now (parts env.old) }
    ensures told { (go : Target → Plan Typed) → TargetLeads p.now
        (ask (OfView (site_here (here_at class.now m.now env.old.vars.list)) view.now)
        (taken (λ u. note (AtomMark u.atom) (go u))))
        go env.old.marks env.new.marks result }
    ensures stays { Stays env.old env.new }
{
    match target_of(alloc, p, class, m, env, view) {
        Err(fault) => Err(fault),
        Ok(ty) => match target_atom(&ty) {
            None => Err(CheckFault::Memory),
            Some(atom) => {
                note_atom(alloc, &mut env.marks, atom)?;
                Ok(ty)
            }
        },
    }
}

/// The value of a type that has a number, which is no path.
pub fn plain_of(env: &mut Env, scope: &Scope, ty: TyId) -> Result<Value, CheckFault>
    requires scope { IsScope env.old.pool scope.now }
    requires number { InPool env.old.pool ty }
    requires fits { TypeFits (scope_in env.old.pool scope.now) (shown env.old.pool ty) }
    ensures told { (p : AProgram) → PlanTold p (gives
        (plain (shown env.old.pool ty) (scope_in env.old.pool scope.now)))
        (typed_in env.new.pool scope.now) env.old.marks env.new.marks result }
    ensures value { IfOk result (λ v. IsValue env.new.pool scope.now scope.now v) }
    ensures stays { Stays env.old env.new }
{
    let kind = kind_of(env.pool.show(ty));
    note_kind(&mut env.marks, kind)?;
    Ok(Value { ty, path: None })
}

/// What a granted view has: the target's type.
fn viewed(alloc: Global, env: &mut Env, scope: &Scope, target: &Ty) -> Result<Value, CheckFault>
    requires { IsScope env.old.pool scope.now }
    ensures told { (p : AProgram) → PlanTold p
        (gives (plain (normal_type (scope_in env.old.pool scope.now) target.now) (scope_in env.old.pool scope.now)))
        (typed_in env.new.pool scope.now) env.old.marks env.new.marks result }
    ensures value { IfOk result (λ v. IsValue env.new.pool scope.now scope.now v) }
    ensures stays { Stays env.old env.new }
{
    let id = env.pool.intern(target)?;
    let form = normal_of(alloc, &mut env.pool, scope, id)?;
    plain_of(env, scope, form)
}

/// A view of a type whose target has the anchor Root: granted where all its classes are shared with the target.
fn by_sharing(
    alloc: Global,
    p: &Program,
    env: &mut Env,
    scope: &Scope,
    at: Place,
    from: TyId,
    target: &Ty,
    atom: &Atom,
) -> Result<Value, CheckFault>
    requires parts { ArePartsOf p.now (parts env.old) }
    requires scope { IsScope env.old.pool scope.now }
    requires number { InPool env.old.pool from }
    requires fits { TypeFits (scope_in env.old.pool scope.now) (shown env.old.pool from) }
    ensures told { (u : Target) → target.now ≡ target_type u → atom.now ≡ u.atom → PlanTold p.now
        (by_sharing at (scope_in env.old.pool scope.now) (shown env.old.pool from) u
        (viewed_as u (scope_in env.old.pool scope.now)) Root)
        (typed_in env.new.pool scope.now) env.old.marks env.new.marks result }
    ensures value { IfOk result (λ v. IsValue env.new.pool scope.now scope.now v) }
    ensures stays { Stays env.old env.new }
{
    match sharing_of(alloc, env, scope, from, atom, masks_of(target))? {
        Held::Yes => viewed(alloc, env, scope, target),
        Held::NoCounterpart(id) => {
            let shown = path_of_number(alloc, &env.table, id)?;
            Err(not_shared(alloc, at, &shown, None))
        }
        Held::Unshared(id, field) => {
            let shown = path_of_number(alloc, &env.table, id)?;
            Err(not_shared(alloc, at, &shown, Some(field)))
        }
    }
}

/// A view of a type that no header grants, to a target: by sharing where its anchor is Root, else it is refused.
fn unless_path(
    alloc: Global,
    p: &Program,
    env: &mut Env,
    scope: &Scope,
    at: Place,
    from: TyId,
    target: &Ty,
) -> Result<Value, CheckFault>
    requires parts { ArePartsOf p.now (parts env.old) }
    requires scope { IsScope env.old.pool scope.now }
    requires number { InPool env.old.pool from }
    requires fits { TypeFits (scope_in env.old.pool scope.now) (shown env.old.pool from) }
    ensures told { (u : Target) → target.now ≡ target_type u → PlanTold p.now
        (by_sharing at (scope_in env.old.pool scope.now) (shown env.old.pool from) u
        (viewed_as u (scope_in env.old.pool scope.now)) u.atom.anchor)
        (typed_in env.new.pool scope.now) env.old.marks env.new.marks result }
    ensures value { IfOk result (λ v. IsValue env.new.pool scope.now scope.now v) }
    ensures stays { Stays env.old env.new }
{
    match target_atom(target) {
        None => Err(CheckFault::Memory),
        Some(atom) => match atom.anchor {
            Anchor::Up(_, _) => Err(no_view(at)),
            Anchor::Root => by_sharing(alloc, p, env, scope, at, from, target, atom),
        },
    }
}

/// A view of a value that is no null: by the header, or by sharing; else it is refused.
fn granted_or(
    alloc: Global,
    p: &Program,
    class: &Bound,
    m: &Method,
    env: &mut Env,
    scope: &Scope,
    at: Place,
    from: TyId,
    target: &Ty,
) -> Result<Value, CheckFault>
    requires parts { ArePartsOf p.now (parts env.old) }
    requires scope { IsScope env.old.pool scope.now }
    requires number { InPool env.old.pool from }
    requires fits { TypeFits (scope_in env.old.pool scope.now) (shown env.old.pool from) }
    ensures told { (u : Target) → target.now ≡ target_type u → PlanTold p.now
        (granted_or (here_at class.now m.now env.old.vars.list) at u (shown env.old.pool from)
        (scope_in env.old.pool scope.now))
        (typed_in env.new.pool scope.now) env.old.marks env.new.marks result }
    ensures value { IfOk result (λ v. IsValue env.new.pool scope.now scope.now v) }
    ensures stays { Stays env.old env.new }
{
    match header_grants(alloc, p, class, m, env, scope, from, target) {
        Err(fault) => Err(fault),
        Ok(granted) => {
            if granted {
                return viewed(alloc, env, scope, target);
            }
            unless_path(alloc, p, env, scope, at, from, target)
        }
    }
}

/// A view of a value to a target, behind the value at its place: E18 where it is of no class type and not null, E20
/// where nothing grants it.
pub fn change_view(
    alloc: Global,
    p: &Program,
    class: &Bound,
    m: &Method,
    env: &mut Env,
    scope: &Scope,
    at: Place,
    place: Place,
    target: &Ty,
    x: Value,
) -> Result<Value, CheckFault>
    requires parts { ArePartsOf p.now (parts env.old) }
    requires scope { IsScope env.old.pool scope.now }
    requires number { InPool env.old.pool x.ty }
    requires fits { TypedFits (typed_in env.old.pool scope.now x) }
    ensures told { (u : Target) → target.now ≡ target_type u → PlanTold p.now
        (changed (here_at class.now m.now env.old.vars.list) at place u (typed_in env.old.pool scope.now x))
        (typed_in env.new.pool scope.now) env.old.marks env.new.marks result }
    ensures value { IfOk result (λ v. IsValue env.new.pool scope.now scope.now v) }
    ensures stays { Stays env.old env.new }
{
    if !is_object(env.pool.show(x.ty)) {
        return Err(refused(alloc, Rule::E18, place, class, m.name.name));
    }
    if is_null(env.pool.show(x.ty)) {
        return viewed(alloc, env, scope, target);
    }
    granted_or(alloc, p, class, m, env, scope, at, x.ty, target)
}
