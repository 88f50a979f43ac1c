//! `new`, but for going over its arguments.

ghost use Rattle.std.specs.Prelude.{◌≡◌, List, length, true, None, IfOk};
ghost use Rattle.jn_base.specs.declared.tree.Program.{Program as AProgram};
ghost use Rattle.jn_base.specs.declared.tree.Expr.{Expr as AnExpr};
ghost use Rattle.jn_intern.specs.Pools.{InPool, shown, scope_in};
ghost use Rattle.jn_base.specs.declared.names.Role.TheVariants as role;
ghost use Rattle.jn_base.specs.Atoms.{atom_of};
ghost use Rattle.jn_base.specs.Members.{MethodAt};
ghost use Rattle.jn_base.specs.Resolve.{is_class};
ghost use Rattle.jn_base.specs.Scopes.{bound};
ghost use Rattle.jn_sem.specs.NormalFunction.{normal_type};
ghost use Rattle.jn_rules.specs.Plans.{OfConstructor, OfTerm, ask, taken};
ghost use Rattle.jn_rules.specs.Exprs.{Typing, gives, made_with, made_without, made_exact, new_typed, site_here};
ghost use Rattle.jn_expr.specs.Envs.{ArePartsOf, IsScope, Stays, parts, here_at};
ghost use Rattle.jn_expr.specs.Told.{PlanTold};
ghost use Rattle.jn_base.specs.Fits.{TypeFits};
ghost use Rattle.jn_expr.specs.Values.{IsValue, TypedFits, typed_in};
ghost use Rattle.jn_expr.specs.Steps.{LeadsTold};
ghost use Rattle.jn_expr.specs.Calling.{body_of, DeepAs};
ghost use Rattle.jn_expr.specs.Typing.{AwaitsArgs};
ghost use Rattle.jn_expr.specs.Making.{IsLast, IsMade, made_left};

use crate::calls::enter_with;
use crate::env::{Call, Env, Value};
use crate::fault::refused;
use crate::lookup::method_at;
use crate::makes::{begin_term, made_type};
use crate::marks::{kind_of, note_kind};
use crate::members::constructor_from;
use crate::types::fresh_path;
use jn_base::names::Role;
use jn_base::refusal::Rule;
use jn_base::tree::{Method, Name, Place, Program, Term};
use jn_base::types::Atom;
use jn_heads::CheckFault;
use jn_intern::{Scope, TyId};
use jn_names::Bound;
use jn_subtype::scope_bound;
use std::alloc::Global;

/// A `new` whose arguments are still to come: the new object with its path, and the call of its constructor, where it
/// has one.
#[derive(Drop)]
pub struct Making {
    pub value: Value,
    pub call: Option<Call>,
}

/// A `new` of the type, whose class has no constructor: E17 where it has arguments.
pub fn make_without(
    alloc: Global,
    class: &Bound,
    m: &Method,
    env: &Env,
    scope: &mut Scope,
    at: Place,
    ty: TyId,
    count: usize,
) -> Result<Making, CheckFault>
    requires scope { IsScope env.now.pool scope.old }
    requires number { InPool env.now.pool ty }
    requires fits { TypeFits (scope_in env.now.pool scope.old) (shown env.now.pool ty) }
    requires class { is_class (shown env.now.pool ty) ≡ true }
    ensures told { (p : AProgram) (es : List (AnExpr × Typing)) → length es ≡ count → LeadsTold p
        (made_without (here_at class.now m.now env.now.vars.list) at es (scope_in env.now.pool scope.old)
        (shown env.now.pool ty))
        (made_left (here_at class.now m.now env.now.vars.list) env.now.pool scope.new es) env.now.marks env.now.marks result }
    ensures made { IfOk result (IsMade env.now.pool scope.old scope.new) }
    ensures none { IfOk result (λ x. x.call ≡ None) }
{
    if count != 0 {
        return Err(refused(alloc, Rule::E17, at, class, m.name.name));
    }
    let path = fresh_path(&env.pool, scope, ty)?;
    Ok(Making {
        value: Value {
            ty,
            path: Some(path),
        },
        call: None,
    })
}

/// A `new` of the type by its constructor, but for its arguments, of which there are so many: E17 where the constructor
/// has another number of parameters.
pub fn make_by(
    alloc: Global,
    p: &Program,
    class: &Bound,
    m: &Method,
    env: &mut Env,
    scope: &mut Scope,
    owner: &Bound,
    method: &Method,
    at: Place,
    ty: TyId,
    count: usize,
) -> Result<Making, CheckFault>
    requires parts { ArePartsOf p.now (parts env.old) }
    requires scope { IsScope env.old.pool scope.old }
    requires number { InPool env.old.pool ty }
    requires fits { TypeFits (scope_in env.old.pool scope.old) (shown env.old.pool ty) }
    requires at { MethodAt p.now owner.now method.now.name.name method.now }
    requires deep { DeepAs (scope_in env.old.pool scope.old) (shown env.old.pool ty) owner.now }
    ensures told { (es : List (AnExpr × Typing)) → length es ≡ count → LeadsTold p.now
        (made_with (here_at class.now m.now env.old.vars.list) at es (scope_in env.old.pool scope.old)
        (shown env.old.pool ty) (Some (body_of owner.now method.now)))
        (made_left (here_at class.now m.now env.old.vars.list) env.new.pool scope.new es) env.old.marks env.new.marks result }
    ensures made { IfOk result (IsMade env.new.pool scope.old scope.new) }
    ensures awaits { IfOk result (λ x. AwaitsArgs p.now env.new.pool (scope_in env.new.pool scope.new) count x.call) }
    ensures stays { Stays env.old env.new }
{
    let x = Value { ty, path: None };
    match enter_with(alloc, p, class, m, env, scope, owner, method, at, x, count) {
        Err(fault) => Err(fault),
        Ok(call) => match call.paths.get(0) {
            None => Err(CheckFault::Memory),
            Some(q) => {
                let path = *q;
                Ok(Making {
                    value: Value {
                        ty,
                        path: Some(path),
                    },
                    call: Some(call),
                })
            }
        },
    }
}

/// The new object, whose kind is noted.
pub fn made(env: &mut Env, scope: &Scope, x: Value) -> Result<Value, CheckFault>
    requires scope { IsScope env.old.pool scope.now }
    requires number { InPool env.old.pool x.ty }
    requires fits { TypedFits (typed_in env.old.pool scope.now x) }
    ensures told { (p : AProgram) → PlanTold p (gives (typed_in env.old.pool scope.now x))
        (typed_in env.new.pool scope.now) env.old.marks env.new.marks result }
    ensures value { IfOk result (λ v. IsValue env.new.pool scope.now scope.now v) }
    ensures stays { Stays env.old env.new }
{
    let kind = kind_of(env.pool.show(x.ty));
    note_kind(&mut env.marks, kind)?;
    Ok(x)
}

/// The last name of the path of a class, where it has one.
fn last_name(class: &Bound) -> Option<Name>
    ensures { IsLast class.now result }
{
    match class.names().last() {
        None => None,
        Some(name) => Some(*name),
    }
}

/// A `new` of the class that the atom stands for, but for its arguments, of which there are so many.
pub fn make_of(
    alloc: Global,
    p: &Program,
    class: &Bound,
    m: &Method,
    env: &mut Env,
    scope: &mut Scope,
    at: Place,
    x: &Atom,
    count: usize,
) -> Result<Making, CheckFault>
    requires parts { ArePartsOf p.now (parts env.old) }
    requires scope { IsScope env.old.pool scope.old }
    ensures told { (es : List (AnExpr × Typing)) → length es ≡ count → LeadsTold p.now
        (ask (OfConstructor (bound (scope_in env.old.pool scope.old) (atom_of x.now)))
        (made_with (here_at class.now m.now env.old.vars.list) at es (scope_in env.old.pool scope.old)
        (normal_type (scope_in env.old.pool scope.old) (made_exact (atom_of x.now)))))
        (made_left (here_at class.now m.now env.old.vars.list) env.new.pool scope.new es) env.old.marks env.new.marks result }
    ensures made { IfOk result (IsMade env.new.pool scope.old scope.new) }
    ensures awaits { IfOk result (λ x. AwaitsArgs p.now env.new.pool (scope_in env.new.pool scope.new) count x.call) }
    ensures stays { Stays env.old env.new }
{
    let b = scope_bound(alloc, &env.pool, scope, x)?;
    let ty = made_type(alloc, &mut env.pool, scope, x)?;
    match constructor_from(alloc, &env.table, &env.members, &b)? {
        None => make_without(alloc, class, m, env, scope, at, ty, count),
        Some(owner) => match last_name(&b) {
            None => Err(CheckFault::Memory),
            Some(name) => {
                let path = owner.shown(alloc)?;
                match method_at(p, &env.table, &path, name) {
                    None => Err(CheckFault::Memory),
                    Some(method) => {
                        make_by(
                            alloc, p, class, m, env, scope, &owner, method, at, ty, count,
                        )
                    }
                }
            }
        },
    }
}

/// A `new`, but for its arguments, of which there are so many: E17 where its class has no constructor of so many
/// parameters.
pub fn begin_new(
    alloc: Global,
    p: &Program,
    class: &Bound,
    m: &Method,
    env: &mut Env,
    scope: &mut Scope,
    at: Place,
    t: &Term,
    count: usize,
) -> Result<Making, CheckFault>
    requires parts { ArePartsOf p.now (parts env.old) }
    requires scope { IsScope env.old.pool scope.old }
    ensures told { (es : List (AnExpr × Typing)) → length es ≡ count → LeadsTold p.now
        (ask (OfTerm role.New (site_here (here_at class.now m.now env.old.vars.list)) t.now)
        (taken (new_typed (here_at class.now m.now env.old.vars.list) at es (scope_in env.old.pool scope.old))))
        (made_left (here_at class.now m.now env.old.vars.list) env.new.pool scope.new es) env.old.marks env.new.marks result }
    ensures made { IfOk result (IsMade env.new.pool scope.old scope.new) }
    ensures awaits { IfOk result (λ x. AwaitsArgs p.now env.new.pool (scope_in env.new.pool scope.new) count x.call) }
    ensures stays { Stays env.old env.new }
{
    match begin_term(alloc, p, class, m, env, Role::New, t) {
        Err(fault) => Err(fault),
        Ok(atom) => make_of(alloc, p, class, m, env, scope, at, &atom, count),
    }
}
