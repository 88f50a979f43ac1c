//! `super`, but for going over its arguments and what its body's header asks.

ghost use Rattle.std.specs.Prelude.{◌≡◌, List, length, IfOk, IsTrue};
ghost use Rattle.jn_base.specs.declared.tree.Program.{Program as AProgram};
ghost use Rattle.jn_base.specs.declared.tree.Expr.{Expr as AnExpr};
ghost use Rattle.jn_base.specs.Atoms.{atom_of};
ghost use Rattle.jn_base.specs.Members.{MethodAt};
ghost use Rattle.jn_base.specs.Scopes.{Scope as AScope, Binds, bound_of, bound};
ghost use Rattle.jn_table.specs.Tables.{IsFilled};
ghost use Rattle.jn_intern.specs.Pools.{scope_in, Keeps};
ghost use Rattle.jn_sem.specs.Below.{Below};
ghost use Rattle.jn_sem.specs.NormalFunction.{normal_type};
ghost use Rattle.jn_heads.specs.Params.{header_in};
ghost use Rattle.jn_rules.specs.Questions.{Answers};
ghost use Rattle.jn_rules.specs.Plans.{Plan};
ghost use Rattle.jn_rules.specs.Exprs.{Typing, Typed, path_type, of_atom, super_gives, constraints_granted};
ghost use Rattle.jn_expr.specs.Envs.{ArePartsOf, IsScope, Stays, parts, here_at};
ghost use Rattle.jn_expr.specs.Steps.{LeadsTold, IsCall};
ghost use Rattle.jn_expr.specs.Calling.{body_of, OwnerLeads, CallFits};
ghost use Rattle.jn_expr.specs.Variables.{PathThere};
ghost use Rattle.jn_expr.specs.Supering.{super_asked, super_left, constraint_asked};

use crate::calls::{begin_call, enter};
use crate::env::{Call, Env};
use crate::fault::refused;
use crate::grants::header_grants;
use crate::makes::normal_atom;
use crate::members::least_at;
use crate::types::{below, normal_of};
use crate::values::path_type;
use jn_base::refusal::Rule;
use jn_base::tree::{Constraint, Method, Named, Program, Term};
use jn_base::types::Atom;
use jn_heads::{CheckFault, pledge_of};
use jn_intern::{Pool, Scope};
use jn_names::Bound;
use jn_subtype::{Judge, scope_bound};
use jn_table::Table;
use std::alloc::{AllocError, Global};

/// Whether `this` is below the class that the atom stands for.
fn this_below(
    alloc: Global,
    judge: &mut Judge,
    pool: &mut Pool,
    table: &Table,
    scope: &Scope,
    x: &Atom,
) -> Result<bool, AllocError>
    requires scope { IsScope pool.old scope.now }
    requires this { PathThere (scope_in pool.old scope.now) 0 }
    ensures below { IfOk result (λ r. (p : AProgram) → IsFilled p table.now
        → Answers (Below p (scope_in pool.old scope.now) (path_type (scope_in pool.old scope.now) 0)
        (normal_type (scope_in pool.old scope.now) (of_atom x.now))) r) }
    ensures deep { IfOk result (λ r. (p : AProgram) → IsFilled p table.now → IsTrue r
        → length (bound_of (scope_in pool.old scope.now) 0) ≡ length (bound (scope_in pool.old scope.now) (atom_of x.now))) }
    ensures keeps { Keeps pool.old pool.new }
{
    let this = path_type(alloc, pool, scope, 0)?;
    let from = pool.intern(&this)?;
    let to = normal_atom(alloc, pool, scope, x)?;
    below(judge, pool, table, scope, from, to)
}

/// The class that has the body that a `super` calls: E18 at the term where `this` is not below it, E16 at the name
/// where the term's bound has no such method.
pub fn super_owner(
    alloc: Global,
    class: &Bound,
    m: &Method,
    env: &mut Env,
    scope: &Scope,
    t: &Term,
    name: &Named,
    x: &Atom,
) -> Result<Bound, CheckFault>
    requires scope { IsScope env.old.pool scope.now }
    requires this { PathThere (scope_in env.old.pool scope.now) 0 }
    ensures told { (p : AProgram) (es : List (AnExpr × Typing)) → ArePartsOf p (parts env.old)
        → OwnerLeads p name.now.name
        (super_asked (here_at class.now m.now env.old.vars.list) t.now name.now es
        (scope_in env.old.pool scope.now) x.now)
        (super_gives (here_at class.now m.now env.old.vars.list) name.now es (scope_in env.old.pool scope.now))
        env.old.marks env.new.marks result }
    ensures deep { (p : AProgram) → ArePartsOf p (parts env.old)
        → IfOk result (λ Q. length (bound_of (scope_in env.old.pool scope.now) 0) ≡ length Q) }
    ensures stays { Stays env.old env.new }
{
    let b = scope_bound(alloc, &env.pool, scope, x)?;
    if !this_below(alloc, &mut env.judge, &mut env.pool, &env.table, scope, x)? {
        return Err(refused(alloc, Rule::E18, t.at, class, m.name.name));
    }
    match least_at(alloc, &env.table, &env.members, &b, name.name)? {
        None => Err(refused(alloc, Rule::E16, name.at, &b, name.name)),
        Some(owner) => Ok(owner),
    }
}

/// The call of the body of a `super`, with so many arguments: E17 where it has another number of parameters. The
/// receiver is `this`.
pub fn enter_super(
    alloc: Global,
    p: &Program,
    class: &Bound,
    m: &Method,
    env: &mut Env,
    owner: &Bound,
    method: &Method,
    name: &Named,
    count: usize,
) -> Result<Call, CheckFault>
    requires parts { ArePartsOf p.now (parts env.old) }
    requires at { MethodAt p.now owner.now method.now.name.name method.now }
    ensures told { (es : List (AnExpr × Typing)) (s : AScope) → length es ≡ count → LeadsTold p.now
        (super_gives (here_at class.now m.now env.old.vars.list) name.now es s (body_of owner.now method.now))
        (λ call. super_left (here_at class.now m.now env.old.vars.list) name.now es s
        (body_of owner.now method.now) (header_in env.new.pool call.header) call.paths.items)
        env.old.marks env.new.marks result }
    ensures call { IfOk result (λ call. IsCall env.new.pool call) }
    ensures begun { IfOk result (λ call. length call.paths.items ≡ 1) }
    ensures fits { (s : AScope) → Binds s 0 → length (bound_of s 0) ≡ length owner.now
        → IfOk result (λ call. CallFits p.now env.new.pool s call) }
    ensures count { IfOk result (λ call. length call.header.at.vars.list ≡ count) }
    ensures stays { Stays env.old env.new }
{
    match enter(alloc, p, class, m, env, owner, method, name.at, count) {
        Err(fault) => Err(fault),
        Ok(header) => {
            let call = begin_call(alloc, header, 0)?;
            Ok(call)
        }
    }
}

/// One constraint of the body that a `super` calls: E25 at the name where the header of the caller doesn't grant it.
fn constraint_granted(
    alloc: Global,
    p: &Program,
    class: &Bound,
    m: &Method,
    env: &mut Env,
    scope: &Scope,
    owner: &Bound,
    method: &Method,
    name: &Named,
    constraint: &Constraint,
) -> Result<(), CheckFault>
    requires parts { ArePartsOf p.now (parts env.old) }
    requires scope { IsScope env.old.pool scope.now }
    ensures told { (go : Plan Typed) → LeadsTold p.now
        (constraint_asked (here_at class.now m.now env.old.vars.list) (body_of owner.now method.now) name.now
        (scope_in env.old.pool scope.now) constraint.now go) (λ u. go) env.old.marks env.new.marks result }
    ensures stays { Stays env.old env.new }
    ensures marks { env.new.marks ≡ env.old.marks }
{
    match pledge_of(
        alloc,
        p,
        &mut env.table,
        &env.masks,
        owner,
        method.name.name,
        constraint,
    ) {
        Err(fault) => Err(fault),
        Ok(pledge) => {
            let id = env.pool.intern(&pledge.from)?;
            let from = normal_of(alloc, &mut env.pool, scope, id)?;
            match header_grants(alloc, p, class, m, env, scope, from, &pledge.to) {
                Err(fault) => Err(fault),
                Ok(granted) => {
                    if !granted {
                        return Err(refused(alloc, Rule::E25, name.at, class, name.name));
                    }
                    Ok(())
                }
            }
        }
    }
}

/// What the header of the body that a `super` calls asks: E25 at the name at the first of its constraints that the
/// header of the caller doesn't grant.
pub fn constraints_granted(
    alloc: Global,
    p: &Program,
    class: &Bound,
    m: &Method,
    env: &mut Env,
    scope: &Scope,
    owner: &Bound,
    method: &Method,
    name: &Named,
) -> Result<(), CheckFault>
    requires parts { ArePartsOf p.now (parts env.old) }
    requires scope { IsScope env.old.pool scope.now }
    ensures told { (go : Plan Typed) → LeadsTold p.now
        (constraints_granted (here_at class.now m.now env.old.vars.list) (body_of owner.now method.now) name.now
        (scope_in env.old.pool scope.now) method.now.sharing go) (λ u. go) env.old.marks env.new.marks result }
    ensures stays { Stays env.old env.new }
    ensures marks { env.new.marks ≡ env.old.marks }
{
    for constraint in method.sharing.as_slice() {
        match constraint_granted(
            alloc, p, class, m, env, scope, owner, method, name, constraint,
        ) {
            Err(fault) => return Err(fault),
            Ok(()) => {}
        }
    }
    Ok(())
}
