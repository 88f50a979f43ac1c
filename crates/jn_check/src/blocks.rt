//! Statements of all forms, and blocks of them.

ghost use Rattle.std.specs.Prelude.{◌≡◌, List, map, IfOk, OnOk};
ghost use Rattle.jn_base.specs.declared.types.Ty.{Ty as AType};
ghost use Rattle.jn_intern.specs.Pools.{InPool, ScopeInPool, scope_in};
ghost use Rattle.jn_rules.specs.Stmts.{StmtTyping, stmt_types, stmts_type, condition};
ghost use Rattle.jn_rules.specs.Stmts.{block_typed, choice_typed, loop_typed};
ghost use Rattle.jn_expr.specs.Envs.{ArePartsOf, parts};
ghost use Rattle.jn_expr.specs.Passing.{Shows};
ghost use Rattle.jn_expr.specs.Steps.{LeadsTold};
ghost use Rattle.jn_expr.specs.Told.{PlanTold};
ghost use Rattle.jn_check.specs.Masks.{bare};
ghost use Rattle.jn_check.specs.Blocks.{behind_one};
ghost use Rattle.jn_check.specs.States.{in_at, before_at, IsBefore, IsAfter, IsBack, StaysButVars};

use crate::assign::check_assign;
use crate::leaving::{copied_scope, joined_scope, leave};
use crate::locals::check_local;
use crate::sets::check_set;
use crate::simple::{check_call, check_condition, check_print, check_return};
use crate::state::Locals;
use jn_base::tree::{Expr, Method, Program, Stmt};
use jn_expr::Env;
use jn_heads::CheckFault;
use jn_intern::{Scope, TyId};
use jn_names::Bound;
use std::alloc::Global;
use std::mem;

/// A statement in a method whose result has the type `gives`: its refusals, or what stands behind it.
#[cycle(statements)]
fn check_stmt(
    alloc: Global,
    p: &Program,
    class: &Bound,
    m: &Method,
    gives: TyId,
    env: &mut Env,
    x: &mut Locals,
    s: &Stmt,
) -> Result<(), CheckFault>
    requires parts { ArePartsOf p.now (parts env.old) }
    requires before { IsBefore p.now class.now m.now.name.name env.old.pool env.old.vars.list x.old }
    requires number { InPool env.old.pool gives }
    ensures told { (t : AType) → Shows env.old.pool gives t → PlanTold p.now
        (stmt_types (in_at class.now m.now t) s.now (before_at env.old x.old))
        (λ u. before_at env.new x.new) env.old.marks env.new.marks result }
    ensures after { OnOk result (IsAfter p.now class.now m.now.name.name env.old x.old env.new x.new) }
    ensures stays { StaysButVars env.old env.new }
{
    match s {
        Stmt::Block(body) => check_block(alloc, p, class, m, gives, env, x, body.as_slice()),
        Stmt::Local(fixed, ty, name, e) => {
            check_local(alloc, p, class, m, env, x, *fixed, ty, name, e)
        }
        Stmt::Assign(name, e) => check_assign(alloc, p, class, m, env, x, name, e),
        Stmt::Set(of, f, e) => check_set(alloc, p, class, m, env, x, of, f, e),
        Stmt::Do(e) => check_call(alloc, p, class, m, env, x, e),
        Stmt::If(e, one, other, _) => {
            match check_first(alloc, p, class, m, gives, env, x, one.as_slice(), e) {
                Err(fault) => Err(fault),
                Ok(first) => {
                    check_other(alloc, p, class, m, gives, env, x, other.as_slice(), first)
                }
            }
        }
        Stmt::While(e, body, _) => {
            check_while(alloc, p, class, m, gives, env, x, body.as_slice(), e)
        }
        Stmt::Return(e, at) => check_return(alloc, p, class, m, gives, env, x, e, *at),
        Stmt::Print(e, _) => check_print(alloc, p, class, m, env, x, e),
        Stmt::PrintText(_, _) => Ok(()),
    }
}

/// Statements, one after the other.
#[cycle(statements)]
pub fn check_stmts(
    alloc: Global,
    p: &Program,
    class: &Bound,
    m: &Method,
    gives: TyId,
    env: &mut Env,
    x: &mut Locals,
    ss: &[Stmt],
) -> Result<(), CheckFault>
    requires parts { ArePartsOf p.now (parts env.old) }
    requires before { IsBefore p.now class.now m.now.name.name env.old.pool env.old.vars.list x.old }
    requires number { InPool env.old.pool gives }
    ensures told { (t : AType) → Shows env.old.pool gives t → PlanTold p.now
        (stmts_type (in_at class.now m.now t) ss.now (before_at env.old x.old))
        (λ u. before_at env.new x.new) env.old.marks env.new.marks result }
    ensures after { OnOk result (IsAfter p.now class.now m.now.name.name env.old x.old env.new x.new) }
    ensures stays { StaysButVars env.old env.new }
{
    for s in ss {
        match check_stmt(alloc, p, class, m, gives, env, x, s) {
            Err(fault) => return Err(fault),
            Ok(()) => {}
        }
    }
    Ok(())
}

/// A block: its variables and their paths aren't in scope behind it.
#[cycle(statements)]
fn check_block(
    alloc: Global,
    p: &Program,
    class: &Bound,
    m: &Method,
    gives: TyId,
    env: &mut Env,
    x: &mut Locals,
    body: &[Stmt],
) -> Result<(), CheckFault>
    requires parts { ArePartsOf p.now (parts env.old) }
    requires before { IsBefore p.now class.now m.now.name.name env.old.pool env.old.vars.list x.old }
    requires number { InPool env.old.pool gives }
    ensures told { (t : AType) → Shows env.old.pool gives t → PlanTold p.now
        (block_typed (map (stmt_types (in_at class.now m.now t)) body.now) (before_at env.old x.old))
        (λ u. before_at env.new x.new) env.old.marks env.new.marks result }
    ensures back { OnOk result (IsBack p.now class.now m.now.name.name env.old x.old env.new x.new) }
    ensures stays { StaysButVars env.old env.new }
{
    let vars = env.vars.list.len();
    let paths = x.scope.binds.len();
    match check_stmts(alloc, p, class, m, gives, env, x, body) {
        Err(fault) => Err(fault),
        Ok(()) => {
            leave(env, x, vars, paths);
            Ok(())
        }
    }
}

/// The condition of an `if` and its first block. The masks before are back then; the scope is that of the block's end.
#[cycle(statements)]
fn check_first(
    alloc: Global,
    p: &Program,
    class: &Bound,
    m: &Method,
    gives: TyId,
    env: &mut Env,
    x: &mut Locals,
    one: &[Stmt],
    e: &Expr,
) -> Result<Scope, CheckFault>
    requires parts { ArePartsOf p.now (parts env.old) }
    requires before { IsBefore p.now class.now m.now.name.name env.old.pool env.old.vars.list x.old }
    requires number { InPool env.old.pool gives }
    ensures told { (t : AType) (others : List StmtTyping) → Shows env.old.pool gives t → LeadsTold p.now
        (condition (in_at class.now m.now t) (before_at env.old x.old) e.now
        (choice_typed (map (stmt_types (in_at class.now m.now t)) one.now) others (before_at env.old x.old)))
        (λ first. behind_one others (scope_in env.new.pool first) (before_at env.new x.new))
        env.old.marks env.new.marks result }
    ensures back { IfOk result (λ first. IsBack p.now class.now m.now.name.name env.old x.old env.new x.new) }
    ensures known { IfOk result (λ first. ScopeInPool env.new.pool first) }
    ensures same { IfOk result (λ first. map bare (scope_in env.new.pool first)
        ≡ map bare (scope_in env.new.pool x.new.scope)) }
    ensures stays { StaysButVars env.old env.new }
{
    match check_condition(alloc, p, class, m, env, x, e) {
        Err(fault) => Err(fault),
        Ok(()) => {
            let before = copied_scope(alloc, &x.scope)?;
            match check_block(alloc, p, class, m, gives, env, x, one) {
                Err(fault) => Err(fault),
                Ok(()) => {
                    let first = mem::replace(&mut x.scope, before);
                    Ok(first)
                }
            }
        }
    }
}

/// The second block of an `if`, whose first one had this scope at its end. Each path has the masks of both ends then.
#[cycle(statements)]
fn check_other(
    alloc: Global,
    p: &Program,
    class: &Bound,
    m: &Method,
    gives: TyId,
    env: &mut Env,
    x: &mut Locals,
    other: &[Stmt],
    first: Scope,
) -> Result<(), CheckFault>
    requires parts { ArePartsOf p.now (parts env.old) }
    requires before { IsBefore p.now class.now m.now.name.name env.old.pool env.old.vars.list x.old }
    requires number { InPool env.old.pool gives }
    requires first { ScopeInPool env.old.pool first }
    requires same { map bare (scope_in env.old.pool first) ≡ map bare (scope_in env.old.pool x.old.scope) }
    ensures told { (t : AType) → Shows env.old.pool gives t → PlanTold p.now
        (behind_one (map (stmt_types (in_at class.now m.now t)) other.now) (scope_in env.old.pool first)
        (before_at env.old x.old))
        (λ u. before_at env.new x.new) env.old.marks env.new.marks result }
    ensures back { OnOk result (IsBack p.now class.now m.now.name.name env.old x.old env.new x.new) }
    ensures stays { StaysButVars env.old env.new }
{
    match check_block(alloc, p, class, m, gives, env, x, other) {
        Err(fault) => Err(fault),
        Ok(()) => {
            let both = joined_scope(alloc, &mut env.pool, &first, &x.scope)?;
            x.scope = both;
            Ok(())
        }
    }
}

/// A `while`: its condition, and its block. The masks before the block are these behind it.
#[cycle(statements)]
fn check_while(
    alloc: Global,
    p: &Program,
    class: &Bound,
    m: &Method,
    gives: TyId,
    env: &mut Env,
    x: &mut Locals,
    body: &[Stmt],
    e: &Expr,
) -> Result<(), CheckFault>
    requires parts { ArePartsOf p.now (parts env.old) }
    requires before { IsBefore p.now class.now m.now.name.name env.old.pool env.old.vars.list x.old }
    requires number { InPool env.old.pool gives }
    ensures told { (t : AType) → Shows env.old.pool gives t → PlanTold p.now
        (condition (in_at class.now m.now t) (before_at env.old x.old) e.now
        (loop_typed (map (stmt_types (in_at class.now m.now t)) body.now) (before_at env.old x.old)))
        (λ u. before_at env.new x.new) env.old.marks env.new.marks result }
    ensures back { OnOk result (IsBack p.now class.now m.now.name.name env.old x.old env.new x.new) }
    ensures stays { StaysButVars env.old env.new }
{
    match check_condition(alloc, p, class, m, env, x, e) {
        Err(fault) => Err(fault),
        Ok(()) => {
            let before = copied_scope(alloc, &x.scope)?;
            match check_block(alloc, p, class, m, gives, env, x, body) {
                Err(fault) => Err(fault),
                Ok(()) => {
                    x.scope = before;
                    Ok(())
                }
            }
        }
    }
}
