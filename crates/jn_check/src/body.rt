//! Whole bodies.

ghost use Rattle.std.specs.Prelude.{◌≡◌, ◌≤◌, ◌||◌, suc, reverse, IfOk, IfSome};
ghost use Rattle.jn_intern.specs.Pools.{InPool, shown};
ghost use Rattle.jn_rules.specs.Stmts.{is_void, all_stop};
ghost use Rattle.jn_expr.specs.Envs.{ArePartsOf, Stays, parts};
ghost use Rattle.jn_expr.specs.Calling.{body_of};
ghost use Rattle.jn_check.specs.Bodies.{nothing_typed, BeginTold, EndTold, BodyTold};
ghost use Rattle.jn_check.specs.States.{StaysButVars};

use crate::blocks::check_stmts;
use crate::leaving::copied_scope;
use crate::simple::is_void;
use crate::state::Locals;
use crate::stops::all_stop;
use jn_base::names::Resolved;
use jn_base::refusal::Rule;
use jn_base::tree::{Method, Name, Program};
use jn_base::types::Ty;
use jn_expr::{Env, refused};
use jn_heads::{CheckFault, header_of};
use jn_intern::TyId;
use jn_names::Bound;
use sqlite_items::Items;
use std::alloc::{AllocError, Global};
use std::mem;

/// The marks of a method of which nothing was typed yet.
fn no_marks(alloc: Global, class: &Bound, method: Name) -> Result<Resolved, AllocError>
    ensures { IfOk result (λ r. r ≡ nothing_typed class.now method) }
{
    let class = class.shown(alloc)?;
    Ok(Resolved {
        class,
        method,
        terms: Items::new(alloc),
        vars: Items::new(alloc),
        members: Items::new(alloc),
        kinds: Items::new(alloc),
    })
}

/// The number of the first local behind so many parameters; no method that a source spells has more than 15.
fn first_local(count: usize) -> Option<u32>
    ensures is { IfSome result (λ n. n ≡ suc count) }
    ensures small { IfSome result (λ n. n ≤ 256) }
{
    if count > 255 {
        return None;
    }
    Some(count as u32 + 1)
}

/// Where the statements of a body begin, and the number of its result's type.
#[derive(Drop)]
pub struct Begun {
    pub at: Locals,
    pub gives: TyId,
}

/// The header of a body: its parameters are in scope then, and nothing was typed yet.
fn begin(
    alloc: Global,
    p: &Program,
    class: &Bound,
    m: &Method,
    env: &mut Env,
) -> Result<Begun, CheckFault>
    requires { ArePartsOf p.now (parts env.old) }
    ensures told { BeginTold p.now (body_of class.now m.now) env.new result }
    ensures stays { StaysButVars env.old env.new }
{
    match header_of(
        alloc,
        p,
        &mut env.table,
        &env.masks,
        &mut env.pool,
        class,
        m,
    ) {
        Err(fault) => Err(fault),
        Ok(header) => match first_local(header.at.vars.list.len()) {
            None => Err(CheckFault::Memory),
            Some(next) => {
                let gives = header.result;
                let at = header.at;
                let scope = copied_scope(alloc, &at.scope)?;
                env.marks = no_marks(alloc, class, m.name.name)?;
                env.vars = at.vars;
                let declared = at.scope;
                Ok(Begun {
                    at: Locals {
                        declared,
                        scope,
                        next,
                    },
                    gives,
                })
            }
        },
    }
}

/// Whether the end of a body may be reached: it has no result, or its end can't be.
fn may_end(gives: &Ty, m: &Method) -> bool
    ensures { result ≡ (is_void gives.now || all_stop m.now.body) }
{
    is_void(gives) || all_stop(m.body.as_slice())
}

/// The marks of a body whose statements are typed; E23 at the method's name where its end may not be reached.
fn finish(
    alloc: Global,
    class: &Bound,
    m: &Method,
    gives: TyId,
    env: &mut Env,
) -> Result<Resolved, CheckFault>
    requires { InPool env.old.pool gives }
    ensures told { EndTold (is_void (shown env.old.pool gives) || all_stop m.now.body) (body_of class.now m.now)
        env.old.marks result }
    ensures stays { Stays env.old env.new }
{
    if !may_end(env.pool.show(gives), m) {
        return Err(refused(alloc, Rule::E23, m.name.at, class, m.name.name));
    }
    let fresh = no_marks(alloc, class, m.name.name)?;
    Ok(mem::replace(&mut env.marks, fresh))
}

/// What is known of the body of a method in the declaration of which `env` tells, or its first refusal. The variables
/// and marks of `env` are made anew.
pub fn check_body(
    alloc: Global,
    p: &Program,
    env: &mut Env,
    m: &Method,
) -> Result<Resolved, CheckFault>
    requires { ArePartsOf p.now (parts env.old) }
    ensures told { BodyTold p.now (body_of (reverse env.old.class.names) m.now) result }
    ensures stays { StaysButVars env.old env.new }
{
    let class = Bound::of(alloc, env.class.names.as_slice())?;
    match begin(alloc, p, &class, m, env) {
        Err(fault) => Err(fault),
        Ok(begun) => {
            let mut x = begun.at;
            let gives = begun.gives;
            match check_stmts(alloc, p, &class, m, gives, env, &mut x, m.body.as_slice()) {
                Err(fault) => Err(fault),
                Ok(()) => finish(alloc, &class, m, gives, env),
            }
        }
    }
}
