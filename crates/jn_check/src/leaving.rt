//! Out of a block, and back to the masks before.

ghost use Rattle.std.specs.Prelude.{◌≡◌, [], length, take, IfOk};
ghost use Rattle.jn_base.specs.declared.tree.Program.{Program};
ghost use Rattle.jn_intern.specs.Pools.{ScopeInPool, scope_in, Keeps};
ghost use Rattle.jn_rules.specs.Questions.{Notes};
ghost use Rattle.jn_rules.specs.Stmts.{joined};
ghost use Rattle.jn_check.specs.States.{IsLeft};

use crate::masks::joined;
use crate::state::Locals;
use jn_base::names::Vars;
use jn_expr::Env;
use jn_intern::{Pool, Scope};
use std::alloc::{AllocError, Global};

/// The first `count` variables stay in scope.
fn keep_vars(vars: &mut Vars, count: usize)
    ensures { vars.new.list ≡ take count vars.old.list }
{
    while vars.list.len() > count {
        vars.list.pop();
    }
}

/// Out of a block before which there were so many variables and paths.
pub fn leave(env: &mut Env, x: &mut Locals, vars: usize, paths: usize)
    ensures { IsLeft env.old x.old vars paths env.new x.new }
{
    keep_vars(&mut env.vars, vars);
    x.declared.binds.truncate(paths);
    x.scope.binds.truncate(paths);
}

/// A scope with the same binds.
pub fn copied_scope(alloc: Global, scope: &Scope) -> Result<Scope, AllocError>
    ensures { IfOk result (λ s. s.binds.items ≡ scope.now.binds.items) }
{
    let binds = Vec::from_slice(alloc, scope.binds.as_slice())?;
    Ok(Scope { binds })
}

/// The scope behind two ends that have the same paths: each path has the masks of both.
pub fn joined_scope(
    alloc: Global,
    pool: &mut Pool,
    one: &Scope,
    other: &Scope,
) -> Result<Scope, AllocError>
    requires one { ScopeInPool pool.old one.now }
    requires other { ScopeInPool pool.old other.now }
    requires long { length one.now.binds.items ≡ length other.now.binds.items }
    ensures is { IfOk result (λ s. (p : Program)
        → Notes p (joined (scope_in pool.old one.now) (scope_in pool.old other.now)) [] (scope_in pool.new s)) }
    ensures known { IfOk result (λ s. ScopeInPool pool.new s) }
    ensures keeps { Keeps pool.old pool.new }
{
    let binds = joined(alloc, pool, one.binds.as_slice(), other.binds.as_slice())?;
    Ok(Scope { binds })
}
