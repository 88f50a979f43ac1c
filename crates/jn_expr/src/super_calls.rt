//! Calls of `super`, before their arguments and behind them.

ghost use Rattle.std.specs.Prelude.{◌≡◌, ◌+◌, List, length, IfOk};
ghost use Rattle.jn_base.specs.declared.tree.Expr.{Expr as AnExpr};
ghost use Rattle.jn_base.specs.declared.names.Role.TheVariants as role;
ghost use Rattle.jn_base.specs.Scopes.{bound_of};
ghost use Rattle.jn_intern.specs.Pools.{scope_in};
ghost use Rattle.jn_heads.specs.Params.{header_in};
ghost use Rattle.jn_rules.specs.Plans.{OfTerm, ask, taken};
ghost use Rattle.jn_rules.specs.Exprs.{Typing, site_here, super_typed, super_gives, constraints_granted, result_gives};
ghost use Rattle.jn_expr.specs.Envs.{ArePartsOf, IsScope, Stays, parts, here_at};
ghost use Rattle.jn_expr.specs.Told.{PlanTold};
ghost use Rattle.jn_expr.specs.Steps.{passed_in};
ghost use Rattle.jn_expr.specs.Calling.{body_of, OwnerLeads, CallFits};
ghost use Rattle.jn_expr.specs.Variables.{PathThere};
ghost use Rattle.jn_expr.specs.Values.{IsValue, typed_in};

use crate::calls::result_of;
use crate::env::{Call, Env, Value};
use crate::makes::begin_term;
use crate::supers::{constraints_granted, super_owner};
use jn_base::names::Role;
use jn_base::tree::{Method, Named, Program, Term};
use jn_heads::CheckFault;
use jn_intern::Scope;
use jn_names::Bound;
use std::alloc::Global;

/// The class that has the body that a `super` calls; the atom of its term is noted.
pub fn begin_super(
    alloc: Global,
    p: &Program,
    class: &Bound,
    m: &Method,
    env: &mut Env,
    scope: &Scope,
    t: &Term,
    name: &Named,
) -> Result<Bound, CheckFault>
    requires parts { ArePartsOf p.now (parts env.old) }
    requires scope { IsScope env.old.pool scope.now }
    requires this { PathThere (scope_in env.old.pool scope.now) 0 }
    ensures told { (es : List (AnExpr × Typing)) → OwnerLeads p.now name.now.name
        (ask (OfTerm role.Super (site_here (here_at class.now m.now env.old.vars.list)) t.now)
        (taken (super_typed (here_at class.now m.now env.old.vars.list) t.now name.now es
        (scope_in env.old.pool scope.now))))
        (super_gives (here_at class.now m.now env.old.vars.list) name.now es (scope_in env.old.pool scope.now))
        env.old.marks env.new.marks result }
    ensures deep { IfOk result (λ Q. length (bound_of (scope_in env.old.pool scope.now) 0) ≡ length Q) }
    ensures stays { Stays env.old env.new }
{
    match begin_term(alloc, p, class, m, env, Role::Super, t) {
        Err(fault) => Err(fault),
        Ok(atom) => super_owner(alloc, class, m, env, scope, t, name, &atom),
    }
}

/// Behind the arguments of a `super`: what the header of its body asks of the caller's, and then its result.
pub fn end_super(
    alloc: Global,
    p: &Program,
    class: &Bound,
    m: &Method,
    env: &mut Env,
    scope: &Scope,
    owner: &Bound,
    method: &Method,
    name: &Named,
    call: &Call,
) -> Result<Value, CheckFault>
    requires parts { ArePartsOf p.now (parts env.old) }
    requires scope { IsScope env.old.pool scope.now }
    requires call { CallFits p.now env.old.pool (scope_in env.old.pool scope.now) call.now }
    requires full { length call.now.paths.items ≡ length call.now.header.at.vars.list + 1 }
    ensures told { PlanTold p.now
        (constraints_granted (here_at class.now m.now env.old.vars.list) (body_of owner.now method.now) name.now
        (scope_in env.old.pool scope.now) method.now.sharing
        (result_gives (header_in env.old.pool call.now.header) (passed_in env.old.pool scope.now call.now)))
        (typed_in env.new.pool scope.now) env.old.marks env.new.marks result }
    ensures value { IfOk result (λ v. IsValue env.new.pool scope.now scope.now v) }
    ensures stays { Stays env.old env.new }
{
    match constraints_granted(alloc, p, class, m, env, scope, owner, method, name) {
        Err(fault) => Err(fault),
        Ok(()) => result_of(alloc, p, env, scope, call),
    }
}
