//! The expressions of a statement. Their fresh paths are gone behind the statement.

ghost use Rattle.std.specs.Prelude.{◌≡◌, ℕ, IfOk, OnOk};
ghost use Rattle.jn_base.specs.declared.types.Ty.{Ty as AType};
ghost use Rattle.jn_base.specs.Scopes.{Scope as AScope};
ghost use Rattle.jn_base.specs.Fits.{TypeFits};
ghost use Rattle.jn_intern.specs.Pools.{InPool, shown, scope_in};
ghost use Rattle.jn_rules.specs.Plans.{Plan, then_do};
ghost use Rattle.jn_rules.specs.Exprs.{site_here, expr_types};
ghost use Rattle.jn_rules.specs.Stmts.{Before, typed_below};
ghost use Rattle.jn_expr.specs.Envs.{ArePartsOf, IsScope, IsThere, Stays, parts, here_at};
ghost use Rattle.jn_expr.specs.Steps.{LeadsTold};
ghost use Rattle.jn_check.specs.States.{in_at, before_in};

use jn_base::refusal::Rule;
use jn_base::tree::{Expr, Method, Program};
use jn_expr::{Env, below, refused, value_of};
use jn_heads::CheckFault;
use jn_intern::{Scope, TyId};
use jn_names::Bound;
use std::alloc::Global;

/// The type of an expression alone.
pub fn type_alone(
    alloc: Global,
    p: &Program,
    class: &Bound,
    m: &Method,
    env: &mut Env,
    scope: &mut Scope,
    e: &Expr,
) -> Result<TyId, CheckFault>
    requires parts { ArePartsOf p.now (parts env.old) }
    requires scope { IsScope env.old.pool scope.old }
    requires there { IsThere p.now (site_here (here_at class.now m.now env.old.vars.list))
        (scope_in env.old.pool scope.old) }
    ensures told { (go : AType → Plan Before) → LeadsTold p.now
        (then_do (expr_types (here_at class.now m.now env.old.vars.list) e.now (scope_in env.old.pool scope.old))
        (λ y. go y.ty))
        (λ id. go (shown env.new.pool id)) env.old.marks env.new.marks result }
    ensures number { IfOk result (λ id. InPool env.new.pool id) }
    ensures kept { IfOk result (λ id. scope.new.binds.items ≡ scope.old.binds.items) }
    ensures stays { Stays env.old env.new }
{
    let count = scope.binds.len();
    match value_of(alloc, p, class, m, env, scope, e) {
        Err(fault) => Err(fault),
        Ok(v) => {
            scope.binds.truncate(count);
            Ok(v.ty)
        }
    }
}

/// An expression whose type has to be below another one, else E18 at it.
pub fn check_below(
    alloc: Global,
    p: &Program,
    class: &Bound,
    m: &Method,
    env: &mut Env,
    scope: &mut Scope,
    e: &Expr,
    ty: TyId,
) -> Result<(), CheckFault>
    requires parts { ArePartsOf p.now (parts env.old) }
    requires scope { IsScope env.old.pool scope.old }
    requires there { IsThere p.now (site_here (here_at class.now m.now env.old.vars.list))
        (scope_in env.old.pool scope.old) }
    requires number { InPool env.old.pool ty }
    requires fits { TypeFits (scope_in env.old.pool scope.old) (shown env.old.pool ty) }
    ensures told { (t : AType) (s : AScope) (n : ℕ) (go : Plan Before) → LeadsTold p.now
        (typed_below (in_at class.now m.now t) (before_in env.old.vars.list s n) e.now
        (scope_in env.old.pool scope.old) (shown env.old.pool ty) go)
        (λ u. go) env.old.marks env.new.marks result }
    ensures kept { OnOk result (scope.new.binds.items ≡ scope.old.binds.items) }
    ensures stays { Stays env.old env.new }
{
    let count = scope.binds.len();
    match value_of(alloc, p, class, m, env, scope, e) {
        Err(fault) => Err(fault),
        Ok(v) => {
            if !below(&mut env.judge, &mut env.pool, &env.table, scope, v.ty, ty)? {
                return Err(refused(alloc, Rule::E18, e.at, class, m.name.name));
            }
            scope.binds.truncate(count);
            Ok(())
        }
    }
}
