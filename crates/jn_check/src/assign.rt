//! Assignments to variables.

ghost use Rattle.std.specs.Prelude.{◌≡◌, IfOk, OnOk};
ghost use Rattle.jn_base.specs.declared.types.Ty.{Ty as AType};
ghost use Rattle.jn_base.specs.Resolve.{var_named};
ghost use Rattle.jn_intern.specs.Pools.{Keeps};
ghost use Rattle.jn_rules.specs.Stmts.{assign_typed};
ghost use Rattle.jn_expr.specs.Envs.{ArePartsOf, Stays, parts};
ghost use Rattle.jn_expr.specs.Told.{PlanTold};
ghost use Rattle.jn_check.specs.States.{in_at, before_at, IsBefore, IsAfter, StaysButVars};
ghost use Rattle.jn_check.specs.Storing.{AssignedIs};

use crate::exprs::check_below;
use crate::state::Locals;
use jn_base::names::Vars;
use jn_base::refusal::Rule;
use jn_base::tree::{Expr, Method, Name, Named, Program};
use jn_expr::{Env, newest, note_var, refused};
use jn_heads::CheckFault;
use jn_intern::{Pool, TyId};
use jn_names::Bound;
use std::alloc::{AllocError, Global};

/// What an assignment asks of its variable: its number, whether it is `final`, and its declared type.
#[derive(Clone, Copy, Debug, PartialEq, Eq)]
pub struct Assigned {
    pub path: u32,
    pub fixed: bool,
    pub ty: TyId,
}

/// The newest variable of the name.
fn variable_named(pool: &mut Pool, vars: &Vars, x: Name) -> Result<Option<Assigned>, AllocError>
    ensures is { IfOk result (λ o. AssignedIs pool.new (var_named vars.now x) o) }
    ensures keeps { Keeps pool.old pool.new }
{
    match newest(vars.list.as_slice(), x) {
        None => Ok(None),
        Some(v) => {
            let ty = pool.intern(&v.ty)?;
            Ok(Some(Assigned {
                path: v.path,
                fixed: v.fixed,
                ty,
            }))
        }
    }
}

/// `x = e;`: E06 where no variable has the name, E24 where it is `final`, the refusals of e, E18 where that isn't below
/// the declared type.
pub fn check_assign(
    alloc: Global,
    p: &Program,
    class: &Bound,
    m: &Method,
    env: &mut Env,
    x: &mut Locals,
    name: &Named,
    e: &Expr,
) -> Result<(), CheckFault>
    requires parts { ArePartsOf p.now (parts env.old) }
    requires before { IsBefore p.now class.now m.now.name.name env.old.pool env.old.vars.list x.old }
    ensures told { (t : AType) → PlanTold p.now
        (assign_typed (in_at class.now m.now t) (before_at env.old x.old) name.now e.now
        (var_named (record { list = env.old.vars.list }) name.now.name))
        (λ u. before_at env.new x.new) env.old.marks env.new.marks result }
    ensures after { OnOk result (IsAfter p.now class.now m.now.name.name env.old x.old env.new x.new) }
    ensures stays { StaysButVars env.old env.new }
{
    match variable_named(&mut env.pool, &env.vars, name.name)? {
        None => Err(refused(alloc, Rule::E06, name.at, class, name.name)),
        Some(v) => {
            if v.fixed {
                return Err(refused(alloc, Rule::E24, name.at, class, name.name));
            }
            note_var(&mut env.marks, v.path)?;
            check_below(alloc, p, class, m, env, &mut x.scope, e, v.ty)
        }
    }
}
