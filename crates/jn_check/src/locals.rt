//! Locals.

ghost use Rattle.std.specs.Prelude.{◌≡◌, OnOk};
ghost use Rattle.jn_base.specs.declared.types.Ty.{Ty as AType};
ghost use Rattle.jn_intern.specs.Pools.{InPool, shown};
ghost use Rattle.jn_laws.specs.LawsOfWritten.{site_with, TypeThere};
ghost use Rattle.jn_sem.specs.Does.{var};
ghost use Rattle.jn_rules.specs.Plans.{OfType, ask, taken};
ghost use Rattle.jn_rules.specs.Stmts.{local_with, local_typed};
ghost use Rattle.jn_expr.specs.Envs.{ArePartsOf, parts};
ghost use Rattle.jn_expr.specs.Told.{PlanTold};
ghost use Rattle.jn_check.specs.States.{in_at, before_at, IsBefore, IsAfter, StaysButVars};
ghost use Rattle.jn_check.specs.Storing.{AddsLocal};

use crate::exprs::check_below;
use crate::state::Locals;
use crate::types::local_type;
use jn_base::names::Var;
use jn_base::tree::{Expr, Method, Name, Named, Program, TypeTerm};
use jn_expr::{Env, note_var};
use jn_heads::CheckFault;
use jn_intern::{Bind, TyId, copied_type};
use jn_names::Bound;
use std::alloc::{AllocError, Global};

/// One more local, with the next number; parameters and locals have numbers below 256.
fn add_local(
    alloc: Global,
    env: &mut Env,
    x: &mut Locals,
    fixed: bool,
    name: Name,
    ty: TyId,
) -> Result<(), AllocError>
    requires { InPool env.old.pool ty }
    ensures added { OnOk result (AddsLocal env.old x.old name fixed ty env.new x.new) }
    ensures stays { StaysButVars env.old env.new }
{
    if x.next > 255 {
        return Err(AllocError);
    }
    let path = x.next;
    let shown = copied_type(alloc, env.pool.show(ty))?;
    env.vars.list.push(Var {
        name,
        path,
        fixed,
        ty: shown,
    })?;
    x.declared.binds.push(Bind { path, ty })?;
    x.scope.binds.push(Bind { path, ty })?;
    x.next = path + 1;
    Ok(())
}

/// A local whose type has this number: the refusals of its expression, E18 where that isn't below the type. The local
/// is in scope then.
fn local_with(
    alloc: Global,
    p: &Program,
    class: &Bound,
    m: &Method,
    env: &mut Env,
    x: &mut Locals,
    fixed: bool,
    name: &Named,
    e: &Expr,
    ty: TyId,
) -> Result<(), CheckFault>
    requires parts { ArePartsOf p.now (parts env.old) }
    requires before { IsBefore p.now class.now m.now.name.name env.old.pool env.old.vars.list x.old }
    requires number { InPool env.old.pool ty }
    requires there { TypeThere (site_with class.now m.now.name.name env.old.vars.list) (shown env.old.pool ty) }
    ensures told { (t : AType) → PlanTold p.now
        (local_with (in_at class.now m.now t) (before_at env.old x.old) name.now e.now
        (var name.now.name x.old.next fixed (shown env.old.pool ty)))
        (λ u. before_at env.new x.new) env.old.marks env.new.marks result }
    ensures after { OnOk result (IsAfter p.now class.now m.now.name.name env.old x.old env.new x.new) }
    ensures stays { StaysButVars env.old env.new }
{
    note_var(&mut env.marks, x.next)?;
    match check_below(alloc, p, class, m, env, &mut x.scope, e, ty) {
        Err(fault) => Err(fault),
        Ok(()) => {
            add_local(alloc, env, x, fixed, name.name, ty)?;
            Ok(())
        }
    }
}

/// A local: the refusals of its type and of its expression, E18 where this isn't below the type. The local is in scope
/// then, with the masks of its type.
pub fn check_local(
    alloc: Global,
    p: &Program,
    class: &Bound,
    m: &Method,
    env: &mut Env,
    x: &mut Locals,
    fixed: bool,
    ty: &TypeTerm,
    name: &Named,
    e: &Expr,
) -> Result<(), CheckFault>
    requires parts { ArePartsOf p.now (parts env.old) }
    requires before { IsBefore p.now class.now m.now.name.name env.old.pool env.old.vars.list x.old }
    ensures told { (t : AType) → PlanTold p.now
        (ask (OfType (site_with class.now m.now.name.name env.old.vars.list) ty.now)
        (taken (local_typed (in_at class.now m.now t) (before_at env.old x.old) fixed name.now e.now)))
        (λ u. before_at env.new x.new) env.old.marks env.new.marks result }
    ensures after { OnOk result (IsAfter p.now class.now m.now.name.name env.old x.old env.new x.new) }
    ensures stays { StaysButVars env.old env.new }
{
    match local_type(alloc, p, class, m, env, &x.declared, ty) {
        Err(fault) => Err(fault),
        Ok(id) => local_with(alloc, p, class, m, env, x, fixed, name, e, id),
    }
}
