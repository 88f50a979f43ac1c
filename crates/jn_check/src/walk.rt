//! The bodies of a program, in source order.

ghost use Rattle.std.specs.Prelude.{[], ◌∷◌, map};
ghost use Rattle.jn_rules.specs.Plans.{in_turn};
ghost use Rattle.jn_rules.specs.Stmts.{body_types, decl_bodies, body_plan};
ghost use Rattle.jn_agree.specs.Rows.{of_decl, bodies_of};
ghost use Rattle.jn_expr.specs.Envs.{ArePartsOf, parts};
ghost use Rattle.jn_check.specs.Walk.{KnownOr, gathered, plan_of_member, plan_of_decl};
ghost use Rattle.jn_check.specs.Walk.{bodies_of_member, bodies_of_decl};

use crate::body::check_body;
use jn_base::names::Resolved;
use jn_base::tree::{Decl, Member, Method, Program};
use jn_expr::Env;
use jn_heads::CheckFault;
use jn_names::Bound;
use std::alloc::Global;

/// The body of a method in the declaration of a class.
fn check_method(
    alloc: Global,
    p: &Program,
    class: &Bound,
    env: &mut Env,
    m: &Method,
    out: &mut Vec<Resolved>,
) -> Result<(), CheckFault>
    requires { ArePartsOf p.now (parts env.old) }
    ensures told { KnownOr p.now (body_types (record { class = class.now; method = m.now }))
        (record { class = class.now; method = m.now } ∷ []) out.old.items out.new.items result }
    ensures parts { ArePartsOf p.now (parts env.new) }
{
    env.class = class.shown(alloc)?;
    env.method = m.name.name;
    match check_body(alloc, p, env, m) {
        Err(fault) => Err(fault),
        Ok(body) => {
            out.push(body)?;
            Ok(())
        }
    }
}

/// The bodies of a member of the declaration at a path.
#[cycle(walk)]
fn check_member(
    alloc: Global,
    p: &Program,
    class: &Bound,
    env: &mut Env,
    m: &Member,
    out: &mut Vec<Resolved>,
) -> Result<(), CheckFault>
    requires { ArePartsOf p.now (parts env.old) }
    ensures told { KnownOr p.now (plan_of_member class.now m.now) (bodies_of_member class.now m.now) out.old.items
        out.new.items result }
    ensures parts { ArePartsOf p.now (parts env.new) }
{
    match m {
        Member::Inner(d) => check_decl(alloc, p, class, env, d, out),
        Member::Slot(_) => Ok(()),
        Member::Body(m) => check_method(alloc, p, class, env, m, out),
    }
}

/// The bodies of the members of the declaration at a path, in their order.
#[cycle(walk)]
fn check_members(
    alloc: Global,
    p: &Program,
    class: &Bound,
    env: &mut Env,
    members: &[Member],
    out: &mut Vec<Resolved>,
) -> Result<(), CheckFault>
    requires { ArePartsOf p.now (parts env.old) }
    ensures told { KnownOr p.now (in_turn (map (plan_of_member class.now) members.now))
        (gathered (bodies_of_member class.now) members.now) out.old.items out.new.items result }
    ensures parts { ArePartsOf p.now (parts env.new) }
{
    for m in members {
        match check_member(alloc, p, class, env, m, out) {
            Ok(()) => {}
            Err(fault) => return Err(fault),
        }
    }
    Ok(())
}

/// The bodies of a declaration in a namespace.
#[cycle(walk)]
fn check_decl(
    alloc: Global,
    p: &Program,
    namespace: &Bound,
    env: &mut Env,
    d: &Decl,
    out: &mut Vec<Resolved>,
) -> Result<(), CheckFault>
    requires { ArePartsOf p.now (parts env.old) }
    ensures told { KnownOr p.now (decl_bodies d.now namespace.now) (of_decl d.now namespace.now) out.old.items
        out.new.items result }
    ensures parts { ArePartsOf p.now (parts env.new) }
{
    let mut class = namespace.without(alloc, 0)?;
    class.push(d.name.name)?;
    check_members(alloc, p, &class, env, d.members.as_slice(), out)
}

/// The bodies of declarations in a namespace, in their order.
fn check_decls(
    alloc: Global,
    p: &Program,
    namespace: &Bound,
    env: &mut Env,
    decls: &[Decl],
    out: &mut Vec<Resolved>,
) -> Result<(), CheckFault>
    requires { ArePartsOf p.now (parts env.old) }
    ensures told { KnownOr p.now (in_turn (map (plan_of_decl namespace.now) decls.now))
        (gathered (bodies_of_decl namespace.now) decls.now) out.old.items out.new.items result }
    ensures parts { ArePartsOf p.now (parts env.new) }
{
    for d in decls {
        match check_decl(alloc, p, namespace, env, d, out) {
            Ok(()) => {}
            Err(fault) => return Err(fault),
        }
    }
    Ok(())
}

/// Whether the bodies of a program pass, in source order; or the first refusal of the first that doesn't. What each
/// is known by is added.
pub fn check_bodies(
    alloc: Global,
    p: &Program,
    env: &mut Env,
    out: &mut Vec<Resolved>,
) -> Result<(), CheckFault>
    requires { ArePartsOf p.now (parts env.old) }
    ensures told { KnownOr p.now (body_plan p.now) (bodies_of p.now) out.old.items out.new.items result }
    ensures parts { ArePartsOf p.now (parts env.new) }
{
    let root = Bound::root(alloc);
    check_decls(alloc, p, &root, env, p.decls.as_slice(), out)
}
