ghost use Rattle.std.specs.Prelude.{◌≡◌, map};
ghost use Rattle.jn_intern.specs.Pools.{Keeps};
ghost use Rattle.jn_rules.specs.Plans.{in_turn};
ghost use Rattle.jn_rules.specs.Questions.{Gives};
ghost use Rattle.jn_rules.specs.Headers.{constraint_asked, method_asked, field_asked, decl_headers, header_plan};
ghost use Rattle.jn_heads.specs.Told.{Told, itself};
ghost use Rattle.jn_heads.specs.Places.{IsReady};
ghost use Rattle.jn_header.specs.Asked.{header_at, headers_in_space};

use crate::listed::judge_listed;
use jn_base::names::{Role, Vars};
use jn_base::tree::{Constraint, Decl, Field, Member, Method, Name, Program};
use jn_heads::{CheckFault, header_of, of_names, pledge_of, spot};
use jn_intern::Pool;
use jn_names::{Bound, resolve_type};
use jn_table::Table;
use sqlite_items::Items;
use std::alloc::Global;

/// A constraint of a method in the declaration of a class.
fn judge_constraint(
    alloc: Global,
    p: &Program,
    t: &mut Table,
    masks: &[Name],
    class: &Bound,
    m: &Method,
    constraint: &Constraint,
) -> Result<(), CheckFault>
    requires { IsReady p.now t.old masks.now }
    ensures told { Told (Gives p.now (constraint_asked class.now m.now constraint.now)) itself result }
    ensures kept { t.new ≡ t.old }
{
    match pledge_of(alloc, p, t, masks, class, m.name.name, constraint) {
        Ok(_) => Ok(()),
        Err(fault) => Err(fault),
    }
}

/// The constraints of a method in the declaration of a class, in their order.
fn judge_constraints(
    alloc: Global,
    p: &Program,
    t: &mut Table,
    masks: &[Name],
    class: &Bound,
    m: &Method,
    constraints: &[Constraint],
) -> Result<(), CheckFault>
    requires { IsReady p.now t.old masks.now }
    ensures told { Told (Gives p.now (in_turn (map (constraint_asked class.now m.now) constraints.now))) itself result }
    ensures kept { t.new ≡ t.old }
{
    for constraint in constraints {
        match judge_constraint(alloc, p, t, masks, class, m, constraint) {
            Ok(()) => {}
            Err(fault) => return Err(fault),
        }
    }
    Ok(())
}

/// A method in the declaration of a class: its parameters, its result, and its constraints.
fn judge_method(
    alloc: Global,
    p: &Program,
    t: &mut Table,
    masks: &[Name],
    pool: &mut Pool,
    class: &Bound,
    m: &Method,
) -> Result<(), CheckFault>
    requires { IsReady p.now t.old masks.now }
    ensures told { Told (Gives p.now (method_asked class.now m.now)) itself result }
    ensures keeps { Keeps pool.old pool.new }
    ensures kept { t.new ≡ t.old }
{
    match header_of(alloc, p, t, masks, pool, class, m) {
        Err(fault) => Err(fault),
        Ok(_) => judge_constraints(alloc, p, t, masks, class, m, m.sharing.as_slice()),
    }
}

/// A field in the declaration of a class.
fn judge_field(
    alloc: Global,
    p: &Program,
    t: &mut Table,
    masks: &[Name],
    class: &Bound,
    f: &Field,
) -> Result<(), CheckFault>
    requires { IsReady p.now t.old masks.now }
    ensures told { Told (Gives p.now (field_asked class.now f.now)) itself result }
    ensures kept { t.new ≡ t.old }
{
    let spot = spot(alloc, class, f.name.name, Role::Field)?;
    let vars = Vars {
        list: Items::new(alloc),
    };
    match resolve_type(alloc, p, t, &spot, &vars, masks, &f.ty) {
        Ok(_) => Ok(()),
        Err(fault) => Err(of_names(fault)),
    }
}

/// The headers of a member of the declaration at a path.
#[cycle(headers)]
fn judge_member(
    alloc: Global,
    p: &Program,
    t: &mut Table,
    masks: &[Name],
    pool: &mut Pool,
    class: &Bound,
    m: &Member,
) -> Result<(), CheckFault>
    requires { IsReady p.now t.old masks.now }
    ensures told { Told (Gives p.now (header_at class.now m.now)) itself result }
    ensures keeps { Keeps pool.old pool.new }
    ensures kept { t.new ≡ t.old }
{
    match m {
        Member::Inner(d) => judge_decl(alloc, p, t, masks, pool, class, d),
        Member::Slot(f) => judge_field(alloc, p, t, masks, class, f),
        Member::Body(m) => judge_method(alloc, p, t, masks, pool, class, m),
    }
}

/// The headers of the members of the declaration at a path, in their order.
#[cycle(headers)]
fn judge_members(
    alloc: Global,
    p: &Program,
    t: &mut Table,
    masks: &[Name],
    pool: &mut Pool,
    class: &Bound,
    members: &[Member],
) -> Result<(), CheckFault>
    requires { IsReady p.now t.old masks.now }
    ensures told { Told (Gives p.now (in_turn (map (header_at class.now) members.now))) itself result }
    ensures keeps { Keeps pool.old pool.new }
    ensures kept { t.new ≡ t.old }
{
    for m in members {
        match judge_member(alloc, p, t, masks, pool, class, m) {
            Ok(()) => {}
            Err(fault) => return Err(fault),
        }
    }
    Ok(())
}

/// The headers of a declaration in a namespace: the names in its list, and then its members.
#[cycle(headers)]
fn judge_decl(
    alloc: Global,
    p: &Program,
    t: &mut Table,
    masks: &[Name],
    pool: &mut Pool,
    namespace: &Bound,
    d: &Decl,
) -> Result<(), CheckFault>
    requires { IsReady p.now t.old masks.now }
    ensures told { Told (Gives p.now (decl_headers d.now namespace.now)) itself result }
    ensures keeps { Keeps pool.old pool.new }
    ensures kept { t.new ≡ t.old }
{
    match judge_listed(alloc, t, namespace, d) {
        Err(fault) => Err(fault),
        Ok(()) => {
            let mut class = namespace.without(alloc, 0)?;
            class.push(d.name.name)?;
            judge_members(alloc, p, t, masks, pool, &class, d.members.as_slice())
        }
    }
}

/// The headers of declarations in a namespace, in their order.
fn judge_decls(
    alloc: Global,
    p: &Program,
    t: &mut Table,
    masks: &[Name],
    pool: &mut Pool,
    namespace: &Bound,
    decls: &[Decl],
) -> Result<(), CheckFault>
    requires { IsReady p.now t.old masks.now }
    ensures told { Told (Gives p.now (in_turn (map (headers_in_space namespace.now) decls.now))) itself result }
    ensures keeps { Keeps pool.old pool.new }
    ensures kept { t.new ≡ t.old }
{
    for d in decls {
        match judge_decl(alloc, p, t, masks, pool, namespace, d) {
            Ok(()) => {}
            Err(fault) => return Err(fault),
        }
    }
    Ok(())
}

/// Whether the headers of a program pass, in source order: the names in the lists `shares` and `adapts`, the types
/// of fields, and of each method its parameters, its result and its constraints. The first that doesn't is
/// answered.
///
/// The universe is filled in the table. Types are added to the pool, whose older numbers keep their meaning.
pub fn check_types(
    alloc: Global,
    p: &Program,
    t: &mut Table,
    masks: &[Name],
    pool: &mut Pool,
) -> Result<(), CheckFault>
    requires { IsReady p.now t.old masks.now }
    // What the plan of the headers gives is answered.
    ensures told { Told (Gives p.now (header_plan p.now)) itself result }
    // Types are added to the pool, and the table is as before.
    ensures keeps { Keeps pool.old pool.new }
    ensures kept { t.new ≡ t.old }
{
    let root = Bound::root(alloc);
    judge_decls(alloc, p, t, masks, pool, &root, p.decls.as_slice())
}
