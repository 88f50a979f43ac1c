//! Questions on what names stand for.

ghost use Rattle.std.specs.Prelude.{◌<◌, vec_len};

use crate::reading::{Question, read_name, split};
use crate::setting::{Setting, newest, spot_of};
use crate::shown::{Answer, name_of, put_atom, put_names, put_refusal, put_type};
use crate::tables::put_id;
use crate::typing::typing_of;
use crate::world::World;
use jn_base::tree::{Program, Term, TypeTerm, ViewTerm};
use jn_names::{NameFault, Role, Spot, Vars, field_types, resolve, resolve_type, resolve_view};
use jn_table::{FieldTy, FieldTypes, Table};
use sqlite_items::Items;
use std::alloc::Global;

/// The answer to a question on names that needs no method:
///
/// - `mask_names`: the mask names in the order of their numbers.
/// - `field_types`: each declared field with its type, or the line of what is refused.
pub fn answer(alloc: Global, world: &mut World, asked: Question<'_>, out: &mut Answer) -> bool {
    match asked.call {
        "mask_names" => put_names(out, world.program.names.as_slice(), &world.masks),
        "field_types" => put_types(alloc, world, out),
        _ => return false,
    }
    true
}

fn put_types(alloc: Global, world: &mut World, out: &mut Answer) {
    match field_types(alloc, &world.program, &mut world.table) {
        Err(fault) => put_fault(alloc, out, &world.program, &fault),
        Ok(types) => put_fields(world, &types, out),
    }
}

fn put_fields(world: &World, types: &FieldTypes, out: &mut Answer) {
    for one in &types.list {
        if !out.is_empty() {
            out.put(", ");
        }
        put_field(world, one, out);
    }
}

fn put_field(world: &World, one: &FieldTy, out: &mut Answer) {
    let names = world.program.names.as_slice();
    put_id(world, one.class, out);
    out.put(".");
    out.put(name_of(names, one.field));
    out.put(": ");
    put_type(out, names, &world.masks, &one.ty);
}

/// Puts the line of what is refused of names.
pub fn put_fault(alloc: Global, out: &mut Answer, p: &Program, fault: &NameFault) {
    match fault {
        NameFault::Memory => out.fail(),
        NameFault::Refused(r) => put_refusal(alloc, out, p, r),
    }
}

/// The answer to a question on the types of a method, with the variables before that of the type in scope:
///
/// - `resolve ROLE v`: the atom of the first term of the type of v, or the line of what is refused.
/// - `resolve_type ROLE v`: the type of v, in the order of the source.
/// - `resolve_view ROLE from`, `resolve_view ROLE to`: a side of the method's first constraint, without variables.
///
/// A role is `field`, `value`, `from`, `to`, `view`, `new` or `super`.
pub fn of_method(
    alloc: Global,
    setting: &Setting<'_>,
    table: &mut Table,
    asked: Question<'_>,
    out: &mut Answer,
) -> bool {
    let (role, rest) = split(asked.rest);
    let role = match role_of(role) {
        None => return false,
        Some(role) => role,
    };
    match asked.call {
        "resolve" => of_variable(alloc, setting, table, role, rest, true, out),
        "resolve_type" => of_variable(alloc, setting, table, role, rest, false, out),
        "resolve_view" => of_constraint(alloc, setting, table, role, rest, out),
        _ => return false,
    }
    true
}

fn role_of(word: &str) -> Option<Role> {
    match word {
        "field" => Some(Role::Field),
        "value" => Some(Role::Value),
        "from" => Some(Role::From),
        "to" => Some(Role::To),
        "view" => Some(Role::View),
        "new" => Some(Role::New),
        "super" => Some(Role::Super),
        _ => None,
    }
}

fn of_variable(
    alloc: Global,
    setting: &Setting<'_>,
    table: &mut Table,
    role: Role,
    word: &str,
    term_alone: bool,
    out: &mut Answer,
) {
    let name = read_name(setting.program.names.as_slice(), word);
    match newest(setting.variables.as_slice(), name) {
        None => out.put("there is no such variable"),
        Some(at) => of_place(alloc, setting, table, role, at, term_alone, out),
    }
}

fn of_place(
    alloc: Global,
    setting: &Setting<'_>,
    table: &mut Table,
    role: Role,
    at: usize,
    term_alone: bool,
    out: &mut Answer,
)
    requires { at < vec_len setting.now.variables }
{
    let variables = setting.variables.as_slice();
    match typing_of(alloc, setting, table, &variables[..at]) {
        Err(_) => out.fail(),
        Ok(typing) => of_written(
            alloc,
            setting,
            table,
            role,
            &typing.vars,
            variables[at].ty,
            term_alone,
            out,
        ),
    }
}

fn of_written(
    alloc: Global,
    setting: &Setting<'_>,
    table: &mut Table,
    role: Role,
    vars: &Vars,
    ty: &TypeTerm,
    term_alone: bool,
    out: &mut Answer,
) {
    match spot_of(alloc, setting, role) {
        Err(_) => out.fail(),
        Ok(spot) => match first_term(ty) {
            Some(term) if term_alone => of_term(alloc, setting, table, &spot, vars, term, out),
            _ => of_type(alloc, setting, table, &spot, vars, ty, out),
        },
    }
}

fn of_term(
    alloc: Global,
    setting: &Setting<'_>,
    table: &mut Table,
    spot: &Spot,
    vars: &Vars,
    term: &Term,
    out: &mut Answer,
) {
    match resolve(alloc, setting.program, table, spot, vars, term) {
        Err(fault) => put_fault(alloc, out, setting.program, &fault),
        Ok(atom) => put_atom(out, setting.program.names.as_slice(), &atom),
    }
}

fn first_term(ty: &TypeTerm) -> Option<&Term> {
    match ty {
        TypeTerm::Class(terms, _) => terms.as_slice().first(),
        TypeTerm::Int => None,
        TypeTerm::Bool => None,
    }
}

fn of_type(
    alloc: Global,
    setting: &Setting<'_>,
    table: &mut Table,
    spot: &Spot,
    vars: &Vars,
    ty: &TypeTerm,
    out: &mut Answer,
) {
    let p = setting.program;
    match resolve_type(alloc, p, table, spot, vars, setting.masks, ty) {
        Err(fault) => put_fault(alloc, out, p, &fault),
        Ok(ty) => put_type(out, p.names.as_slice(), setting.masks, &ty),
    }
}

fn of_constraint(
    alloc: Global,
    setting: &Setting<'_>,
    table: &mut Table,
    role: Role,
    side: &str,
    out: &mut Answer,
) {
    match setting.method.sharing.as_slice().first() {
        None => out.put("there is no constraint"),
        Some(constraint) => {
            let view = match side {
                "from" => &constraint.from,
                _ => &constraint.to,
            };
            of_side(alloc, setting, table, role, view, out)
        }
    }
}

fn of_side(
    alloc: Global,
    setting: &Setting<'_>,
    table: &mut Table,
    role: Role,
    view: &ViewTerm,
    out: &mut Answer,
) {
    match spot_of(alloc, setting, role) {
        Err(_) => out.fail(),
        Ok(spot) => of_view(alloc, setting, table, &spot, view, out),
    }
}

fn of_view(
    alloc: Global,
    setting: &Setting<'_>,
    table: &mut Table,
    spot: &Spot,
    view: &ViewTerm,
    out: &mut Answer,
) {
    let list = Items::new(alloc);
    let vars = Vars { list };
    let p = setting.program;
    match resolve_view(alloc, p, table, spot, &vars, setting.masks, view) {
        Err(fault) => put_fault(alloc, out, p, &fault),
        Ok(ty) => put_type(out, p.names.as_slice(), setting.masks, &ty),
    }
}
