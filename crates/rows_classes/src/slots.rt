//! Questions on slots, and on what sharing grants.

use crate::members::{Words, words_of};
use crate::names::put_fault;
use crate::reading::{Question, split};
use crate::setting::Setting;
use crate::shown::{Answer, name_of, put_path, put_refusal};
use crate::types::type_of;
use crate::typing::typing_of;
use crate::world::{World, path_at};
use jn_base::tree::{Name, Program};
use jn_base::types::Ty;
use jn_names::{Vars, field_types};
use jn_share::{Groups, ShareFault, Slots};
use jn_table::{ClassId, FieldTypes, Table};
use jn_views::{Held, holds};
use std::alloc::{AllocError, Global};

/// The groups and slots of a program.
#[derive(Drop)]
struct Shared {
    groups: Groups,
    slots: Slots,
}

/// The answer to a question on slots:
///
/// - `slots`: `Ok`, or the line of what is refused.
/// - `slot P f`: the slot number of a field, or `none`.
/// - `size P`: the size of the group of a path, 0 for a package.
/// - `hangs P f`: whether the path has the field, and its type hangs on `this`.
pub fn answer(
    alloc: Global,
    world: &mut World,
    asked: Question<'_>,
    out: &mut Answer,
) -> Result<bool, AllocError> {
    let words = words_of(alloc, world, asked.rest)?;
    match asked.call {
        "slots" => of_world(alloc, world, asked.call, words, out),
        "slot" => of_world(alloc, world, asked.call, words, out),
        "size" => of_world(alloc, world, asked.call, words, out),
        "hangs" => of_world(alloc, world, asked.call, words, out),
        _ => return Ok(false),
    }
    Ok(true)
}

fn of_world(alloc: Global, world: &mut World, call: &str, words: Words, out: &mut Answer) {
    match shared_of(alloc, &world.program, &mut world.table, out) {
        None => {}
        Some(shared) => of_slots(&shared.slots, call, words, out),
    }
}

fn of_slots(slots: &Slots, call: &str, words: Words, out: &mut Answer) {
    match call {
        "slot" => put_slot(slots.slot(words.first, words.name), out),
        "size" => out.put_number(slots.size(words.first) as usize),
        "hangs" => out.say(slots.hangs(words.first, words.name)),
        _ => out.put("Ok"),
    }
}

fn put_slot(slot: Option<u8>, out: &mut Answer) {
    match slot {
        None => out.put("none"),
        Some(slot) => out.put_number(slot as usize),
    }
}

/// The groups and slots of a program; where they are refused the line is put, and there are none.
fn shared_of(alloc: Global, p: &Program, table: &mut Table, out: &mut Answer) -> Option<Shared> {
    match field_types(alloc, p, table) {
        Err(fault) => {
            put_fault(alloc, out, p, &fault);
            None
        }
        Ok(types) => of_types(alloc, p, table, &types, out),
    }
}

fn of_types(
    alloc: Global,
    p: &Program,
    table: &Table,
    types: &FieldTypes,
    out: &mut Answer,
) -> Option<Shared> {
    match Groups::build(alloc, p, table) {
        Err(fault) => {
            put_share_fault(alloc, out, p, &fault);
            None
        }
        Ok(groups) => of_groups(alloc, p, table, types, groups, out),
    }
}

fn of_groups(
    alloc: Global,
    p: &Program,
    table: &Table,
    types: &FieldTypes,
    groups: Groups,
    out: &mut Answer,
) -> Option<Shared> {
    match Slots::build(alloc, table, &groups, types) {
        Err(fault) => {
            put_share_fault(alloc, out, p, &fault);
            None
        }
        Ok(slots) => Some(Shared { groups, slots }),
    }
}

fn put_share_fault(alloc: Global, out: &mut Answer, p: &Program, fault: &ShareFault) {
    match fault {
        ShareFault::Memory => out.fail(),
        ShareFault::Refused(r) => put_refusal(alloc, out, p, r),
    }
}

/// The answer to a question on two variables of a method:
///
/// - `holds v w`: whether the constraint from the type of v to the first atom and the masks of the type of w holds: `Yes`,
///   `NoCounterpart` with the class that has none, or `Unshared` with the counterpart and its field.
pub fn of_method(
    alloc: Global,
    setting: &Setting<'_>,
    table: &mut Table,
    asked: Question<'_>,
    out: &mut Answer,
) -> bool {
    if asked.call != "holds" {
        return false;
    }
    match typing_of(alloc, setting, table, setting.variables.as_slice()) {
        Err(_) => out.fail(),
        Ok(typing) => of_words(alloc, setting, table, &typing.vars, asked.rest, out),
    }
    true
}

fn of_words(
    alloc: Global,
    setting: &Setting<'_>,
    table: &mut Table,
    vars: &Vars,
    text: &str,
    out: &mut Answer,
) {
    let (first, second) = split(text);
    match type_of(alloc, setting, table, vars, first, out) {
        None => {}
        Some(from) => match type_of(alloc, setting, table, vars, second, out) {
            None => {}
            Some(to) => of_sides(alloc, setting, table, &from, &to, out),
        },
    }
}

fn of_sides(
    alloc: Global,
    setting: &Setting<'_>,
    table: &mut Table,
    from: &Ty,
    to: &Ty,
    out: &mut Answer,
) {
    match shared_of(alloc, setting.program, table, out) {
        None => {}
        Some(shared) => put_told(setting, table, &shared, from, to, out),
    }
}

fn put_told(
    setting: &Setting<'_>,
    table: &Table,
    shared: &Shared,
    from: &Ty,
    to: &Ty,
    out: &mut Answer,
) {
    match held_of(setting, table, shared, from, to) {
        None => out.put("there is no atom"),
        Some(Held::Yes) => out.put("Yes"),
        Some(Held::NoCounterpart(class)) => put_refuted(setting, table, class, None, out),
        Some(Held::Unshared(class, field)) => put_refuted(setting, table, class, Some(field), out),
    }
}

/// Whether the constraint to the first atom of the second type holds; nothing where it has none.
fn held_of(
    setting: &Setting<'_>,
    table: &Table,
    shared: &Shared,
    from: &Ty,
    to: &Ty,
) -> Option<Held> {
    match to {
        Ty::Class(atoms, m) => {
            let atom = atoms.as_slice().first()?;
            Some(holds(
                table,
                &shared.groups,
                &shared.slots,
                from,
                atom,
                *m,
                setting.masks,
            ))
        }
        _ => None,
    }
}

fn put_refuted(
    setting: &Setting<'_>,
    table: &Table,
    class: ClassId,
    field: Option<Name>,
    out: &mut Answer,
) {
    match field {
        None => {
            out.put("NoCounterpart ");
            put_class(setting, table, class, out);
        }
        Some(field) => {
            out.put("Unshared ");
            put_class(setting, table, class, out);
            out.put(" ");
            out.put(name_of(setting.program.names.as_slice(), field));
        }
    }
}

fn put_class(setting: &Setting<'_>, table: &Table, class: ClassId, out: &mut Answer) {
    match path_at(table, class) {
        None => out.put("none"),
        Some(path) => put_path(out, setting.program.names.as_slice(), path.names.as_slice()),
    }
}
