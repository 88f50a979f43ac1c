//! Questions on the class table.

use crate::reading::{Question, read_path, split};
use crate::shown::{Answer, name_of, put_names, put_path};
use crate::world::{World, path_at};
use jn_base::path::Path;
use jn_base::tree::{Kind, Name};
use jn_table::{ClassId, Row, RowMember, Table, TableFault};
use std::alloc::{AllocError, Global};

/// The answer to a question on the class table:
///
/// - `ask_all`: `Ok`, or the fault with its path.
/// - `known`: the filled paths in their order, and `count` how many there are.
/// - `find P`: the number of a path.
/// - `row P`: what the row of a path has.
/// - `sup P Q`, `before P Q`: `yes` or `no`.
/// - `own_methods P`, `own_fields P`: the names that the declarations at a path have themselves.
pub fn answer(
    alloc: Global,
    world: &World,
    asked: Question<'_>,
    out: &mut Answer,
) -> Result<bool, AllocError> {
    let names = world.program.names.as_slice();
    let (first, second) = split(asked.rest);
    let a = read_path(alloc, names, first)?;
    let b = read_path(alloc, names, second)?;
    Ok(of_paths(world, asked.call, &a, &b, out))
}

fn of_paths(world: &World, call: &str, a: &Path, b: &Path, out: &mut Answer) -> bool {
    match call {
        "ask_all" => put_filling(world, out),
        "known" => put_known(world, out),
        "count" => out.put_number(world.table.known().len()),
        "find" => put_found(world, a, out),
        "row" => put_row_of(world, a, out),
        "sup" => put_whether(is_sup(&world.table, a, b), out),
        "before" => put_whether(is_before(&world.table, a, b), out),
        "own_methods" => put_own_methods(world, a, out),
        "own_fields" => put_own_fields(world, a, out),
        _ => return false,
    }
    true
}

fn put_filling(world: &World, out: &mut Answer) {
    match &world.refused {
        None => out.put("Ok"),
        Some(TableFault::Memory) => out.put("Memory"),
        Some(TableFault::NoClass(_)) => out.put("NoClass"),
        Some(TableFault::TooMany(path)) => put_refused(world, "TooMany ", path, out),
        Some(TableFault::Cycle(path)) => put_refused(world, "Cycle ", path, out),
        Some(TableFault::Kind(path)) => put_refused(world, "Kind ", path, out),
    }
}

fn put_refused(world: &World, word: &str, path: &Path, out: &mut Answer) {
    out.put(word);
    put_path(out, world.program.names.as_slice(), path.names.as_slice());
}

fn put_known(world: &World, out: &mut Answer) {
    let names = world.program.names.as_slice();
    for path in world.table.known() {
        if !out.is_empty() {
            out.put(" ");
        }
        put_path(out, names, path.names.as_slice());
    }
}

fn put_found(world: &World, path: &Path, out: &mut Answer) {
    match world.table.find(path) {
        None => out.put("none"),
        Some(id) => out.put_number(id.0 as usize),
    }
}

/// Puts `yes` or `no`, or `none` where one of the paths has no number.
fn put_whether(so: Option<bool>, out: &mut Answer) {
    match so {
        None => out.put("none"),
        Some(so) => out.say(so),
    }
}

fn is_sup(table: &Table, a: &Path, b: &Path) -> Option<bool> {
    let a = table.find(a)?;
    let b = table.find(b)?;
    Some(table.sup(a, b))
}

fn is_before(table: &Table, a: &Path, b: &Path) -> Option<bool> {
    let a = table.find(a)?;
    let b = table.find(b)?;
    Some(table.before(a, b))
}

fn put_own_methods(world: &World, path: &Path, out: &mut Answer) {
    match world.table.find(path) {
        None => out.put("none"),
        Some(id) => put_own(world, world.table.own_methods(id), out),
    }
}

fn put_own_fields(world: &World, path: &Path, out: &mut Answer) {
    match world.table.find(path) {
        None => out.put("none"),
        Some(id) => put_own(world, world.table.own_fields(id), out),
    }
}

fn put_own(world: &World, own: Result<Vec<Name>, AllocError>, out: &mut Answer) {
    match own {
        Err(_) => out.fail(),
        Ok(list) => put_names(out, world.program.names.as_slice(), &list),
    }
}

fn put_row_of(world: &World, path: &Path, out: &mut Answer) {
    match world.table.find(path) {
        None => out.put("none"),
        Some(id) => put_row(world, world.table.row(id), out),
    }
}

/// Puts a row: its kind, its namespace, its direct supers, its supers, its members, and the names of its methods and
/// fields.
fn put_row(world: &World, row: &Row, out: &mut Answer) {
    let names = world.program.names.as_slice();
    out.put(kind_word(row.kind));
    put_path(out, names, row.path.names.as_slice());
    out.put(" in ");
    put_up(world, row.up, out);
    out.put(", direct ");
    put_ids(world, &row.direct, out);
    out.put(", sups ");
    put_ids(world, &row.sups, out);
    out.put(", members ");
    put_members(world, &row.members, out);
    out.put(", ");
    put_names(out, names, &row.methods);
    out.put(" ");
    put_names(out, names, &row.fields);
}

fn kind_word(kind: Kind) -> &'static str {
    match kind {
        Kind::Class => "class ",
        Kind::Package => "package ",
    }
}

fn put_up(world: &World, up: Option<ClassId>, out: &mut Answer) {
    match up {
        None => out.put("nothing"),
        Some(id) => put_id(world, id, out),
    }
}

/// Puts the path of a number.
pub fn put_id(world: &World, id: ClassId, out: &mut Answer) {
    match path_at(&world.table, id) {
        None => out.put("none"),
        Some(path) => put_path(out, world.program.names.as_slice(), path.names.as_slice()),
    }
}

fn put_ids(world: &World, ids: &[ClassId], out: &mut Answer) {
    out.put("[");
    let mut follows = false;
    for id in ids {
        if follows {
            out.put(" ");
        }
        put_id(world, *id, out);
        follows = true;
    }
    out.put("]");
}

fn put_members(world: &World, members: &[RowMember], out: &mut Answer) {
    let names = world.program.names.as_slice();
    out.put("[");
    let mut follows = false;
    for member in members {
        if follows {
            out.put(" ");
        }
        out.put(name_of(names, member.name));
        out.put("=");
        put_id(world, member.id, out);
        follows = true;
    }
    out.put("]");
}
