//! Questions on paths by their names.

use crate::reading::{Question, read_name, read_number, split};
use crate::shown::{Answer, put_path};
use crate::world::World;
use jn_base::compare::{has_name, is_name, same_names};
use jn_base::tree::{Name, Text};
use jn_names::Bound;
use std::alloc::{AllocError, Global};

/// The words of a question on paths: two paths, and the names that the words are. `rest` is all behind the first word.
#[derive(Drop)]
struct Paths<'a> {
    path: Bound,
    other: Bound,
    first: Name,
    second: Name,
    rest: &'a str,
}

fn paths_of<'a>(alloc: Global, names: &[Text], text: &'a str) -> Result<Paths<'a>, AllocError> {
    let (word, rest) = split(text);
    let first = read_name(names, word);
    let second = read_name(names, rest);
    let path = bound_of(alloc, names, word)?;
    let other = bound_of(alloc, names, rest)?;
    Ok(Paths {
        path,
        other,
        first,
        second,
        rest,
    })
}

/// The answer to a question on paths, known or not:
///
/// - `is_known P`, `is_class P`, `has_number P`, `has_field P f`: `yes` or `no`.
/// - `is_below P Q R ..`: `yes` or `no` for each of Q, R ..
/// - `supers P`: the supers, in their order.
/// - `depth P`, `without P k`: how many names it has, and the path without so many last ones.
/// - `is P Q`, `same_names P Q`, `has_name P n`, `is_name m n`: `yes` or `no`.
pub fn answer(
    alloc: Global,
    world: &World,
    asked: Question<'_>,
    out: &mut Answer,
) -> Result<bool, AllocError> {
    let paths = paths_of(alloc, world.program.names.as_slice(), asked.rest)?;
    let told = of_table(alloc, world, asked.call, &paths, out);
    Ok(told || of_names(alloc, world, asked.call, &paths, out))
}

fn of_table(alloc: Global, world: &World, call: &str, paths: &Paths<'_>, out: &mut Answer) -> bool {
    let table = &world.table;
    let path = &paths.path;
    match call {
        "is_known" => out.say(path.is_known(table)),
        "is_class" => out.say(path.is_class(table)),
        "has_number" => out.say(path.number(table).is_some()),
        "has_field" => out.say(path.has_field(table, paths.second)),
        "is_below" => put_all_below(alloc, world, paths, out),
        "supers" => put_supers(alloc, world, path, out),
        _ => return false,
    }
    true
}

/// What is asked of names alone.
fn of_names(alloc: Global, world: &World, call: &str, paths: &Paths<'_>, out: &mut Answer) -> bool {
    let path = &paths.path;
    match call {
        "depth" => out.put_number(path.depth()),
        "without" => put_without(alloc, world, path, read_number(paths.rest), out),
        "is" => out.say(path.is(&paths.other)),
        "same_names" => out.say(same_names(path.names(), paths.other.names())),
        "has_name" => out.say(has_name(path.names(), paths.second)),
        "is_name" => out.say(is_name(paths.first, paths.second)),
        _ => return false,
    }
    true
}

/// Whether each path but the first is a super of that.
fn put_all_below(alloc: Global, world: &World, paths: &Paths<'_>, out: &mut Answer) {
    for word in paths.rest.split_whitespace() {
        put_below(alloc, world, &paths.path, word, out);
    }
}

fn put_below(alloc: Global, world: &World, path: &Bound, word: &str, out: &mut Answer) {
    if !out.is_empty() {
        out.put(" ");
    }
    match bound_of(alloc, world.program.names.as_slice(), word) {
        Err(_) => out.fail(),
        Ok(other) => out.say(path.is_below(&world.table, &other)),
    }
}

fn put_supers(alloc: Global, world: &World, path: &Bound, out: &mut Answer) {
    match path.supers(alloc, &world.table) {
        Err(_) => out.fail(),
        Ok(supers) => put_paths(world, &supers, out),
    }
}

fn put_paths(world: &World, paths: &[Bound], out: &mut Answer) {
    for path in paths {
        if !out.is_empty() {
            out.put(" ");
        }
        put_path(out, world.program.names.as_slice(), path.names());
    }
}

fn put_without(alloc: Global, world: &World, path: &Bound, k: usize, out: &mut Answer) {
    match path.without(alloc, k) {
        Err(_) => out.fail(),
        Ok(left) => put_shown(alloc, world, &left, out),
    }
}

fn put_shown(alloc: Global, world: &World, path: &Bound, out: &mut Answer) {
    match path.shown(alloc) {
        Err(_) => out.fail(),
        Ok(shown) => put_path(out, world.program.names.as_slice(), shown.names.as_slice()),
    }
}

/// A path, its names put on one after the other.
fn bound_of(alloc: Global, names: &[Text], text: &str) -> Result<Bound, AllocError> {
    let mut bound = Bound::root(alloc);
    for name in text.split('.') {
        if !name.is_empty() {
            bound.push(read_name(names, name))?;
        }
    }
    Ok(bound)
}
