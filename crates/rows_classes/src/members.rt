//! Questions on members and on groups of shared classes.

use crate::reading::{Question, read_name, read_path, split};
use crate::shown::{Answer, put_refusal};
use crate::tables::put_id;
use crate::world::World;
use jn_base::tree::Name;
use jn_names::{Least, Members};
use jn_share::{Groups, ShareFault};
use jn_table::ClassId;
use std::alloc::{AllocError, Global};

/// What the two words of a question stand for: the numbers of two paths, or one that no path has, and the name that the
/// second word is.
#[derive(Clone, Copy)]
pub struct Words {
    pub first: ClassId,
    pub second: ClassId,
    pub name: Name,
}

/// What the two words of a text stand for.
pub fn words_of(alloc: Global, world: &World, text: &str) -> Result<Words, AllocError> {
    let (first, second) = split(text);
    let name = read_name(world.program.names.as_slice(), second);
    let first = number_of(alloc, world, first)?;
    let second = number_of(alloc, world, second)?;
    Ok(Words {
        first,
        second,
        name,
    })
}

/// The number of the path that a text is, or one that no path has.
fn number_of(alloc: Global, world: &World, text: &str) -> Result<ClassId, AllocError> {
    let path = read_path(alloc, world.program.names.as_slice(), text)?;
    match world.table.find(&path) {
        None => Ok(ClassId(u16::MAX)),
        Some(id) => Ok(id),
    }
}

/// The answer to a question on members or groups:
///
/// - `least P m`, `field P f`: `none`, `one P` or `many P Q`, by the paths of the declarations.
/// - `groups`: `Ok`, or the line of the name that is refused.
/// - `related P Q`: `yes` or `no`.
/// - `counterpart P Q`: the counterpart of P in the family Q, or `none`.
pub fn answer(
    alloc: Global,
    world: &World,
    asked: Question<'_>,
    out: &mut Answer,
) -> Result<bool, AllocError> {
    let words = words_of(alloc, world, asked.rest)?;
    match asked.call {
        "least" => put_member(alloc, world, asked.call, words, out),
        "field" => put_member(alloc, world, asked.call, words, out),
        "groups" => put_groups(alloc, world, asked.call, words, out),
        "related" => put_groups(alloc, world, asked.call, words, out),
        "counterpart" => put_groups(alloc, world, asked.call, words, out),
        _ => return Ok(false),
    }
    Ok(true)
}

fn put_member(alloc: Global, world: &World, call: &str, words: Words, out: &mut Answer) {
    match Members::build(alloc, &world.program, &world.table) {
        Err(_) => out.fail(),
        Ok(members) => put_least(world, least_of(&members, call, words), out),
    }
}

fn least_of(members: &Members, call: &str, words: Words) -> Least {
    if call == "least" {
        return members.least(words.first, words.name);
    }
    members.field(words.first, words.name)
}

fn put_least(world: &World, least: Least, out: &mut Answer) {
    match least {
        Least::None => out.put("none"),
        Least::One(id) => {
            out.put("one ");
            put_id(world, id, out);
        }
        Least::Many(a, b) => {
            out.put("many ");
            put_id(world, a, out);
            out.put(" ");
            put_id(world, b, out);
        }
    }
}

fn put_groups(alloc: Global, world: &World, call: &str, words: Words, out: &mut Answer) {
    match Groups::build(alloc, &world.program, &world.table) {
        Err(ShareFault::Memory) => out.fail(),
        Err(ShareFault::Refused(r)) => put_refusal(alloc, out, &world.program, &r),
        Ok(groups) => of_groups(world, &groups, call, words, out),
    }
}

fn of_groups(world: &World, groups: &Groups, call: &str, words: Words, out: &mut Answer) {
    match call {
        "related" => out.say(groups.related(words.first, words.second)),
        "counterpart" => put_partner(world, groups.counterpart(words.first, words.second), out),
        _ => out.put("Ok"),
    }
}

fn put_partner(world: &World, partner: Option<ClassId>, out: &mut Answer) {
    match partner {
        None => out.put("none"),
        Some(id) => put_id(world, id, out),
    }
}
