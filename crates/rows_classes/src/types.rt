//! Questions on types in the scope of a method.

ghost use Rattle.jn_intern.specs.Pools.{InPool};

use crate::fits::{moved_fits, scope_fits, type_fits};
use crate::reading::{Question, read_name, split};
use crate::setting::{Setting, newest};
use crate::shown::{Answer, put_refusal, put_type};
use crate::typing::{Typed, Typing, path_of as path_of_name, read_type, typing_of};
use jn_base::tree::{Ref, Text};
use jn_base::types::Ty;
use jn_intern::{Pool, Scope, TyId, copied_type};
use jn_names::Vars;
use jn_normal::{normal, subst};
use jn_subtype::Judge;
use jn_table::Table;
use std::alloc::{AllocError, Global};

/// What is answered where the scope or a type does not fit.
const UNFIT: &str = "it does not fit";

/// The answer to a question on types of the method's variables, all of which are in scope:
///
/// - `normal v`: the normal form of the type of v.
/// - `subst v this->p q->r ..`: its normal form with paths put for paths, all at once.
/// - `sub v w`: whether the type of v is below that of w.
/// - `same v w`: whether they are equal as they are.
/// - `intern v w ..`: the numbers that the types get in a new pool with what it shows for each, and how many it has.
///
/// The words `null` and `void` stand for the types that no variable has. A type that does not fit the scope is
/// answered so.
pub fn answer(
    alloc: Global,
    setting: &Setting<'_>,
    table: &mut Table,
    asked: Question<'_>,
    out: &mut Answer,
) -> bool {
    match typing_of(alloc, setting, table, setting.variables.as_slice()) {
        Err(_) => {
            out.fail();
            true
        }
        Ok(mut typing) => in_scope(alloc, setting, table, &mut typing, asked, out),
    }
}

fn in_scope(
    alloc: Global,
    setting: &Setting<'_>,
    table: &mut Table,
    typing: &mut Typing,
    asked: Question<'_>,
    out: &mut Answer,
) -> bool {
    match asked.call {
        "normal" => of_one(alloc, setting, table, typing, asked, out),
        "subst" => of_one(alloc, setting, table, typing, asked, out),
        "sub" => of_two(alloc, setting, table, typing, asked, out),
        "same" => of_two(alloc, setting, table, typing, asked, out),
        "intern" => intern_all(alloc, setting, table, &typing.vars, asked.rest, out),
        _ => return false,
    }
    true
}

/// The type of a word; where there is none, it is put why.
pub fn type_of(
    alloc: Global,
    setting: &Setting<'_>,
    table: &mut Table,
    vars: &Vars,
    word: &str,
    out: &mut Answer,
) -> Option<Ty> {
    match word {
        "null" => Some(Ty::Null),
        "void" => Some(Ty::Void),
        _ => type_of_variable(alloc, setting, table, vars, word, out),
    }
}

fn type_of_variable(
    alloc: Global,
    setting: &Setting<'_>,
    table: &mut Table,
    vars: &Vars,
    word: &str,
    out: &mut Answer,
) -> Option<Ty> {
    let name = read_name(setting.program.names.as_slice(), word);
    let variables = setting.variables.as_slice();
    match newest(variables, name) {
        None => {
            out.put("there is no such variable");
            None
        }
        Some(at) => match read_type(alloc, setting, table, vars, variables[at].ty) {
            Ok(Typed::Type(ty)) => Some(ty),
            Ok(Typed::Refused(r)) => {
                put_refusal(alloc, out, setting.program, &r);
                None
            }
            Err(_) => {
                out.fail();
                None
            }
        },
    }
}

fn of_one(
    alloc: Global,
    setting: &Setting<'_>,
    table: &mut Table,
    typing: &mut Typing,
    asked: Question<'_>,
    out: &mut Answer,
) {
    let (word, rest) = split(asked.rest);
    match type_of(alloc, setting, table, &typing.vars, word, out) {
        None => {}
        Some(ty) => put_formed(
            setting,
            formed(alloc, setting, typing, &ty, asked.call, rest),
            out,
        ),
    }
}

fn formed(
    alloc: Global,
    setting: &Setting<'_>,
    typing: &mut Typing,
    ty: &Ty,
    call: &str,
    rest: &str,
) -> Result<Option<Ty>, AllocError> {
    if call == "normal" {
        return normal_of(alloc, &mut typing.pool, &typing.scope, ty);
    }
    let swaps = swaps_of(alloc, setting.program.names.as_slice(), &typing.vars, rest)?;
    subst_of(alloc, &mut typing.pool, &typing.scope, ty, &swaps)
}

fn put_formed(setting: &Setting<'_>, formed: Result<Option<Ty>, AllocError>, out: &mut Answer) {
    match formed {
        Err(_) => out.fail(),
        Ok(None) => out.put(UNFIT),
        Ok(Some(ty)) => put_type(out, setting.program.names.as_slice(), setting.masks, &ty),
    }
}

/// Paths that are put in place of others.
#[derive(Drop)]
struct Swaps {
    from: Vec<u32>,
    to: Vec<u32>,
}

fn swaps_of(alloc: Global, names: &[Text], vars: &Vars, text: &str) -> Result<Swaps, AllocError> {
    let mut swaps = Swaps {
        from: Vec::new(alloc),
        to: Vec::new(alloc),
    };
    for word in text.split_whitespace() {
        if let Some((a, b)) = word.split_once("->") {
            add_swap(&mut swaps, path_of(names, vars, a), path_of(names, vars, b))?;
        }
    }
    Ok(swaps)
}

fn add_swap(swaps: &mut Swaps, from: u32, to: u32) -> Result<(), AllocError> {
    swaps.from.push(from)?;
    swaps.to.push(to)?;
    Ok(())
}

/// The number of a path, one that no scope has where there is no such variable in scope.
fn path_of(names: &[Text], vars: &Vars, word: &str) -> u32 {
    if word == "this" {
        return 0;
    }
    path_of_name(vars, Ref::Var(read_name(names, word)))
}

fn normal_of(
    alloc: Global,
    pool: &mut Pool,
    scope: &Scope,
    ty: &Ty,
) -> Result<Option<Ty>, AllocError> {
    let id = pool.intern(ty)?;
    let binds = scope.binds.as_slice();
    if !scope_fits(alloc, pool, scope)? || !type_fits(alloc, pool, binds, pool.show(id))? {
        return Ok(None);
    }
    let form = normal(alloc, pool, scope, id)?;
    Ok(Some(copied_type(alloc, pool.show(form))?))
}

fn subst_of(
    alloc: Global,
    pool: &mut Pool,
    scope: &Scope,
    ty: &Ty,
    swaps: &Swaps,
) -> Result<Option<Ty>, AllocError> {
    let id = pool.intern(ty)?;
    let binds = scope.binds.as_slice();
    let (from, to) = (swaps.from.as_slice(), swaps.to.as_slice());
    if from.len() != to.len() || !scope_fits(alloc, pool, scope)? {
        return Ok(None);
    }
    if !moved_fits(alloc, pool, binds, from, to, pool.show(id))? {
        return Ok(None);
    }
    let form = subst(alloc, pool, scope, id, from, to)?;
    Ok(Some(copied_type(alloc, pool.show(form))?))
}

fn of_two(
    alloc: Global,
    setting: &Setting<'_>,
    table: &mut Table,
    typing: &mut Typing,
    asked: Question<'_>,
    out: &mut Answer,
) {
    let (first, second) = split(asked.rest);
    match type_of(alloc, setting, table, &typing.vars, first, out) {
        None => {}
        Some(s) => match type_of(alloc, setting, table, &typing.vars, second, out) {
            None => {}
            Some(t) => put_compared(compared(alloc, table, typing, asked.call, &s, &t), out),
        },
    }
}

fn put_compared(told: Result<Option<bool>, AllocError>, out: &mut Answer) {
    match told {
        Err(_) => out.fail(),
        Ok(None) => out.put(UNFIT),
        Ok(Some(so)) => out.say(so),
    }
}

fn compared(
    alloc: Global,
    table: &Table,
    typing: &mut Typing,
    call: &str,
    s: &Ty,
    t: &Ty,
) -> Result<Option<bool>, AllocError> {
    if call == "same" {
        return is_same(alloc, s, t);
    }
    is_below(alloc, table, &mut typing.pool, &typing.scope, s, t)
}

fn is_same(alloc: Global, s: &Ty, t: &Ty) -> Result<Option<bool>, AllocError> {
    let mut pool = Pool::new(alloc)?;
    let a = pool.intern(s)?;
    let b = pool.intern(t)?;
    Ok(Some(pool.same(a, b)))
}

/// What the judge answers; nothing where the scope or a type does not fit.
fn is_below(
    alloc: Global,
    table: &Table,
    pool: &mut Pool,
    scope: &Scope,
    s: &Ty,
    t: &Ty,
) -> Result<Option<bool>, AllocError> {
    let s = pool.intern(s)?;
    let t = pool.intern(t)?;
    let binds = scope.binds.as_slice();
    if !scope_fits(alloc, pool, scope)? {
        return Ok(None);
    }
    if !type_fits(alloc, pool, binds, pool.show(s))? {
        return Ok(None);
    }
    if !type_fits(alloc, pool, binds, pool.show(t))? {
        return Ok(None);
    }
    let mut judge = Judge::new(alloc)?;
    let is_below = judge.sub(pool, table, scope, s, t)?;
    Ok(Some(is_below))
}

fn intern_all(
    alloc: Global,
    setting: &Setting<'_>,
    table: &mut Table,
    vars: &Vars,
    words: &str,
    out: &mut Answer,
) {
    match Pool::new(alloc) {
        Err(_) => out.fail(),
        Ok(mut pool) => {
            for word in words.split_whitespace() {
                put_in(alloc, setting, table, vars, &mut pool, word, out);
            }
            out.put_number(pool.len() as usize);
            out.put(" in all");
        }
    }
}

/// Puts the type of a word into the pool, and tells its number and what the pool shows for that.
fn put_in(
    alloc: Global,
    setting: &Setting<'_>,
    table: &mut Table,
    vars: &Vars,
    pool: &mut Pool,
    word: &str,
    out: &mut Answer,
) {
    match type_of(alloc, setting, table, vars, word, out) {
        None => {}
        Some(ty) => match pool.intern(&ty) {
            Err(_) => out.fail(),
            Ok(id) => put_kept(setting, pool, id, out),
        },
    }
}

fn put_kept(setting: &Setting<'_>, pool: &Pool, id: TyId, out: &mut Answer)
    requires { InPool pool.now id }
{
    out.put_number(id.0 as usize);
    out.put(" ");
    put_type(
        out,
        setting.program.names.as_slice(),
        setting.masks,
        pool.show(id),
    );
    out.put(", ");
}
