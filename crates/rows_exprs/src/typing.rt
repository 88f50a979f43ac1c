//! The type of the expression that the first statement of a method gives back.

ghost use Rattle.std.specs.Prelude.{◌≡◌, [], IfOk};
ghost use Rattle.jn_base.specs.Duplicates.{duplicates};
ghost use Rattle.jn_base.specs.WithinLimits.{IsWithinLimits};
ghost use Rattle.jn_intern.specs.Pools.{InPool};
ghost use Rattle.jn_heads.specs.Places.{Stands, IsIn};
ghost use Rattle.jn_expr.specs.Envs.{ArePartsOf, parts};
ghost use Rattle.rows_exprs.specs.Parting.{HasParts};

use crate::shown::{Answer, put_type, refusal_text};
use jn_base::names::{Resolved, Vars};
use jn_base::path::Path;
use jn_base::tree::{Expr, Method, Name, Program, Stmt, Text};
use jn_expr::{Env, method_at, value_of};
use jn_header::{CheckFault, Headers, check_headers, check_names};
use jn_heads::{Place as At, header_of};
use jn_intern::{Pool, TyId};
use jn_names::Bound;
use jn_parser::{ParseFault, parse};
use jn_subtype::Judge;
use jn_table::Table;
use sqlite_items::Items;
use std::alloc::{AllocError, Global};

/// The most bytes that a source may have.
const LONGEST: usize = 1_048_576;

/// A name that no program has.
const NO_NAME: Name = Name(u32::MAX);

/// The type of the expression that the method at a path gives back, or the line of what is refused: of the source, of
/// what it says outside its bodies, or of the expression.
pub fn answer(alloc: Global, source: &[u8], method: &str) -> Result<String, AllocError> {
    if source.len() > LONGEST {
        return String::from_str(alloc, "it is too long");
    }
    match parse(alloc, source) {
        Ok(program) => answer_in(alloc, &program, method),
        Err(ParseFault::Refused(r)) => refusal_text(alloc, None, &r),
        Err(ParseFault::Memory) => Err(AllocError),
    }
}

fn answer_in(alloc: Global, p: &Program, method: &str) -> Result<String, AllocError>
    requires { IsWithinLimits p.now }
{
    let (class, name) = read_method(alloc, p.names.as_slice(), method)?;
    match typed_at(alloc, p, class, name) {
        Ok(text) => Ok(text),
        Err(CheckFault::Refused(r)) => refusal_text(alloc, Some(p), &r),
        Err(CheckFault::Memory) => Err(AllocError),
    }
}

fn typed_at(alloc: Global, p: &Program, class: Path, name: Name) -> Result<String, CheckFault>
    requires { IsWithinLimits p.now }
{
    match env_of(alloc, p, class, name) {
        Err(fault) => Err(fault),
        Ok(mut env) => match method_at(p, &env.table, &env.class, name) {
            None => Ok(String::from_str(alloc, "there is no such method")?),
            Some(m) => typed_in(alloc, p, &mut env, m),
        },
    }
}

/// What the typing of a body of the class works with; or the refusal of what the program says outside its bodies.
fn env_of(alloc: Global, p: &Program, class: Path, method: Name) -> Result<Env, CheckFault>
    requires { IsWithinLimits p.now }
    ensures { IfOk result (λ env. ArePartsOf p.now (parts env)) }
{
    match check_names(alloc, p) {
        Err(fault) => Err(fault),
        Ok(()) => env_behind_names(alloc, p, class, method),
    }
}

fn env_behind_names(
    alloc: Global,
    p: &Program,
    class: Path,
    method: Name,
) -> Result<Env, CheckFault>
    requires limits { IsWithinLimits p.now }
    requires once { duplicates p.now ≡ [] }
    ensures { IfOk result (λ env. ArePartsOf p.now (parts env)) }
{
    let mut table = Table::new(alloc, p)?;
    let mut pool = Pool::new(alloc)?;
    match check_headers(alloc, p, &mut table, &mut pool) {
        Err(fault) => Err(fault),
        Ok(headers) => { Ok(env_with(alloc, table, pool, headers, class, method)?) }
    }
}

/// The parts, with no variable in scope and no mark.
fn env_with(
    alloc: Global,
    table: Table,
    pool: Pool,
    headers: Headers,
    class: Path,
    method: Name,
) -> Result<Env, AllocError>
    ensures { IfOk result (λ env. HasParts table headers (parts env)) }
{
    let marks = no_marks(alloc, &class, method)?;
    let judge = Judge::new(alloc)?;
    Ok(Env {
        table,
        members: headers.members,
        groups: headers.groups,
        slots: headers.slots,
        pool,
        judge,
        masks: headers.masks,
        vars: Vars {
            list: Items::new(alloc),
        },
        class,
        method,
        marks,
    })
}

fn no_marks(alloc: Global, class: &Path, method: Name) -> Result<Resolved, AllocError> {
    let names = Items::from_slice(alloc, class.names.as_slice())?;
    Ok(Resolved {
        class: Path { names },
        method,
        terms: Items::new(alloc),
        vars: Items::new(alloc),
        members: Items::new(alloc),
        kinds: Items::new(alloc),
    })
}

/// The type of what the first statement of the method gives back.
fn typed_in(alloc: Global, p: &Program, env: &mut Env, m: &Method) -> Result<String, CheckFault>
    requires { ArePartsOf p.now (parts env.old) }
{
    match m.body.as_slice().first() {
        Some(Stmt::Return(Some(e), _)) => typed_with(alloc, p, env, m, e),
        _ => Ok(String::from_str(alloc, "there is no such expression")?),
    }
}

/// The type of an expression, with the parameters of the method in scope.
fn typed_with(
    alloc: Global,
    p: &Program,
    env: &mut Env,
    m: &Method,
    e: &Expr,
) -> Result<String, CheckFault>
    requires { ArePartsOf p.now (parts env.old) }
{
    let class = Bound::of(alloc, env.class.names.as_slice())?;
    match header_of(
        alloc,
        p,
        &mut env.table,
        &env.masks,
        &mut env.pool,
        &class,
        m,
    ) {
        Err(fault) => Err(fault),
        Ok(header) => typed_behind(alloc, p, env, &class, m, header.at, e),
    }
}

fn typed_behind(
    alloc: Global,
    p: &Program,
    env: &mut Env,
    class: &Bound,
    m: &Method,
    at: At,
    e: &Expr,
) -> Result<String, CheckFault>
    requires parts { ArePartsOf p.now (parts env.old) }
    requires stands { Stands p.now env.old.pool at }
    requires within { IsIn (record { class = class.now; method = m.now }) at }
{
    if at.vars.list.len() > 255 {
        return Err(CheckFault::Memory);
    }
    let mut scope = at.scope;
    env.vars = at.vars;
    match value_of(alloc, p, class, m, env, &mut scope, e) {
        Err(fault) => Err(fault),
        Ok(value) => Ok(type_text(alloc, p, env, value.ty)?),
    }
}

fn type_text(alloc: Global, p: &Program, env: &Env, id: TyId) -> Result<String, AllocError>
    requires { InPool env.now.pool id }
{
    let mut out = Answer::new(alloc);
    put_type(&mut out, p.names.as_slice(), &env.masks, env.pool.show(id));
    out.end()
}

/// The path of a class and the name of a method, as `a.C.m`.
fn read_method(alloc: Global, names: &[Text], method: &str) -> Result<(Path, Name), AllocError> {
    let mut path = Items::new(alloc);
    let mut last = NO_NAME;
    for name in method.split('.') {
        if last != NO_NAME {
            path.push(last)?;
        }
        last = read_name(names, name);
    }
    Ok((Path { names: path }, last))
}

/// The number of a name in a program, or one that no name has.
fn read_name(names: &[Text], text: &str) -> Name {
    let mut number = 0u32;
    for name in names {
        if name.bytes.as_slice() == text.as_bytes() {
            return Name(number);
        }
        number = number.saturating_add(1);
    }
    NO_NAME
}
