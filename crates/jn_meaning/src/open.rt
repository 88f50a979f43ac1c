//! How the parts of a body are taken apart: an item is replaced by its parts, of which contracts see the same acts.

ghost use Rattle.std.specs.Prelude.{◌≡◌, ◌↔◌, [], ◌∷◌, suc, true, false, OnOk, IfOk, IsTrue};
ghost use Rattle.jn_sem.specs.Acts.{todo, Choose, Repeat, expr_does, return_does, stmts_acts, path_behind};
ghost use Rattle.jn_sem.specs.LawsOfActs.{args_acts, links_acts, link_acts, parts_acts, suffix_acts};
ghost use Rattle.jn_meaning.specs.Work.{does, todo_in, IsNext};
ghost use Rattle.jn_meaning.specs.declared.work.Item.TheVariants as Item;

use crate::act::Act;
use crate::fault::MeanFault;
use crate::path_behind::{next_number, path_behind};
use crate::work::{Due, Item, Work};
use jn_base::tree::{Expr, Link, Node, Op, Stmt, Suffix};

/// An expression and what stands behind it.
fn open_post<'a>(
    work: &mut Work<'a>,
    scope: usize,
    keeps: bool,
    first: &'a Expr,
    parts: &'a [Suffix],
) -> Result<(), MeanFault>
    ensures { OnOk result (todo_in work.new ≡ expr_does first.now true scope (parts_acts parts.now keeps scope (todo_in work.old))) }
{
    work.put(scope, Item::Parts(keeps, parts))?;
    work.put(scope, Item::Expr(true, first))?;
    Ok(())
}

/// A chain of operands.
fn open_chain<'a>(
    work: &mut Work<'a>,
    scope: usize,
    first: &'a Expr,
    links: &'a [Link],
) -> Result<(), MeanFault>
    ensures { OnOk result (todo_in work.new ≡ expr_does first.now true scope (links_acts scope links.now (todo_in work.old))) }
{
    work.put(scope, Item::Links(links))?;
    work.put(scope, Item::Expr(true, first))?;
    Ok(())
}

fn put_act<'a>(work: &mut Work<'a>, scope: usize, act: Act<'a>) -> Result<(), MeanFault>
    ensures { OnOk result (todo_in work.new ≡ does (Item.Act act.entry) scope (todo_in work.old)) }
{
    work.put(scope, Item::Act(act))?;
    Ok(())
}

fn put_args<'a>(
    work: &mut Work<'a>,
    scope: usize,
    act: Act<'a>,
    args: &'a [Expr],
) -> Result<(), MeanFault>
    ensures { OnOk result (todo_in work.new ≡ args_acts scope args.now (does (Item.Act act.entry) scope (todo_in work.old))) }
{
    work.put(scope, Item::Act(act))?;
    work.put(scope, Item::Exprs(args))?;
    Ok(())
}

fn put_behind<'a>(
    work: &mut Work<'a>,
    scope: usize,
    act: Act<'a>,
    e: &'a Expr,
) -> Result<(), MeanFault>
    ensures { OnOk result (todo_in work.new ≡ expr_does e.now true scope (does (Item.Act act.entry) scope (todo_in work.old))) }
{
    work.put(scope, Item::Act(act))?;
    work.put(scope, Item::Expr(true, e))?;
    Ok(())
}

/// An expression, whose value is kept or not.
fn open_expr<'a>(
    work: &mut Work<'a>,
    scope: usize,
    keeps: bool,
    e: &'a Expr,
) -> Result<(), MeanFault>
    ensures { OnOk result (todo_in work.new ≡ expr_does e.now keeps scope (todo_in work.old)) }
{
    match &e.node {
        Node::Int(z) => put_act(work, scope, Act::Number(*z)),
        Node::Bool(b) => put_act(work, scope, Act::Truth(*b)),
        Node::Null => put_act(work, scope, Act::Null),
        Node::This => put_act(work, scope, Act::This),
        Node::Var(x) => put_act(work, scope, Act::Read(*x)),
        Node::New(term, args) => {
            let args = args.as_slice();
            put_args(work, scope, Act::Make(term, args.len(), keeps), args)
        }
        Node::Super(term, name, args) => {
            let args = args.as_slice();
            put_args(
                work,
                scope,
                Act::Super(term, name.name, args.len(), keeps),
                args,
            )
        }
        Node::Post(first, parts) => open_post(work, scope, keeps, first.get(), parts.as_slice()),
        Node::Not(e) => put_behind(work, scope, Act::Invert, e.get()),
        Node::Neg(e) => put_behind(work, scope, Act::Negate, e.get()),
        Node::View(view, e) => put_behind(work, scope, Act::View(view), e.get()),
        Node::Chain(_, first, links) => open_chain(work, scope, first.get(), links.as_slice()),
    }
}

/// Operands, of which the first comes first.
fn open_exprs<'a>(work: &mut Work<'a>, scope: usize, es: &'a [Expr]) -> Result<(), MeanFault>
    ensures { OnOk result (todo_in work.new ≡ args_acts scope es.now (todo_in work.old)) }
{
    match es {
        [] => Ok(()),
        [first, rest @ ..] => {
            work.put(scope, Item::Exprs(rest))?;
            work.put(scope, Item::Expr(true, first))?;
            Ok(())
        }
    }
}

/// A field, or a call behind its arguments.
fn open_part<'a>(
    work: &mut Work<'a>,
    scope: usize,
    keeps: bool,
    s: &'a Suffix,
) -> Result<(), MeanFault>
    ensures { OnOk result (todo_in work.new ≡ suffix_acts s.now keeps scope (todo_in work.old)) }
{
    match &s.args {
        None => put_act(work, scope, Act::Get(s.name.name)),
        Some(args) => {
            let args = args.as_slice();
            put_args(work, scope, Act::Call(s.name.name, args.len(), keeps), args)
        }
    }
}

/// What stands behind an expression: only the last value is kept or not.
fn open_parts<'a>(
    work: &mut Work<'a>,
    scope: usize,
    keeps: bool,
    parts: &'a [Suffix],
) -> Result<(), MeanFault>
    ensures { OnOk result (todo_in work.new ≡ parts_acts parts.now keeps scope (todo_in work.old)) }
{
    match parts {
        [] => Ok(()),
        [last] => open_part(work, scope, keeps, last),
        [first, rest @ ..] => {
            work.put(scope, Item::Parts(keeps, rest))?;
            open_part(work, scope, true, first)
        }
    }
}

/// An operator and its right operand.
fn open_link<'a>(
    work: &mut Work<'a>,
    scope: usize,
    op: Op,
    right: &'a Expr,
) -> Result<(), MeanFault>
    ensures { OnOk result (todo_in work.new ≡ link_acts op right.now scope (todo_in work.old)) }
{
    match op {
        Op::And => put_act(work, scope, Act::Decide(true, right)),
        Op::Or => put_act(work, scope, Act::Decide(false, right)),
        _ => put_behind(work, scope, Act::Operate(op), right),
    }
}

/// The further operands of a chain.
fn open_links<'a>(work: &mut Work<'a>, scope: usize, links: &'a [Link]) -> Result<(), MeanFault>
    ensures { OnOk result (todo_in work.new ≡ links_acts scope links.now (todo_in work.old)) }
{
    match links {
        [] => Ok(()),
        [first, rest @ ..] => {
            work.put(scope, Item::Links(rest))?;
            open_link(work, scope, first.op, &first.right)
        }
    }
}

/// A block, and the statements behind it.
fn open_block<'a>(
    work: &mut Work<'a>,
    scope: usize,
    path: usize,
    body: &'a [Stmt],
    rest: &'a [Stmt],
) -> Result<(), MeanFault>
    ensures { OnOk result (todo_in work.new ≡ stmts_acts scope path body.now (stmts_acts scope (path_behind body.now path) rest.now (todo_in work.old))) }
{
    match path_behind(body, path) {
        None => Err(MeanFault::Memory),
        Some(behind) => {
            work.put(scope, Item::Stmts(behind, rest))?;
            work.put(scope, Item::Stmts(path, body))?;
            Ok(())
        }
    }
}

/// A local, whose number is `path`, and the statements behind it, in which it is in scope.
fn open_local<'a>(
    work: &mut Work<'a>,
    scope: usize,
    path: usize,
    act: Act<'a>,
    e: &'a Expr,
    rest: &'a [Stmt],
) -> Result<(), MeanFault>
    ensures { OnOk result (todo_in work.new ≡ expr_does e.now true scope (does (Item.Act act.entry) scope (stmts_acts (suc scope) (suc path) rest.now (todo_in work.old)))) }
{
    match next_number(scope) {
        None => Err(MeanFault::Memory),
        Some(inner) => match next_number(path) {
            None => Err(MeanFault::Memory),
            Some(next) => {
                work.put(inner, Item::Stmts(next, rest))?;
                put_behind(work, scope, act, e)
            }
        },
    }
}

/// An act behind its operand, and the statements behind it.
fn open_one<'a>(
    work: &mut Work<'a>,
    scope: usize,
    path: usize,
    act: Act<'a>,
    e: &'a Expr,
    rest: &'a [Stmt],
) -> Result<(), MeanFault>
    ensures { OnOk result (todo_in work.new ≡ expr_does e.now true scope (does (Item.Act act.entry) scope (stmts_acts scope path rest.now (todo_in work.old)))) }
{
    work.put(scope, Item::Stmts(path, rest))?;
    put_behind(work, scope, act, e)
}

/// An act, and the statements behind it.
fn open_alone<'a>(
    work: &mut Work<'a>,
    scope: usize,
    path: usize,
    act: Act<'a>,
    rest: &'a [Stmt],
) -> Result<(), MeanFault>
    ensures { OnOk result (todo_in work.new ≡ does (Item.Act act.entry) scope (stmts_acts scope path rest.now (todo_in work.old))) }
{
    work.put(scope, Item::Stmts(path, rest))?;
    put_act(work, scope, act)
}

/// A field assignment, whose receiver comes first, and the statements behind it.
fn open_set<'a>(
    work: &mut Work<'a>,
    scope: usize,
    path: usize,
    act: Act<'a>,
    of: &'a Expr,
    e: &'a Expr,
    rest: &'a [Stmt],
) -> Result<(), MeanFault>
    ensures { OnOk result (todo_in work.new ≡ expr_does of.now true scope (expr_does e.now true scope (does (Item.Act act.entry) scope (stmts_acts scope path rest.now (todo_in work.old))))) }
{
    work.put(scope, Item::Stmts(path, rest))?;
    put_behind(work, scope, act, e)?;
    work.put(scope, Item::Expr(true, of))?;
    Ok(())
}

/// A call statement, and the statements behind it.
fn open_do<'a>(
    work: &mut Work<'a>,
    scope: usize,
    path: usize,
    e: &'a Expr,
    rest: &'a [Stmt],
) -> Result<(), MeanFault>
    ensures { OnOk result (todo_in work.new ≡ expr_does e.now false scope (stmts_acts scope path rest.now (todo_in work.old))) }
{
    work.put(scope, Item::Stmts(path, rest))?;
    work.put(scope, Item::Expr(false, e))?;
    Ok(())
}

/// An `if`, and the statements behind it.
fn open_if<'a>(
    work: &mut Work<'a>,
    scope: usize,
    path: usize,
    e: &'a Expr,
    one: &'a [Stmt],
    other: &'a [Stmt],
    rest: &'a [Stmt],
) -> Result<(), MeanFault>
    ensures { OnOk result (todo_in work.new ≡ expr_does e.now true scope (todo scope (Choose path one.now other.now) ∷ stmts_acts scope (path_behind other.now (path_behind one.now path)) rest.now (todo_in work.old))) }
{
    match path_behind(one, path) {
        None => Err(MeanFault::Memory),
        Some(next) => match path_behind(other, next) {
            None => Err(MeanFault::Memory),
            Some(behind) => open_one(work, scope, behind, Act::Choose(path, one, other), e, rest),
        },
    }
}

/// A `while`, and the statements behind it.
fn open_while<'a>(
    work: &mut Work<'a>,
    scope: usize,
    path: usize,
    e: &'a Expr,
    body: &'a [Stmt],
    rest: &'a [Stmt],
) -> Result<(), MeanFault>
    ensures { OnOk result (todo_in work.new ≡ expr_does e.now true scope (todo scope (Repeat path e.now body.now) ∷ stmts_acts scope (path_behind body.now path) rest.now (todo_in work.old))) }
{
    match path_behind(body, path) {
        None => Err(MeanFault::Memory),
        Some(behind) => open_one(work, scope, behind, Act::Repeat(path, e, body), e, rest),
    }
}

/// A `return`, and the statements behind it.
fn open_return<'a>(
    work: &mut Work<'a>,
    scope: usize,
    path: usize,
    e: &'a Option<Expr>,
    rest: &'a [Stmt],
) -> Result<(), MeanFault>
    ensures { OnOk result (todo_in work.new ≡ return_does e.now scope (stmts_acts scope path rest.now (todo_in work.old))) }
{
    match e {
        None => open_alone(work, scope, path, Act::Return(false), rest),
        Some(e) => open_one(work, scope, path, Act::Return(true), e, rest),
    }
}

/// A statement, where the number of the next local is `path`, and those behind it.
fn open_stmt<'a>(
    work: &mut Work<'a>,
    scope: usize,
    path: usize,
    s: &'a Stmt,
    rest: &'a [Stmt],
) -> Result<(), MeanFault>
    ensures { OnOk result (todo_in work.new ≡ stmts_acts scope path (s.now ∷ rest.now) (todo_in work.old)) }
{
    match s {
        Stmt::Block(body) => open_block(work, scope, path, body.as_slice(), rest),
        Stmt::Local(fixed, ty, x, e) => {
            open_local(
                work,
                scope,
                path,
                Act::Bind(*fixed, ty, x.name, path),
                e,
                rest,
            )
        }
        Stmt::Assign(x, e) => open_one(work, scope, path, Act::Assign(x.name), e, rest),
        Stmt::Set(of, x, e) => open_set(work, scope, path, Act::Put(x.name), of, e, rest),
        Stmt::Do(e) => open_do(work, scope, path, e, rest),
        Stmt::If(e, one, other, _) => {
            open_if(work, scope, path, e, one.as_slice(), other.as_slice(), rest)
        }
        Stmt::While(e, body, _) => open_while(work, scope, path, e, body.as_slice(), rest),
        Stmt::Return(e, _) => open_return(work, scope, path, e, rest),
        Stmt::Print(e, _) => open_one(work, scope, path, Act::Print, e, rest),
        Stmt::PrintText(text, _) => open_alone(work, scope, path, Act::PrintText(*text), rest),
    }
}

/// Statements, where the number of the next local is `path`.
fn open_stmts<'a>(
    work: &mut Work<'a>,
    scope: usize,
    path: usize,
    ss: &'a [Stmt],
) -> Result<(), MeanFault>
    ensures { OnOk result (todo_in work.new ≡ stmts_acts scope path ss.now (todo_in work.old)) }
{
    match ss {
        [] => Ok(()),
        [first, rest @ ..] => open_stmt(work, scope, path, first, rest),
    }
}

/// Takes an item apart that was the first.
fn open<'a>(work: &mut Work<'a>, scope: usize, item: Item<'a>) -> Result<(), MeanFault>
    ensures { OnOk result (todo_in work.new ≡ does item.entry scope (todo_in work.old)) }
{
    match item {
        Item::Stmts(path, ss) => open_stmts(work, scope, path, ss),
        Item::Exprs(es) => open_exprs(work, scope, es),
        Item::Expr(keeps, e) => open_expr(work, scope, keeps, e),
        Item::Parts(keeps, parts) => open_parts(work, scope, keeps, parts),
        Item::Links(links) => open_links(work, scope, links),
        Item::Act(act) => put_act(work, scope, act),
    }
}

/// Takes the next act away; none where nothing is left to be done.
pub fn next_act<'a>(work: &mut Work<'a>) -> Result<Option<Due<'a>>, MeanFault>
    ensures { IfOk result (λ o. IsNext (todo_in work.old) o (todo_in work.new)) }
{
    for _ in 0..u64::MAX {
        match work.pop() {
            None => return Ok(None),
            Some(entry) => match entry.item {
                Item::Act(act) => {
                    return Ok(Some(Due {
                        scope: entry.scope,
                        act,
                    }));
                }
                item => open(work, entry.scope, item)?,
            },
        }
    }
    Err(MeanFault::Memory)
}

/// Whether nothing is left to be done. What is to be done stays.
pub fn is_done<'a>(work: &mut Work<'a>) -> Result<bool, MeanFault>
    ensures done { IfOk result (λ b. IsTrue b ↔ (todo_in work.old ≡ [])) }
    ensures stays { OnOk result (todo_in work.new ≡ todo_in work.old) }
{
    match next_act(work)? {
        None => Ok(true),
        Some(due) => {
            work.put(due.scope, Item::Act(due.act))?;
            Ok(false)
        }
    }
}
