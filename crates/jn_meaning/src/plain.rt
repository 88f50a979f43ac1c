//! Acts that look neither at objects nor at classes: each does what the definition says of it, whatever the program and the heap.

ghost use Rattle.std.specs.Prelude.{◌≡◌, true, false, length, IfOk, OnOk, MatchOption};
ghost use Rattle.jn_sem.specs.Acts as acts;
ghost use Rattle.jn_meaning.specs.Frames.{Plainly, side_chosen, loop_chosen};
ghost use Rattle.jn_meaning.specs.Work.{act_of, todo_in};
ghost use Rattle.jn_meaning.specs.Kinds.{NoNumber, NoTruth};

use crate::act::Act;
use crate::did::{Did, Ending, Line};
use crate::fault::MeanFault;
use crate::frame::Frame;
use crate::numbers::negation;
use crate::operators::{Made, make, same_truth};
use crate::path_behind::path_behind;
use crate::value::Value;
use crate::work::Item;
use jn_base::tree::{Expr, Name, Op, Stmt};
use jn_sem::outcome::Why;

pub fn missing<'a>() -> Did<'a>
    ensures { result ≡ Did.Ended (Ending.Stuck Why.Missing) }
{
    Did::Ended(Ending::Stuck(Why::Missing))
}

pub fn wrong_kind<'a>() -> Did<'a>
    ensures { result ≡ Did.Ended (Ending.Stuck Why.Kind) }
{
    Did::Ended(Ending::Stuck(Why::Kind))
}

/// The number that a value is.
fn number_in(v: Value) -> Option<i64>
    ensures { MatchOption result (NoNumber v) (λ z. v ≡ Value.Number z) }
{
    match v {
        Value::Number(z) => Some(z),
        Value::Truth(_) => None,
        Value::Null => None,
        Value::Reference(_, _) => None,
    }
}

/// The truth value that a value is.
fn truth_in(v: Value) -> Option<bool>
    ensures { MatchOption result (NoTruth v) (λ b. v ≡ Value.Truth b) }
{
    match v {
        Value::Truth(b) => Some(b),
        Value::Number(_) => None,
        Value::Null => None,
        Value::Reference(_, _) => None,
    }
}

pub fn push_number<'a>(f: &mut Frame<'a>, z: i64) -> Result<Did<'a>, MeanFault>
    ensures { IfOk result (λ d. Plainly (act_of (Act.Number z)) f.old d f.new) }
{
    f.vals.push(Value::Number(z))?;
    Ok(Did::Went)
}

pub fn push_truth<'a>(f: &mut Frame<'a>, b: bool) -> Result<Did<'a>, MeanFault>
    ensures { IfOk result (λ d. Plainly (act_of (Act.Truth b)) f.old d f.new) }
{
    f.vals.push(Value::Truth(b))?;
    Ok(Did::Went)
}

pub fn push_null<'a>(f: &mut Frame<'a>) -> Result<Did<'a>, MeanFault>
    ensures { IfOk result (λ d. Plainly (act_of Act.Null) f.old d f.new) }
{
    f.vals.push(Value::Null)?;
    Ok(Did::Went)
}

/// `this`.
pub fn push_this<'a>(f: &mut Frame<'a>) -> Result<Did<'a>, MeanFault>
    ensures { IfOk result (λ d. Plainly acts.This f.old d f.new) }
{
    f.vals.push(f.this)?;
    Ok(Did::Went)
}

/// The value of a variable.
pub fn read<'a>(f: &mut Frame<'a>, x: Name) -> Result<Did<'a>, MeanFault>
    ensures { IfOk result (λ d. Plainly (acts.Read x) f.old d f.new) }
{
    match f.locals.newest(x) {
        None => Ok(missing()),
        Some(i) => match f.locals.value(i) {
            None => Err(MeanFault::Memory),
            Some(v) => {
                f.vals.push(v)?;
                Ok(Did::Went)
            }
        },
    }
}

/// `!`.
pub fn invert<'a>(f: &mut Frame<'a>) -> Result<Did<'a>, MeanFault>
    ensures { IfOk result (λ d. Plainly acts.Invert f.old d f.new) }
{
    match f.vals.pop() {
        None => Ok(missing()),
        Some(v) => match truth_in(v) {
            None => Ok(wrong_kind()),
            Some(b) => {
                f.vals.push(Value::Truth(!b))?;
                Ok(Did::Went)
            }
        },
    }
}

/// Unary `-`.
pub fn negate<'a>(f: &mut Frame<'a>) -> Result<Did<'a>, MeanFault>
    ensures { IfOk result (λ d. Plainly acts.Negate f.old d f.new) }
{
    match f.vals.pop() {
        None => Ok(missing()),
        Some(v) => match number_in(v) {
            None => Ok(wrong_kind()),
            Some(z) => {
                f.vals.push(Value::Number(negation(z)))?;
                Ok(Did::Went)
            }
        },
    }
}

/// An operator with both operands had.
pub fn operate<'a>(f: &mut Frame<'a>, op: Op) -> Result<Did<'a>, MeanFault>
    ensures { IfOk result (λ d. Plainly (acts.Operate op) f.old d f.new) }
{
    match f.vals.pop() {
        None => Ok(missing()),
        Some(b) => match f.vals.pop() {
            None => Ok(missing()),
            Some(a) => match make(op, a, b) {
                Made::Fails(o) => Ok(Did::Ended(o)),
                Made::Gives(v) => {
                    f.vals.push(v)?;
                    Ok(Did::Went)
                }
            },
        },
    }
}

/// `&&` or `||` with its left operand had.
pub fn decide<'a>(f: &mut Frame<'a>, and: bool, e: &'a Expr) -> Result<Did<'a>, MeanFault>
    ensures { IfOk result (λ d. Plainly (acts.Decide and e.now) f.old d f.new) }
{
    match f.vals.pop() {
        None => Ok(missing()),
        Some(v) => match truth_in(v) {
            None => Ok(wrong_kind()),
            Some(b) => {
                if same_truth(and, b) {
                    f.todo.put(f.locals.len(), Item::Expr(true, e))?;
                    return Ok(Did::Went);
                }
                f.vals.push(Value::Truth(b))?;
                Ok(Did::Went)
            }
        },
    }
}

/// The side of an `if` that its condition chooses.
fn put_side<'a>(
    f: &mut Frame<'a>,
    path: usize,
    one: &'a [Stmt],
    other: &'a [Stmt],
    b: bool,
) -> Result<(), MeanFault>
    ensures todo { OnOk result (todo_in f.new.todo ≡ side_chosen (length f.old.locals.vars.list) path one.now other.now (todo_in f.old.todo) b) }
    ensures rest { OnOk result (f.new ≡ record f.old { todo = f.new.todo }) }
{
    let scope = f.locals.len();
    if b {
        f.todo.put(scope, Item::Stmts(path, one))?;
        return Ok(());
    }
    match path_behind(one, path) {
        None => Err(MeanFault::Memory),
        Some(next) => {
            f.todo.put(scope, Item::Stmts(next, other))?;
            Ok(())
        }
    }
}

/// `if` with its condition had.
pub fn choose<'a>(
    f: &mut Frame<'a>,
    path: usize,
    one: &'a [Stmt],
    other: &'a [Stmt],
) -> Result<Did<'a>, MeanFault>
    ensures { IfOk result (λ d. Plainly (acts.Choose path one.now other.now) f.old d f.new) }
{
    match f.vals.pop() {
        None => Ok(missing()),
        Some(v) => match truth_in(v) {
            None => Ok(wrong_kind()),
            Some(b) => {
                put_side(f, path, one, other, b)?;
                Ok(Did::Went)
            }
        },
    }
}

/// The body of a `while`, and then its condition again, where it is true.
fn put_loop<'a>(
    f: &mut Frame<'a>,
    path: usize,
    e: &'a Expr,
    body: &'a [Stmt],
    b: bool,
) -> Result<(), MeanFault>
    ensures todo { OnOk result (todo_in f.new.todo ≡ loop_chosen (length f.old.locals.vars.list) path e.now body.now (todo_in f.old.todo) b) }
    ensures rest { OnOk result (f.new ≡ record f.old { todo = f.new.todo }) }
{
    let scope = f.locals.len();
    if b {
        f.todo.put(scope, Item::Act(Act::Repeat(path, e, body)))?;
        f.todo.put(scope, Item::Expr(true, e))?;
        f.todo.put(scope, Item::Stmts(path, body))?;
    }
    Ok(())
}

/// `while` with its condition had.
pub fn repeat<'a>(
    f: &mut Frame<'a>,
    path: usize,
    e: &'a Expr,
    body: &'a [Stmt],
) -> Result<Did<'a>, MeanFault>
    ensures { IfOk result (λ d. Plainly (acts.Repeat path e.now body.now) f.old d f.new) }
{
    match f.vals.pop() {
        None => Ok(missing()),
        Some(v) => match truth_in(v) {
            None => Ok(wrong_kind()),
            Some(b) => {
                put_loop(f, path, e, body, b)?;
                Ok(Did::Went)
            }
        },
    }
}

/// `return` without an operand.
pub fn return_none<'a>(f: &mut Frame<'a>) -> Did<'a>
    ensures { Plainly (acts.Return false) f.old result f.new }
{
    match &f.method.result {
        None => Did::Left(None),
        Some(_) => wrong_kind(),
    }
}

/// Prints a number or a truth value.
pub fn print<'a>(f: &mut Frame<'a>) -> Did<'a>
    ensures { Plainly acts.Print f.old result f.new }
{
    match f.vals.pop() {
        None => missing(),
        Some(v) => match v {
            Value::Number(z) => Did::Printed(Line::Number(z)),
            Value::Truth(b) => Did::Printed(Line::Truth(b)),
            Value::Null => wrong_kind(),
            Value::Reference(_, _) => wrong_kind(),
        },
    }
}
