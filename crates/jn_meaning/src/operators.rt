ghost use Rattle.std.specs.Prelude.{◌≡◌, List};
ghost use Rattle.jn_base.specs.declared.path.Path.{Path as ShownPath};
ghost use Rattle.jn_sem.specs.Does.{divided, on_numbers, on_equal, result_of, same_truth};
ghost use Rattle.jn_meaning.specs.Values.{value_of};
ghost use Rattle.jn_meaning.specs.Made.{made_of, IsAt};

use crate::did::Ending;
use crate::numbers::{difference, product, quotient, remainder, sum};
use crate::value::Value;
use jn_base::tree::Op;
use jn_sem::outcome::Why;

/// What an operator gives, or how it ends the run.
#[derive(Clone, Copy)]
pub enum Made {
    Gives(Value),
    Fails(Ending),
}

/// The operator asks for operands of other kinds.
fn no_operator() -> Made
    ensures { result ≡ Made.Fails (Ending.Stuck Why.Kind) }
{
    Made::Fails(Ending::Stuck(Why::Kind))
}

fn truth(b: bool) -> Made
    ensures { result ≡ Made.Gives (Value.Truth b) }
{
    Made::Gives(Value::Truth(b))
}

fn divided(z: Option<i64>) -> Made
    ensures { (known : List ShownPath) → made_of known result ≡ divided z }
{
    match z {
        None => Made::Fails(Ending::Zero),
        Some(z) => Made::Gives(Value::Number(z)),
    }
}

/// Of two numbers.
fn of_numbers(op: Op, x: i64, y: i64) -> Made
    ensures { (known : List ShownPath) → made_of known result ≡ on_numbers op x y }
{
    match op {
        Op::Add => Made::Gives(Value::Number(sum(x, y))),
        Op::Sub => Made::Gives(Value::Number(difference(x, y))),
        Op::Mul => Made::Gives(Value::Number(product(x, y))),
        Op::Div => divided(quotient(x, y)),
        Op::Rem => divided(remainder(x, y)),
        Op::Lt => truth(x < y),
        Op::Le => truth(x <= y),
        Op::Gt => truth(y < x),
        Op::Ge => truth(y <= x),
        Op::Eq => truth(x == y),
        Op::Ne => truth(x != y),
        Op::And => no_operator(),
        Op::Or => no_operator(),
    }
}

/// Of two operands that are the same or not.
fn of_equal(op: Op, same: bool) -> Made
    ensures { (known : List ShownPath) → made_of known result ≡ on_equal op same }
{
    match op {
        Op::Eq => truth(same),
        Op::Ne => truth(!same),
        Op::Add => no_operator(),
        Op::Sub => no_operator(),
        Op::Mul => no_operator(),
        Op::Div => no_operator(),
        Op::Rem => no_operator(),
        Op::Lt => no_operator(),
        Op::Le => no_operator(),
        Op::Gt => no_operator(),
        Op::Ge => no_operator(),
        Op::And => no_operator(),
        Op::Or => no_operator(),
    }
}

/// Whether the two truth values are the same.
pub fn same_truth(a: bool, b: bool) -> bool
    ensures { result ≡ same_truth a b }
{
    if a { b } else { !b }
}

/// Of a number and another value.
fn with_number(op: Op, x: i64, b: Value) -> Made
    ensures { (known : List ShownPath) → made_of known result ≡ result_of op (value_of known (Value.Number x)) (value_of known b) }
{
    match b {
        Value::Number(y) => of_numbers(op, x, y),
        Value::Truth(_) => no_operator(),
        Value::Null => no_operator(),
        Value::Reference(_, _) => no_operator(),
    }
}

/// Of a truth value and another value.
fn with_truth(op: Op, x: bool, b: Value) -> Made
    ensures { (known : List ShownPath) → made_of known result ≡ result_of op (value_of known (Value.Truth x)) (value_of known b) }
{
    match b {
        Value::Truth(y) => of_equal(op, same_truth(x, y)),
        Value::Number(_) => no_operator(),
        Value::Null => no_operator(),
        Value::Reference(_, _) => no_operator(),
    }
}

/// Of null and another value.
fn with_null(op: Op, b: Value) -> Made
    ensures { (known : List ShownPath) → made_of known result ≡ result_of op (value_of known Value.Null) (value_of known b) }
{
    match b {
        Value::Null => of_equal(op, true),
        Value::Reference(_, _) => of_equal(op, false),
        Value::Number(_) => no_operator(),
        Value::Truth(_) => no_operator(),
    }
}

/// Of a reference, the object of that number, and another value.
fn with_reference(op: Op, a: Value, o: usize, b: Value) -> Made
    requires { IsAt a o }
    ensures { (known : List ShownPath) → made_of known result ≡ result_of op (value_of known a) (value_of known b) }
{
    match b {
        Value::Null => of_equal(op, false),
        Value::Reference(other, _) => of_equal(op, o == other),
        Value::Number(_) => no_operator(),
        Value::Truth(_) => no_operator(),
    }
}

/// Of two operands.
pub fn make(op: Op, a: Value, b: Value) -> Made
    ensures { (known : List ShownPath) → made_of known result ≡ result_of op (value_of known a) (value_of known b) }
{
    match a {
        Value::Number(x) => with_number(op, x, b),
        Value::Truth(x) => with_truth(op, x, b),
        Value::Null => with_null(op, b),
        Value::Reference(o, _) => with_reference(op, a, o, b),
    }
}
