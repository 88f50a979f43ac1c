//! What the latest operands have to be, and what is left of the others.
ghost use Rattle.std.specs.Prelude.{◌≡◌, ◌<◌, ◌^◌, [], ◌∷◌, ◌++◌, Some, None, length, map, reverse};
ghost use Rattle.jn_code.specs.declared.kind.OperandKind.TheVariants as kind;
ghost use Rattle.jn_code.specs.Kinds.{takes, each_some, arguments_of, one, two, kind_of};
ghost use Rattle.jn_code.specs.Valid.{suits};
ghost use Rattle.jn_verify.specs.Tails.{IsTaken};

use crate::numbers::{field_kind, kind_of, local_kind, result_kind};
use crate::tails::{Tails, kind_eq};
use jn_code::{Code, Image, Instr, OperandKind};

/// What an operand has to be, where None is anything.
type Want = Option<OperandKind>;

fn suits(want: Want, kind: OperandKind) -> bool
    ensures { result ≡ suits want kind }
{
    match want {
        None => true,
        Some(w) => kind_eq(w, kind),
    }
}

fn take_one(tails: &Tails, n: u32, want: Want) -> Option<u32>
    requires { n < length tails.now }
    ensures { IsTaken tails.now (one want) n result }
{
    let (kind, below) = tails.latest(n)?;
    if suits(want, kind) { Some(below) } else { None }
}

/// The first want is that of the latest operand.
fn take_two(tails: &Tails, n: u32, first: Want, second: Want) -> Option<u32>
    requires { n < length tails.now }
    ensures { IsTaken tails.now (two first second) n result }
{
    let below = take_one(tails, n, first)?;
    take_one(tails, below, second)
}

/// The last parameter is that of the latest operand.
fn take_params(tails: &Tails, n: u32, params: &[u8]) -> Option<u32>
    requires { n < length tails.now }
    ensures { IsTaken tails.now (each_some (reverse (map kind_of params.now))) n result }
{
    let mut below = n;
    let mut left = params.len();
    while left > 0 {
        left -= 1;
        match take_one(tails, below, Some(kind_of(params[left]))) {
            None => return None,
            Some(m) => below = m,
        }
    }
    Some(below)
}

fn take_arguments(image: &Image, selector: u32, tails: &Tails, n: u32) -> Option<u32>
    requires { n < length tails.now }
    ensures { IsTaken tails.now (each_some (arguments_of image.now selector)) n result }
{
    match image.methods.get(selector as usize) {
        Some(shape) => take_params(tails, n, shape.params.as_slice()),
        None => Some(n),
    }
}

fn take_constructed(image: &Image, selector: u32, tails: &Tails, n: u32) -> Option<u32>
    requires { n < length tails.now }
    ensures { IsTaken tails.now (Some kind.Reference ∷ each_some (arguments_of image.now selector)) n result }
{
    let below = take_one(tails, n, Some(OperandKind::Reference))?;
    take_arguments(image, selector, tails, below)
}

fn take_call(image: &Image, selector: u32, tails: &Tails, n: u32) -> Option<u32>
    requires { n < length tails.now }
    ensures { IsTaken tails.now (each_some (arguments_of image.now selector ++ one kind.Reference)) n result }
{
    match take_arguments(image, selector, tails, n) {
        None => None,
        Some(below) => take_one(tails, below, Some(OperandKind::Reference)),
    }
}

fn take_callat(image: &Image, selector: u32, tails: &Tails, n: u32) -> Option<u32>
    requires { n < length tails.now }
    ensures { IsTaken tails.now (Some kind.Class ∷ each_some (arguments_of image.now selector ++ one kind.Reference)) n result }
{
    let below = take_one(tails, n, Some(OperandKind::Class))?;
    take_call(image, selector, tails, below)
}

/// What is left of list n where the operands of x are taken, and None where they do not suit.
pub fn take(image: &Image, code: &Code, x: Instr, tails: &Tails, n: u32) -> Option<u32>
    requires { n < length tails.now }
    ensures { IsTaken tails.now (takes image.now code.now x) n result }
{
    let int = Some(OperandKind::Int);
    let truth = Some(OperandKind::Bool);
    let reference = Some(OperandKind::Reference);
    let class = Some(OperandKind::Class);
    match x {
        Instr::Int(_) | Instr::Bool(_) | Instr::Null | Instr::Cls(_) => Some(n),
        Instr::Load(_) | Instr::Jump(_) | Instr::Printt(_) | Instr::Ret => Some(n),
        Instr::Store(local) => take_one(tails, n, local_kind(code, local as usize)),
        Instr::Pop => take_one(tails, n, None),
        Instr::Add | Instr::Sub | Instr::Mul | Instr::Div | Instr::Rem => take_two(
            tails, n, int, int,
        ),
        Instr::Lt | Instr::Le | Instr::Gt | Instr::Ge | Instr::Eqi => take_two(tails, n, int, int),
        Instr::Neg | Instr::Printi => take_one(tails, n, int),
        Instr::Eqb => take_two(tails, n, truth, truth),
        Instr::Eqr => take_two(tails, n, reference, reference),
        Instr::Not | Instr::Jfalse(_) | Instr::Jtrue(_) | Instr::Printb => take_one(
            tails, n, truth,
        ),
        Instr::Viewof | Instr::Get(_) | Instr::Check => take_one(tails, n, reference),
        Instr::Up(_) | Instr::Down(_) | Instr::New => take_one(tails, n, class),
        Instr::Ctor(s) => take_constructed(image, s, tails, n),
        Instr::Call(s) => take_call(image, s, tails, n),
        Instr::Callat(s) => take_callat(image, s, tails, n),
        Instr::Put(s) => take_two(tails, n, field_kind(image, s as usize), reference),
        Instr::Conv => take_two(tails, n, class, reference),
        Instr::Retv => take_one(tails, n, result_kind(code.result)),
    }
}

fn count_of_arguments(image: &Image, selector: u32) -> usize
    ensures count { result ≡ length (arguments_of image.now selector) }
    ensures small { result < 2 ^ 63 }
{
    match image.methods.get(selector as usize) {
        Some(shape) => shape.params.as_slice().len(),
        None => 0,
    }
}

/// How many operands x takes.
pub fn count_of(image: &Image, code: &Code, x: Instr) -> usize
    ensures { result ≡ length (takes image.now code.now x) }
{
    match x {
        Instr::Int(_) | Instr::Bool(_) | Instr::Null | Instr::Cls(_) => 0,
        Instr::Load(_) | Instr::Jump(_) | Instr::Printt(_) | Instr::Ret => 0,
        Instr::Store(_) | Instr::Pop | Instr::Neg | Instr::Printi | Instr::Retv => 1,
        Instr::Add | Instr::Sub | Instr::Mul | Instr::Div | Instr::Rem => 2,
        Instr::Lt | Instr::Le | Instr::Gt | Instr::Ge | Instr::Eqi => 2,
        Instr::Eqb | Instr::Eqr | Instr::Put(_) | Instr::Conv => 2,
        Instr::Not | Instr::Jfalse(_) | Instr::Jtrue(_) | Instr::Printb => 1,
        Instr::Viewof | Instr::Get(_) | Instr::Check => 1,
        Instr::Up(_) | Instr::Down(_) | Instr::New => 1,
        Instr::Ctor(s) => count_of_arguments(image, s) + 1,
        Instr::Call(s) => count_of_arguments(image, s) + 1,
        Instr::Callat(s) => count_of_arguments(image, s) + 2,
    }
}
