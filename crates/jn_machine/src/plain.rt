//! Instructions that look at neither the image nor the heap: each obeys one, as the definition has it.

ghost use Rattle.std.specs.Prelude.{◌<◌, ◌+◌, ◌^◌, length};
ghost use Rattle.jn_code.specs.declared.instr.Instr.TheVariants as Instr;
ghost use Rattle.jn_machine.specs.Needs.{HasRoom, Has};
ghost use Rattle.jn_machine.specs.Acts.{SameRoom};
ghost use Rattle.jn_machine.specs.Does.{Plainly};

use crate::did::{Did, Line};
use crate::frame::Frame;
use crate::numbers::{
    difference, is_at_most, is_less, is_same, is_true, negation, object, product, quotient,
    reference_in, remainder, sum, word,
};

/// A number.
pub fn int(f: &mut Frame, z: i64) -> Did
    requires room { HasRoom f.old.vals }
    requires place { f.old.place + 1 < 2 ^ 64 }
    ensures does { Plainly (Instr.Int z) f.old result f.new }
    ensures room { SameRoom f.old f.new }
{
    f.vals.put(z);
    f.place += 1;
    Did::On
}

/// A truth value.
pub fn boolean(f: &mut Frame, b: u8) -> Did
    requires room { HasRoom f.old.vals }
    requires place { f.old.place + 1 < 2 ^ 64 }
    ensures does { Plainly (Instr.Bool b) f.old result f.new }
    ensures room { SameRoom f.old f.new }
{
    f.vals.put(b as i64);
    f.place += 1;
    Did::On
}

/// Null.
pub fn null(f: &mut Frame) -> Did
    requires room { HasRoom f.old.vals }
    requires place { f.old.place + 1 < 2 ^ 64 }
    ensures does { Plainly Instr.Null f.old result f.new }
    ensures room { SameRoom f.old f.new }
{
    f.vals.put(0);
    f.place += 1;
    Did::On
}

/// A class.
pub fn class(f: &mut Frame, k: u16) -> Did
    requires room { HasRoom f.old.vals }
    requires place { f.old.place + 1 < 2 ^ 64 }
    ensures does { Plainly (Instr.Cls k) f.old result f.new }
    ensures room { SameRoom f.old f.new }
{
    f.vals.put(k as i64);
    f.place += 1;
    Did::On
}

/// A variable.
pub fn load(f: &mut Frame, x: u8) -> Did
    requires room { HasRoom f.old.vals }
    requires there { x < length f.old.vars.words }
    requires place { f.old.place + 1 < 2 ^ 64 }
    ensures does { Plainly (Instr.Load x) f.old result f.new }
    ensures room { SameRoom f.old f.new }
{
    let z = f.vars.get(x as usize);
    f.vals.put(z);
    f.place += 1;
    Did::On
}

/// To a variable.
pub fn store(f: &mut Frame, x: u8) -> Did
    requires has { Has 1 f.old.vals }
    requires there { x < length f.old.vars.words }
    requires place { f.old.place + 1 < 2 ^ 64 }
    ensures does { Plainly (Instr.Store x) f.old result f.new }
    ensures room { SameRoom f.old f.new }
{
    let z = f.vals.take();
    f.vars.set(x as usize, z);
    f.place += 1;
    Did::On
}

/// Drops the latest operand.
pub fn pop(f: &mut Frame) -> Did
    requires has { Has 1 f.old.vals }
    requires place { f.old.place + 1 < 2 ^ 64 }
    ensures does { Plainly Instr.Pop f.old result f.new }
    ensures room { SameRoom f.old f.new }
{
    f.vals.take();
    f.place += 1;
    Did::On
}

/// The sum of the two latest operands.
pub fn add(f: &mut Frame) -> Did
    requires has { Has 2 f.old.vals }
    requires place { f.old.place + 1 < 2 ^ 64 }
    ensures does { Plainly Instr.Add f.old result f.new }
    ensures room { SameRoom f.old f.new }
{
    let y = f.vals.take();
    let x = f.vals.take();
    f.vals.put(sum(x, y));
    f.place += 1;
    Did::On
}

/// Their difference, the earlier less the later.
pub fn sub(f: &mut Frame) -> Did
    requires has { Has 2 f.old.vals }
    requires place { f.old.place + 1 < 2 ^ 64 }
    ensures does { Plainly Instr.Sub f.old result f.new }
    ensures room { SameRoom f.old f.new }
{
    let y = f.vals.take();
    let x = f.vals.take();
    f.vals.put(difference(x, y));
    f.place += 1;
    Did::On
}

/// Their product.
pub fn mul(f: &mut Frame) -> Did
    requires has { Has 2 f.old.vals }
    requires place { f.old.place + 1 < 2 ^ 64 }
    ensures does { Plainly Instr.Mul f.old result f.new }
    ensures room { SameRoom f.old f.new }
{
    let y = f.vals.take();
    let x = f.vals.take();
    f.vals.put(product(x, y));
    f.place += 1;
    Did::On
}

/// Whether the earlier is less.
pub fn lt(f: &mut Frame) -> Did
    requires has { Has 2 f.old.vals }
    requires place { f.old.place + 1 < 2 ^ 64 }
    ensures does { Plainly Instr.Lt f.old result f.new }
    ensures room { SameRoom f.old f.new }
{
    let y = f.vals.take();
    let x = f.vals.take();
    f.vals.put(word(is_less(x, y)));
    f.place += 1;
    Did::On
}

/// Whether the earlier is not greater.
pub fn le(f: &mut Frame) -> Did
    requires has { Has 2 f.old.vals }
    requires place { f.old.place + 1 < 2 ^ 64 }
    ensures does { Plainly Instr.Le f.old result f.new }
    ensures room { SameRoom f.old f.new }
{
    let y = f.vals.take();
    let x = f.vals.take();
    f.vals.put(word(is_at_most(x, y)));
    f.place += 1;
    Did::On
}

/// Whether the earlier is greater.
pub fn gt(f: &mut Frame) -> Did
    requires has { Has 2 f.old.vals }
    requires place { f.old.place + 1 < 2 ^ 64 }
    ensures does { Plainly Instr.Gt f.old result f.new }
    ensures room { SameRoom f.old f.new }
{
    let y = f.vals.take();
    let x = f.vals.take();
    f.vals.put(word(is_less(y, x)));
    f.place += 1;
    Did::On
}

/// Whether the earlier is not less.
pub fn ge(f: &mut Frame) -> Did
    requires has { Has 2 f.old.vals }
    requires place { f.old.place + 1 < 2 ^ 64 }
    ensures does { Plainly Instr.Ge f.old result f.new }
    ensures room { SameRoom f.old f.new }
{
    let y = f.vals.take();
    let x = f.vals.take();
    f.vals.put(word(is_at_most(y, x)));
    f.place += 1;
    Did::On
}

/// Whether two numbers are the same.
pub fn eqi(f: &mut Frame) -> Did
    requires has { Has 2 f.old.vals }
    requires place { f.old.place + 1 < 2 ^ 64 }
    ensures does { Plainly Instr.Eqi f.old result f.new }
    ensures room { SameRoom f.old f.new }
{
    let y = f.vals.take();
    let x = f.vals.take();
    f.vals.put(word(is_same(x, y)));
    f.place += 1;
    Did::On
}

/// Whether two truth values are the same.
pub fn eqb(f: &mut Frame) -> Did
    requires has { Has 2 f.old.vals }
    requires place { f.old.place + 1 < 2 ^ 64 }
    ensures does { Plainly Instr.Eqb f.old result f.new }
    ensures room { SameRoom f.old f.new }
{
    let y = f.vals.take();
    let x = f.vals.take();
    f.vals.put(word(is_same(x, y)));
    f.place += 1;
    Did::On
}

/// Whether two references are to the same object, whatever their views.
pub fn eqr(f: &mut Frame) -> Did
    requires has { Has 2 f.old.vals }
    requires place { f.old.place + 1 < 2 ^ 64 }
    ensures does { Plainly Instr.Eqr f.old result f.new }
    ensures room { SameRoom f.old f.new }
{
    let y = f.vals.take();
    let x = f.vals.take();
    f.vals.put(word(object(x) == object(y)));
    f.place += 1;
    Did::On
}

/// The number with the other sign.
pub fn neg(f: &mut Frame) -> Did
    requires has { Has 1 f.old.vals }
    requires place { f.old.place + 1 < 2 ^ 64 }
    ensures does { Plainly Instr.Neg f.old result f.new }
    ensures room { SameRoom f.old f.new }
{
    let x = f.vals.take();
    f.vals.put(negation(x));
    f.place += 1;
    Did::On
}

/// The other truth value.
pub fn not(f: &mut Frame) -> Did
    requires has { Has 1 f.old.vals }
    requires place { f.old.place + 1 < 2 ^ 64 }
    ensures does { Plainly Instr.Not f.old result f.new }
    ensures room { SameRoom f.old f.new }
{
    let x = f.vals.take();
    f.vals.put(word(!is_true(x)));
    f.place += 1;
    Did::On
}

/// The quotient, toward 0. It answers Zero where it divides by 0.
pub fn div(f: &mut Frame) -> Did
    requires has { Has 2 f.old.vals }
    requires place { f.old.place + 1 < 2 ^ 64 }
    ensures does { Plainly Instr.Div f.old result f.new }
    ensures room { SameRoom f.old f.new }
{
    let y = f.vals.take();
    let x = f.vals.take();
    match quotient(x, y) {
        None => Did::Zero,
        Some(z) => {
            f.vals.put(z);
            f.place += 1;
            Did::On
        }
    }
}

/// The remainder, with the sign of the dividend. It answers Zero where it divides by 0.
pub fn rem(f: &mut Frame) -> Did
    requires has { Has 2 f.old.vals }
    requires place { f.old.place + 1 < 2 ^ 64 }
    ensures does { Plainly Instr.Rem f.old result f.new }
    ensures room { SameRoom f.old f.new }
{
    let y = f.vals.take();
    let x = f.vals.take();
    match remainder(x, y) {
        None => Did::Zero,
        Some(z) => {
            f.vals.put(z);
            f.place += 1;
            Did::On
        }
    }
}

/// The class at which the object is viewed. It answers Null where the reference is null.
pub fn viewof(f: &mut Frame) -> Did
    requires has { Has 1 f.old.vals }
    requires place { f.old.place + 1 < 2 ^ 64 }
    ensures does { Plainly Instr.Viewof f.old result f.new }
    ensures room { SameRoom f.old f.new }
{
    let z = f.vals.take();
    match reference_in(z) {
        None => Did::Null,
        Some(r) => {
            f.vals.put(r.view as i64);
            f.place += 1;
            Did::On
        }
    }
}

/// The reference again. It answers Null where it is null.
pub fn check(f: &mut Frame) -> Did
    requires has { Has 1 f.old.vals }
    requires place { f.old.place + 1 < 2 ^ 64 }
    ensures does { Plainly Instr.Check f.old result f.new }
    ensures room { SameRoom f.old f.new }
{
    let z = f.vals.take();
    if reference_in(z).is_none() {
        return Did::Null;
    }
    f.vals.put(z);
    f.place += 1;
    Did::On
}

/// Goes to the instruction of that number.
pub fn jump(f: &mut Frame, to: u32) -> Did
    requires place { f.old.place + 1 < 2 ^ 64 }
    ensures does { Plainly (Instr.Jump to) f.old result f.new }
    ensures room { SameRoom f.old f.new }
{
    f.place = to as usize;
    Did::On
}

/// Goes there where the operand is false.
pub fn jfalse(f: &mut Frame, to: u32) -> Did
    requires has { Has 1 f.old.vals }
    requires place { f.old.place + 1 < 2 ^ 64 }
    ensures does { Plainly (Instr.Jfalse to) f.old result f.new }
    ensures room { SameRoom f.old f.new }
{
    let x = f.vals.take();
    if is_true(x) {
        f.place += 1;
    } else {
        f.place = to as usize;
    }
    Did::On
}

/// Goes there where the operand is true.
pub fn jtrue(f: &mut Frame, to: u32) -> Did
    requires has { Has 1 f.old.vals }
    requires place { f.old.place + 1 < 2 ^ 64 }
    ensures does { Plainly (Instr.Jtrue to) f.old result f.new }
    ensures room { SameRoom f.old f.new }
{
    let x = f.vals.take();
    if is_true(x) {
        f.place = to as usize;
    } else {
        f.place += 1;
    }
    Did::On
}

/// The number that is to be printed.
pub fn printi(f: &mut Frame) -> Did
    requires has { Has 1 f.old.vals }
    requires place { f.old.place + 1 < 2 ^ 64 }
    ensures does { Plainly Instr.Printi f.old result f.new }
    ensures room { SameRoom f.old f.new }
{
    let z = f.vals.take();
    f.place += 1;
    Did::Print(Line::Number(z))
}

/// The truth value that is to be printed.
pub fn printb(f: &mut Frame) -> Did
    requires has { Has 1 f.old.vals }
    requires place { f.old.place + 1 < 2 ^ 64 }
    ensures does { Plainly Instr.Printb f.old result f.new }
    ensures room { SameRoom f.old f.new }
{
    let z = f.vals.take();
    f.place += 1;
    Did::Print(Line::Truth(is_true(z)))
}

/// The end of a code without a result.
pub fn ret(f: &mut Frame) -> Did
    ensures does { Plainly Instr.Ret f.old result f.new }
    ensures room { SameRoom f.old f.new }
{
    Did::Leave(None)
}

/// The end of a code, with the latest operand as its result.
pub fn retv(f: &mut Frame) -> Did
    requires has { Has 1 f.old.vals }
    ensures does { Plainly Instr.Retv f.old result f.new }
    ensures room { SameRoom f.old f.new }
{
    Did::Leave(Some(f.vals.take()))
}
