ghost use Rattle.std.specs.Prelude.{◌≡◌, ◌<◌, ◌++◌, List, Some, None, IfOk, IfErr, length, drop, nat_le};
ghost use Rattle.jn_code.specs.declared.kind.OperandKind.{OperandKind};
ghost use Rattle.jn_code.specs.Kinds.{takes, gives, list_of};
ghost use Rattle.jn_code.specs.Valid.{own_fault};
ghost use Rattle.jn_verify.specs.Tails.{list_at};

use crate::numbers::{gives, is_place, local_is_there, number_is_there, returns_well, target_of};
use crate::tails::Tails;
use crate::takes::{count_of, take};
use jn_code::{Code, CodeWhy, Image, Instr, OperandKind};

// What is given has room above so many that are left.
fn has_room(stack: u16, left: usize, given: Option<OperandKind>) -> bool
    ensures { (rest : List OperandKind) → length rest ≡ left → result ≡ nat_le (length (list_of given ++ rest)) stack }
{
    let stack = stack as usize;
    match given {
        None => left <= stack,
        Some(_) => left < stack,
    }
}

/// The operands that are left of list n, or the first fault of the instruction itself, where the kinds before it are
/// that list.
pub fn rest_of(image: &Image, code: &Code, x: Instr, tails: &Tails, n: u32) -> Result<u32, CodeWhy>
    requires { n < length tails.now }
    ensures none { IfOk result (λ m. own_fault image.now code.now x (list_at tails.now n) ≡ None) }
    ensures there { IfOk result (λ m. m < length tails.now) }
    ensures rest { IfOk result (λ m. list_at tails.now m ≡ drop (length (takes image.now code.now x)) (list_at tails.now n)) }
    ensures fault { IfErr result (λ why. own_fault image.now code.now x (list_at tails.now n) ≡ Some why) }
{
    if !number_is_there(image, x) {
        return Err(CodeWhy::Number);
    }
    if !local_is_there(code, x) {
        return Err(CodeWhy::Local);
    }
    if !is_place(code, target_of(x)) {
        return Err(CodeWhy::Target);
    }
    let height = tails.height(n);
    let count = count_of(image, code, x);
    if height < count {
        return Err(CodeWhy::Stack);
    }
    if !has_room(code.stack, height - count, gives(image, code, x)) {
        return Err(CodeWhy::Stack);
    }
    let Some(rest) = take(image, code, x, tails, n) else {
        return Err(CodeWhy::Kind);
    };
    if !returns_well(code, x) {
        return Err(CodeWhy::Kind);
    }
    Ok(rest)
}
