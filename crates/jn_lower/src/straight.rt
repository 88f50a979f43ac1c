ghost use Rattle.std.specs.Prelude.{◌≡◌, [], ◌∷◌, OnOk};
ghost use Rattle.jn_base.specs.Resolve.{is_class};
ghost use Rattle.jn_agree.specs.Places.{equal, operator, deciding, decided_by, dropping, tuck, last_return};
ghost use Rattle.jn_places.specs.StmtPlaces.{printing};
ghost use Rattle.jn_lower.specs.Straight.{deciding_of};
ghost use Rattle.jn_lower.specs.Emitted.{Adds};

use crate::emitter::Emitter;
use jn_base::tree::Op;
use jn_base::types::Ty;
use jn_code::Instr;
use std::alloc::AllocError;

/// Whether it is a class type.
pub fn is_class(ty: &Ty) -> bool
    ensures { result ≡ is_class ty.now }
{
    match ty {
        Ty::Class(_, _) => true,
        Ty::Int => false,
        Ty::Bool => false,
        Ty::Null => false,
        Ty::Void => false,
    }
}

/// What prints a value of the type.
pub fn printing(ty: &Ty) -> Instr
    ensures { result ≡ printing ty.now }
{
    match ty {
        Ty::Int => Instr::Printi,
        Ty::Bool => Instr::Printb,
        Ty::Null => Instr::Printb,
        Ty::Void => Instr::Printb,
        Ty::Class(_, _) => Instr::Printb,
    }
}

/// `==` of two values of the kind.
pub fn equal(kind: u8) -> Instr
    ensures { result ≡ equal kind }
{
    match kind {
        1 => Instr::Eqi,
        2 => Instr::Eqb,
        _ => Instr::Eqr,
    }
}

/// Whether `&&` or `||` it is, where it is one: it may decide without its right operand.
pub fn deciding_of(op: Op) -> Option<bool>
    ensures { result ≡ deciding_of op }
{
    match op {
        Op::And => Some(true),
        Op::Or => Some(false),
        _ => None,
    }
}

/// The jump past the right operand of `&&` or `||`.
pub fn deciding(and: bool, target: u32) -> Instr
    ensures { result ≡ deciding and target }
{
    if and {
        Instr::Jfalse(target)
    } else {
        Instr::Jtrue(target)
    }
}

/// The value where the left operand of `&&` or `||` decides.
pub fn decided_by(and: bool) -> Instr
    ensures { result ≡ decided_by and }
{
    if and { Instr::Bool(0) } else { Instr::Bool(1) }
}

/// Adds two instructions.
fn two(out: &mut Emitter, a: Instr, b: Instr) -> Result<(), AllocError>
    ensures { OnOk result (Adds (a ∷ b ∷ []) out.old out.new) }
{
    out.push(a)?;
    out.push(b)
}

/// Adds an operator that has both its operands, which are of the kind: `!=` is `==` and NOT. Those that may decide
/// without the right operand add nothing.
pub fn operator(out: &mut Emitter, op: Op, kind: u8) -> Result<(), AllocError>
    ensures { OnOk result (Adds (operator op kind) out.old out.new) }
{
    match op {
        Op::Add => out.push(Instr::Add),
        Op::Sub => out.push(Instr::Sub),
        Op::Mul => out.push(Instr::Mul),
        Op::Div => out.push(Instr::Div),
        Op::Rem => out.push(Instr::Rem),
        Op::Lt => out.push(Instr::Lt),
        Op::Le => out.push(Instr::Le),
        Op::Gt => out.push(Instr::Gt),
        Op::Ge => out.push(Instr::Ge),
        Op::Eq => out.push(equal(kind)),
        Op::Ne => two(out, equal(kind), Instr::Not),
        Op::And => Ok(()),
        Op::Or => Ok(()),
    }
}

/// Drops a value of the kind where it isn't kept: POP, and nothing where there is no value.
pub fn dropping(out: &mut Emitter, keeps: bool, kind: u8) -> Result<(), AllocError>
    ensures { OnOk result (Adds (dropping keeps kind) out.old out.new) }
{
    if keeps || kind == 0 {
        Ok(())
    } else {
        out.push(Instr::Pop)
    }
}

/// Brings `this` below the value on top, by way of a local: STORE, LOAD 0, LOAD.
pub fn tuck(out: &mut Emitter, q: u8) -> Result<(), AllocError>
    ensures { OnOk result (Adds (tuck q) out.old out.new) }
{
    two(out, Instr::Store(q), Instr::Load(0))?;
    out.push(Instr::Load(q))
}

/// The return behind a body's end, by the kind of its result.
pub fn last_return(out: &mut Emitter, kind: u8) -> Result<(), AllocError>
    ensures { OnOk result (Adds (last_return kind) out.old out.new) }
{
    match kind {
        0 => out.push(Instr::Ret),
        1 => two(out, Instr::Int(0), Instr::Retv),
        2 => two(out, Instr::Bool(0), Instr::Retv),
        _ => two(out, Instr::Null, Instr::Retv),
    }
}
