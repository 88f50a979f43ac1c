ghost use Rattle.std.specs.Prelude.{◌≡◌, OnOk};
ghost use Rattle.jn_base.specs.declared.tree.Node.TheVariants as node;
ghost use Rattle.jn_agree.specs.Places.{bit};
ghost use Rattle.jn_lower.specs.Forms.{StandsAsValue, StandsAsVar};

use crate::emitter::Emitter;
use jn_code::Instr;
use std::alloc::AllocError;

/// 1 for true, 0 for false.
pub fn bit(b: bool) -> u8
    ensures { result ≡ bit b }
{
    if b { 1 } else { 0 }
}

/// Emits a number: INT.
pub fn number(out: &mut Emitter, z: i64) -> Result<(), AllocError>
    ensures { OnOk result (StandsAsValue (node.Int z) out.old out.new) }
{
    out.push(Instr::Int(z))
}

/// Emits a truth value: BOOL.
pub fn truth(out: &mut Emitter, b: bool) -> Result<(), AllocError>
    ensures { OnOk result (StandsAsValue (node.Bool b) out.old out.new) }
{
    out.push(Instr::Bool(bit(b)))
}

/// Emits `null`: NULL.
pub fn null(out: &mut Emitter) -> Result<(), AllocError>
    ensures { OnOk result (StandsAsValue node.Null out.old out.new) }
{
    out.push(Instr::Null)
}

/// Emits `this`: LOAD 0.
pub fn this(out: &mut Emitter) -> Result<(), AllocError>
    ensures { OnOk result (StandsAsValue node.This out.old out.new) }
{
    out.push(Instr::Load(0))
}

/// Emits a variable: LOAD of its number.
pub fn variable(out: &mut Emitter, q: u8) -> Result<(), AllocError>
    ensures { OnOk result (StandsAsVar q out.old out.new) }
{
    out.push(Instr::Load(q))
}
