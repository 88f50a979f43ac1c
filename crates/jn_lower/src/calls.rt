ghost use Rattle.std.specs.Prelude.{◌≡◌, ◌++◌, [], ◌∷◌, ℕ, OnOk};
ghost use Rattle.jn_code.specs.declared.instr.Instr.TheVariants as ins;
ghost use Rattle.jn_agree.specs.Places.{dropping};
ghost use Rattle.jn_lower.specs.Emitted.{Adds};
ghost use Rattle.jn_lower.specs.Called.{Tucks};
ghost use Rattle.jn_lower.specs.Selecting.{made_by};

use crate::emitter::Emitter;
use crate::straight::{dropping, tuck};
use jn_code::Instr;
use std::alloc::AllocError;

/// Reads a field of the value on top: GET.
pub fn get(out: &mut Emitter, j: u32) -> Result<(), AllocError>
    ensures { OnOk result (Adds (ins.Get j ∷ []) out.old out.new) }
{
    out.push(Instr::Get(j))
}

/// Gives the value on top to a field of the object below it: PUT.
pub fn put(out: &mut Emitter, j: u32) -> Result<(), AllocError>
    ensures { OnOk result (Adds (ins.Put j ∷ []) out.old out.new) }
{
    out.push(Instr::Put(j))
}

/// Calls the method of the selector, and drops what it gives, of that kind, where it isn't kept.
pub fn call(out: &mut Emitter, j: u32, keeps: bool, kind: u8) -> Result<(), AllocError>
    ensures { OnOk result (Adds (ins.Call j ∷ dropping keeps kind) out.old out.new) }
{
    out.push(Instr::Call(j))?;
    dropping(out, keeps, kind)
}

/// Calls the method of the selector that the class of that number has, and drops what it gives, of that kind, where it
/// isn't kept.
pub fn call_at(out: &mut Emitter, k: u16, j: u32, keeps: bool, kind: u8) -> Result<(), AllocError>
    ensures { OnOk result (Adds (ins.Cls k ∷ ins.Callat j ∷ dropping keeps kind) out.old out.new) }
{
    out.push(Instr::Cls(k))?;
    out.push(Instr::Callat(j))?;
    dropping(out, keeps, kind)
}

/// The same on `this`, without arguments.
pub fn bare_call_at(
    out: &mut Emitter,
    k: u16,
    j: u32,
    keeps: bool,
    kind: u8,
) -> Result<(), AllocError>
    ensures { OnOk result (Adds (ins.Load 0 ∷ ins.Cls k ∷ ins.Callat j ∷ dropping keeps kind) out.old out.new) }
{
    out.push(Instr::Load(0))?;
    call_at(out, k, j, keeps, kind)
}

/// Brings `this` below the value on top, which is of that kind, by way of the scratch local of the kind.
pub fn tuck_first(out: &mut Emitter, kind: u8) -> Result<(), AllocError>
    ensures { OnOk result (Tucks kind out.old out.new) }
{
    let q = out.spare(kind)?;
    tuck(out, q)
}

/// Calls the constructor of the selector, where there is one.
fn constructor(out: &mut Emitter, ctor: Option<u32>) -> Result<(), AllocError>
    ensures { OnOk result (Adds (made_by ctor) out.old out.new) }
{
    match ctor {
        None => Ok(()),
        Some(j) => out.push(Instr::Ctor(j)),
    }
}

/// Makes an object of the class on top, calls its constructor where there is one, and drops it where it isn't kept.
pub fn make(out: &mut Emitter, ctor: Option<u32>, keeps: bool) -> Result<(), AllocError>
    ensures { OnOk result (Adds (ins.New ∷ (made_by ctor ++ dropping keeps 3)) out.old out.new) }
{
    out.push(Instr::New)?;
    constructor(out, ctor)?;
    dropping(out, keeps, 3)
}
