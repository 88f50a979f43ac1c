ghost use Rattle.std.specs.Prelude.{◌≡◌, ◌≤◌, ◌<◌, ◌+◌, length, All, IsTrue};
ghost use Rattle.jn_code.specs.Form.{IsKind, InstrInForm};
ghost use Rattle.jn_lower.specs.Formed.{LocalsFormed, InstrsFormed, Formed};

use crate::emitter::{Emitter, Locals};
use jn_code::Instr;

/// Whether each of them is a kind of a local.
fn are_kinds(kinds: &[u8]) -> bool
    ensures { IsTrue result → All IsKind kinds.now }
{
    for kind in kinds {
        if *kind < 1 || *kind > 3 {
            return false;
        }
    }
    true
}

/// Whether the truth value of the instruction is one, where it has one.
fn is_in_form(instr: Instr) -> bool
    ensures { IsTrue result → InstrInForm instr }
{
    match instr {
        Instr::Bool(b) => b <= 1,
        _ => true,
    }
}

/// Whether each of the instructions is in form.
fn are_in_form(instrs: &[Instr]) -> bool
    ensures { IsTrue result → All InstrInForm instrs.now }
{
    for instr in instrs {
        if !is_in_form(*instr) {
            return false;
        }
    }
    true
}

/// Whether the instructions are in form, and no more than an image may have.
fn instrs_formed(instrs: &[Instr]) -> bool
    ensures { IsTrue result → InstrsFormed instrs.now }
{
    instrs.len() <= 4294967295 && are_in_form(instrs)
}

/// Whether there are as many variables as `above` tells, of which so many are parameters.
fn numbers_fit(x: &Locals, count: usize, above: u8) -> bool
    ensures scratch { IsTrue result → length x.now.kinds ≡ x.now.scratch }
    ensures above { IsTrue result → length x.now.kinds ≡ above }
    ensures within { IsTrue result → count ≤ length x.now.kinds }
    ensures few { IsTrue result → count ≤ 16 }
{
    if x.kinds.len() != x.scratch as usize {
        return false;
    }
    if x.scratch != above {
        return false;
    }
    count <= x.kinds.len() && count <= 16
}

/// Whether there are at most three scratch locals, and as many locals as a code may have.
fn are_few(x: &Locals) -> bool
    ensures spare { IsTrue result → length x.now.spare ≤ 3 }
    ensures many { IsTrue result → length x.now.kinds + length x.now.spare ≤ 255 }
{
    if x.kinds.len() > 255 {
        return false;
    }
    if x.spare.len() > 3 {
        return false;
    }
    x.kinds.len() + x.spare.len() <= 255
}

/// Whether the locals are those of a code.
fn locals_formed(x: &Locals, count: usize, above: u8) -> bool
    ensures { IsTrue result → LocalsFormed x.now count above }
{
    if !numbers_fit(x, count, above) {
        return false;
    }
    if !are_few(x) {
        return false;
    }
    are_kinds(x.kinds.as_slice()) && are_kinds(x.spare.as_slice())
}

/// Whether what was emitted is in the form of a code with so many parameters, whose variables are numbered below `above`.
pub fn is_formed(x: &Emitter, count: usize, above: u8) -> bool
    ensures { IsTrue result → Formed x.now count above }
{
    locals_formed(&x.locals, count, above) && instrs_formed(x.instrs.as_slice())
}
