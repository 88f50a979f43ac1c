ghost use Rattle.std.specs.Prelude.{◌≡◌, ◌≤◌, ◌++◌, length, take, IfOk};
ghost use Rattle.jn_lower.specs.Selecting.{CtorsFound};
ghost use Rattle.jn_lower.specs.Whole.{IsCodeOf, LocalsFit, BodyStands};

use crate::emitter::{Emitter, Locals};
use jn_code::Code;
use sqlite_items::Items;
use std::alloc::{AllocError, Global};

/// The kinds of the locals that aren't among the first `count`: the others, and behind them the scratch ones.
fn others(alloc: Global, x: &Locals, count: usize) -> Result<Items<u8>, AllocError>
    requires { count ≤ length x.now.kinds }
    ensures { IfOk result (λ others. take count x.now.kinds ++ others ≡ x.now.kinds ++ x.now.spare) }
{
    let mut all = Items::from_slice(alloc, &x.kinds.as_slice()[count..])?;
    for k in x.spare.as_slice() {
        all.push(*k)?;
    }
    Ok(all)
}

/// The code of what was emitted. The first `count` locals are its parameters, its result is of that kind, and it has at
/// most so many operands.
pub fn code_of(
    alloc: Global,
    out: Emitter,
    count: usize,
    kind: u8,
    stack: u16,
) -> Result<Code, AllocError>
    requires { count ≤ length out.locals.kinds }
    ensures { IfOk result (IsCodeOf out count kind stack) }
{
    let params = Items::from_slice(alloc, &out.locals.kinds.as_slice()[..count])?;
    let locals = others(alloc, &out.locals, count)?;
    Ok(Code {
        params,
        result: kind,
        locals,
        stack,
        instrs: out.instrs,
    })
}

/// A code has what is known of its locals, where these are the variables with the scratch ones behind. It does nothing.
pub fn locals_fit()
    ensures { LocalsFit }
{}

/// A body stands where the tests of its parameters, its statements and the last return are emitted. It does nothing.
pub fn body_stands()
    ensures { BodyStands }
{}

/// The number that is found is that of the constructor's code. It does nothing.
pub fn ctors_found()
    ensures { CtorsFound }
{}
