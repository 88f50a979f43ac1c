ghost use Rattle.std.specs.Prelude.{◌≡◌, [], true, IfOk};

use crate::locals::Locals;
use crate::operands::Operands;
use std::alloc::{AllocError, Global};

/// A code at work, or one that waits.
#[derive(Drop)]
pub struct Frame {
    pub code: usize,
    /// The number of the next instruction.
    pub place: usize,
    pub vars: Locals,
    pub vals: Operands,
    /// Whether the result of the call that it waits for is kept.
    pub keeps: bool,
}

/// A frame of code 0 with room for that many variables and operands, which has none.
pub fn make_frame(alloc: Global, wide: usize, high: usize) -> Result<Frame, AllocError>
    ensures { IfOk result (λ f. f ≡ record {
      code = 0;
      place = 0;
      vars = record { limit = wide; words = [] };
      vals = record { limit = high; words = [] };
      keeps = true;
    }) }
{
    Ok(Frame {
        code: 0,
        place: 0,
        vars: Locals::make(alloc, wide)?,
        vals: Operands::make(alloc, high)?,
        keeps: true,
    })
}
