ghost use Rattle.std.specs.Prelude.{◌≡◌, ◌<◌, ◌≤◌, ◌+◌, ◌∷◌, [], All, IfOk, slice_get, true, false};
ghost use Rattle.jn_code.specs.Known.{IsSound};
ghost use Rattle.jn_code.specs.Machine.{mach, first_frame};
ghost use Rattle.jn_machine.specs.Acts.{frame_of};
ghost use Rattle.jn_machine.specs.Calls.{IsWide};
ghost use Rattle.jn_machine.specs.Sizes.{Sized};
ghost use Rattle.jn_machine.specs.Ends.{Ended};

use crate::frame::{Frame, make_frame};
use crate::frames::Frames;
use crate::heap::Heap;
use crate::output::Output;
use crate::run::{Halt, run};
use crate::widths::{highest, widest};
use jn_code::Image;
use jn_io::Sink;
use jn_verify::Good;
use std::alloc::{AllocError, Global};
use std::marker::Model;

/// A machine for one run of an image. Contracts see its image, its bounds and whether it is fresh.
#[derive(Drop)]
pub struct Machine {
    image: Good,
    frames: Frames,
    heap: Heap,
    now: Frame,
    output: Output,
    fresh: bool,
}

impl Model for Machine {
    ghost use Rattle.std.specs.Bool.{OnTrue};
    ghost use Rattle.jn_machine.specs.Machines.{MachineState};
    ghost use Rattle.jn_machine.specs.Ends.{IsFresh};

    ghost Value = { MachineState };

    ghost view = { λ s. record { image = s.image; arena = s.heap.limit; depth = s.frames.limit; fresh = s.fresh } };

    ghost invariant = { λ s. OnTrue s.fresh (IsFresh s.image s.now s.frames s.heap s.output) };
}

// The frame of the start code, which has no operands yet.
fn first_frame(alloc: Global, image: &Image, wide: usize, high: usize) -> Result<Frame, AllocError>
    requires sound { IsSound image.now }
    requires wide { All (IsWide wide) image.now.codes }
    ensures first { IfOk result (λ f. frame_of f ∷ [] ≡ first_frame image.now (slice_get image.now.codes image.now.start)) }
    ensures sized { IfOk result (λ f. Sized wide high f) }
{
    let start = image.start as usize;
    let mut now = make_frame(alloc, wide, high)?;
    now.code = start;
    now.vars.fill(image.codes.as_slice()[start].locals.len());
    Ok(now)
}

impl Machine {
    /// A fresh machine for the image, with that many cells and at most that many frames beside the first. It takes all the memory
    /// that its run will use: the cells, the frames and an output buffer of 8,192 bytes. Each frame has room for the variables and
    /// the operands of the image's codes.
    pub fn make(alloc: Global, g: Good, arena: u32, depth: u32) -> Result<Machine, AllocError>
        ensures { IfOk result (λ m. m ≡ record { image = g; arena = arena; depth = depth; fresh = true }) }
    {
        let image = g.image();
        let wide = widest(image);
        let high = highest(image);
        let now = first_frame(alloc, image, wide, high)?;
        let frames = Frames::make(alloc, depth as usize, wide, high)?;
        let heap = Heap::make(alloc, arena as usize)?;
        let output = Output::make(alloc)?;
        Ok(Machine {
            image: g,
            frames,
            heap,
            now,
            output,
            fresh: true,
        })
    }

    /// Runs the image, for at most that many steps. It takes no memory, and puts pieces of 8,192 bytes and a last shorter one.
    ///
    /// WriteFault comes only where the sink's count of faults rose, and the sink took a prefix of what the run prints. Each other
    /// answer is that of the image's own run, with all of its output taken.
    pub fn run<O: Sink>(&mut self, steps: u64, out: &mut O) -> Halt
        requires { self.old.fresh ≡ true }
        ensures ended { Ended (mach self.old.image self.old.arena self.old.depth steps) result (O.taken out.old) (O.taken out.new) (O.faults out.old) (O.faults out.new) }
        ensures counts { O.faults out.old ≤ O.faults out.new }
        ensures used { self.new ≡ record self.old { fresh = false } }
    {
        self.fresh = false;
        let image = self.image.image();
        run(
            image,
            &mut self.frames,
            &mut self.heap,
            &mut self.now,
            &mut self.output,
            steps,
            out,
        )
    }
}
