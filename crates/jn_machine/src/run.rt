ghost use Rattle.std.specs.Prelude.{◌≡◌, ◌<◌, ◌≤◌, ◌+◌, [], List, ℕ, length, IfOk, OnOk, OnErr};
ghost use Rattle.std.specs.Io.KnownBytes.{append_known};
ghost use Rattle.jn_io.specs.Causes.{HasCause};
ghost use Rattle.jn_code.specs.Form.{InForm};
ghost use Rattle.jn_code.specs.Known.{IsSound};
ghost use Rattle.jn_code.specs.Machine.{mach};
ghost use Rattle.jn_machine.specs.Ends.{IsFresh, IsHalt, Ended};
ghost use Rattle.jn_machine.specs.Writes.{Wrote, Cut};

use crate::did::Turn;
use crate::frame::Frame;
use crate::frames::Frames;
use crate::heap::Heap;
use crate::output::Output;
use crate::turn::take_turn;
use jn_code::Image;
use jn_io::{Failed, Sink};

/// How a run ends.
#[derive(Clone, Copy, PartialEq, Eq, Debug)]
pub enum Halt {
    /// The start code returned.
    Done,
    /// A null reference was used, or an entry was missing that the image lacks.
    Null,
    /// A number was divided by zero.
    Zero,
    /// The cells do not suffice.
    Arena,
    /// The frames are too many.
    Depth,
    /// It has not ended after exactly the steps that were allowed.
    Steps,
    /// The sink failed, and its count of faults rose.
    WriteFault,
}

// Runs until it ends or no step is left. What makes no whole piece waits.
fn go<O: Sink>(
    image: &Image,
    frames: &mut Frames,
    heap: &mut Heap,
    now: &mut Frame,
    output: &mut Output,
    steps: u64,
    out: &mut O,
) -> Result<Halt, Failed>
    requires sound { IsSound image.now }
    requires form { InForm image.now }
    requires fresh { IsFresh image.now now.old frames.old heap.old output.old }
    ensures halt { IfOk result (λ halt. IsHalt (mach image.now heap.old.limit frames.old.limit steps) halt) }
    ensures wrote { OnOk result (Wrote (O.taken out.old) (O.taken out.new) [] output.new (mach image.now heap.old.limit frames.old.limit steps).output) }
    ensures cut { OnErr result (Cut (O.taken out.old) (O.taken out.new) (mach image.now heap.old.limit frames.old.limit steps).output) }
    ensures cause { HasCause (O.faults out.old) (O.faults out.new) result }
    ensures arena { heap.new.limit ≡ heap.old.limit }
    ensures depth { frames.new.limit ≡ frames.old.limit }
{
    let mut left = steps;
    while left > 0 {
        left -= 1;
        match take_turn(image, frames, heap, now) {
            Turn::On => {}
            Turn::Print(line) => output.show(image, line, out)?,
            Turn::Done => return Ok(Halt::Done),
            Turn::Null => return Ok(Halt::Null),
            Turn::Zero => return Ok(Halt::Zero),
            Turn::Arena => return Ok(Halt::Arena),
            Turn::Depth => return Ok(Halt::Depth),
        }
    }
    Ok(Halt::Steps)
}

// The same, and then what waits is put.
fn go_and_put<O: Sink>(
    image: &Image,
    frames: &mut Frames,
    heap: &mut Heap,
    now: &mut Frame,
    output: &mut Output,
    steps: u64,
    out: &mut O,
) -> Result<Halt, Failed>
    requires sound { IsSound image.now }
    requires form { InForm image.now }
    requires fresh { IsFresh image.now now.old frames.old heap.old output.old }
    ensures halt { IfOk result (λ halt. IsHalt (mach image.now heap.old.limit frames.old.limit steps) halt) }
    ensures took { OnOk result (O.taken out.new ≡ append_known (O.taken out.old) (mach image.now heap.old.limit frames.old.limit steps).output) }
    ensures cut { OnErr result (Cut (O.taken out.old) (O.taken out.new) (mach image.now heap.old.limit frames.old.limit steps).output) }
    ensures cause { HasCause (O.faults out.old) (O.faults out.new) result }
    ensures arena { heap.new.limit ≡ heap.old.limit }
    ensures depth { frames.new.limit ≡ frames.old.limit }
{
    let halt = go(image, frames, heap, now, output, steps, out)?;
    output.flush(out)?;
    Ok(halt)
}

/// Runs the image from its fresh parts, for at most that many steps.
pub fn run<O: Sink>(
    image: &Image,
    frames: &mut Frames,
    heap: &mut Heap,
    now: &mut Frame,
    output: &mut Output,
    steps: u64,
    out: &mut O,
) -> Halt
    requires sound { IsSound image.now }
    requires form { InForm image.now }
    requires fresh { IsFresh image.now now.old frames.old heap.old output.old }
    ensures ended { Ended (mach image.now heap.old.limit frames.old.limit steps) result (O.taken out.old) (O.taken out.new) (O.faults out.old) (O.faults out.new) }
    ensures counts { O.faults out.old ≤ O.faults out.new }
    ensures arena { heap.new.limit ≡ heap.old.limit }
    ensures depth { frames.new.limit ≡ frames.old.limit }
{
    match go_and_put(image, frames, heap, now, output, steps, out) {
        Ok(halt) => halt,
        Err(_) => Halt::WriteFault,
    }
}
