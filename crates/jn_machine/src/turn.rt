ghost use Rattle.std.specs.Prelude.{◌≡◌, ◌<◌, ◌≤◌, ◌+◌, ◌^◌, List, ℕ, length, map};
ghost use Rattle.jn_code.specs.Form.{InForm};
ghost use Rattle.jn_code.specs.Known.{IsSound};
ghost use Rattle.jn_code.specs.Machine.{instruct, move, obey};
ghost use Rattle.jn_code.specs.Going.{Going};
ghost use Rattle.jn_machine.specs.Acts.{frame_of};
ghost use Rattle.jn_machine.specs.Calls.{Roomy, SameSizes};
ghost use Rattle.jn_machine.specs.Does.{machine_of, next_of, IsTurn};
ghost use Rattle.jn_machine.specs.Sizes.{Sized};
ghost use Rattle.jn_machine.specs.Wants.{Wants};

use crate::call::{back, call, call_at, construct};
use crate::did::{Did, Turn};
use crate::frame::Frame;
use crate::frames::Frames;
use crate::heap::Heap;
use crate::obey::obey;
use jn_code::{Image, Instr};

// The next instruction, which finds what it wants.
fn fetch(image: &Image, frames: &Frames, heap: &Heap, now: &Frame) -> Instr
    requires sound { IsSound image.now }
    requires form { InForm image.now }
    requires going { Going image.now heap.now.limit (frame_of now.now) (map frame_of frames.now.waiting) heap.now.words }
    requires roomy { Roomy image.now frames.now }
    requires sized { Sized frames.now.wide frames.now.high now.now }
    ensures next { move image.now heap.now.limit (frame_of now.now) heap.now.words ≡ obey image.now heap.now.limit result (frame_of now.now) heap.now.words }
    ensures wants { Wants image.now result now.now heap.now.words }
    ensures place { now.now.place + 1 < 2 ^ 64 }
{
    let code = &image.codes.as_slice()[now.code];
    code.instrs.as_slice()[now.place]
}

/// Obeys the next instruction.
pub fn take_turn(image: &Image, frames: &mut Frames, heap: &mut Heap, now: &mut Frame) -> Turn
    requires sound { IsSound image.now }
    requires form { InForm image.now }
    requires going { Going image.now heap.old.limit (frame_of now.old) (map frame_of frames.old.waiting) heap.old.words }
    requires roomy { Roomy image.now frames.old }
    requires sized { Sized frames.old.wide frames.old.high now.old }
    ensures turns { (out : List ℕ) → instruct image.now heap.old.limit frames.old.limit (machine_of now.old frames.old heap.old.words out) ≡ next_of image.now result now.new frames.new heap.new.words out }
    ensures line { IsTurn image.now result }
    ensures same { SameSizes frames.new frames.old }
    ensures sized { Sized frames.old.wide frames.old.high now.new }
    ensures limit { heap.new.limit ≡ heap.old.limit }
{
    let x = fetch(image, frames, heap, now);
    match obey(image, heap, now, x) {
        Did::On => Turn::On,
        Did::Print(line) => Turn::Print(line),
        Did::Call(s) => call(image, frames, now, s),
        Did::CallAt(s) => call_at(image, frames, now, s),
        Did::Construct(s) => construct(image, frames, now, s),
        Did::Leave(v) => back(frames, now, v),
        Did::Null => Turn::Null,
        Did::Zero => Turn::Zero,
        Did::Arena => Turn::Arena,
    }
}
