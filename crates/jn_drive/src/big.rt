ghost use Rattle.std.specs.Prelude.{◌≡◌, ◌<◌, true, length};
ghost use Rattle.jn_agree.specs.Agrees.{InRange};
ghost use Rattle.jn_code.specs.Machine.{mach};
ghost use Rattle.jn_code.specs.Valid.{IsValid};
ghost use Rattle.jn_drive.specs.Bigs.{MakesBig, IsSummed, SumTold, BigTold};
ghost use Rattle.jn_drive.specs.Words.{numbered};

use crate::exec::tell_end;
use crate::halt::Halt;
use crate::put::{deliver, no_memory};
use crate::run::built;
use crate::status::Status;
use jn_big::{Kept, big, summary};
use jn_io::Sink;
use jn_jobs::JobWords;
use jn_machine::{Halt as RunHalt, Machine};
use jn_verify::Good;
use sqlite_items::Items;
use std::alloc::Global;

/// How many classes an image has.
fn class_count(image: &Good) -> u32
    ensures { result ≡ length image.now.classes }
{
    image.image().classes.as_slice().len() as u32
}

/// The machine that is to run the program of the generated source, and how many classes the program has.
fn big_machine(alloc: Global, words: &JobWords) -> Result<(Machine, u32), Halt>
    ensures { MakesBig (numbered words.now) result }
{
    let source = big(alloc, words.count)?;
    let image = built(alloc, source.as_slice())?;
    let classes = class_count(&image);
    let machine = Machine::make(alloc, image, words.arena, words.depth)?;
    Ok((machine, classes))
}

/// The summary of a run that was done.
fn summed(alloc: Global, count: u8, classes: u32, output: &[u8]) -> Result<Items<u8>, Halt>
    ensures { IsSummed count classes output.now result }
{
    Ok(Items::from_vec(summary(alloc, u32::from(count) + 1, classes, output)?))
}

/// Tells how a run ended: by its summary where it was done. What it put was kept.
fn tell_sum<O: Sink, E: Sink>(
    alloc: Global,
    mut machine: Machine,
    classes: u32,
    words: &JobWords,
    out: &mut O,
    err: &mut E,
) -> Status
    requires fresh { machine.fresh ≡ true }
    requires valid { IsValid machine.image }
    requires arena { machine.arena < 4294967296 }
    ensures { SumTold (mach machine.image machine.arena machine.depth words.now.steps) words.now.count classes
        (record { taken = O.taken out.old; faults = O.faults out.old })
        (record { taken = O.taken out.new; faults = O.faults out.new })
        (record { taken = E.taken err.old; faults = E.faults err.old })
        (record { taken = E.taken err.new; faults = E.faults err.new })
        result }
{
    let mut kept = Kept::new(alloc);
    let end = machine.run(words.steps, &mut kept);
    match end {
        RunHalt::Done => deliver(summed(alloc, words.count, classes, kept.bytes()), out, err),
        RunHalt::WriteFault => no_memory(err),
        RunHalt::Null => tell_end(RunHalt::Null, err),
        RunHalt::Zero => tell_end(RunHalt::Zero, err),
        RunHalt::Arena => tell_end(RunHalt::Arena, err),
        RunHalt::Depth => tell_end(RunHalt::Depth, err),
        RunHalt::Steps => tell_end(RunHalt::Steps, err),
    }
}

/// Runs the program of the generated source, and puts its summary.
pub fn run_big<O: Sink, E: Sink>(
    alloc: Global,
    words: &JobWords,
    out: &mut O,
    err: &mut E,
) -> Status
    requires { InRange (numbered words.now).arena (numbered words.now).depth }
    ensures { BigTold (numbered words.now)
        (record { taken = O.taken out.old; faults = O.faults out.old })
        (record { taken = O.taken out.new; faults = O.faults out.new })
        (record { taken = E.taken err.old; faults = E.faults err.old })
        (record { taken = E.taken err.new; faults = E.faults err.new })
        result }
{
    match big_machine(alloc, words) {
        Ok((machine, classes)) => tell_sum(alloc, machine, classes, words, out, err),
        Err(halt) => deliver(Err(halt), out, err),
    }
}
