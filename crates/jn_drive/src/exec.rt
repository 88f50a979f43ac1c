ghost use Rattle.std.specs.Prelude.{◌≡◌, ◌≤◌, ◌<◌, true};
ghost use Rattle.jn_code.specs.Machine.{mach};
ghost use Rattle.jn_code.specs.Machine as code;
ghost use Rattle.jn_code.specs.Valid.{IsValid};
ghost use Rattle.jn_drive.specs.Exec.{Loads, IsBadImage, Tells, EndTold};
ghost use Rattle.jn_drive.specs.Job.{Does};
ghost use Rattle.jn_drive.specs.Words.{named};
ghost use Rattle.jn_drive.specs.declared.words.JobKind.TheVariants.{Exec};

use crate::halt::Halt;
use crate::put::{deliver, put_all};
use crate::read::read_file;
use crate::status::Status;
use crate::words::Named;
use jn_code::ImageFault;
use jn_exec::{fault_line, load};
use jn_io::{Sink, Store};
use jn_machine::{Halt as RunHalt, Machine};
use sqlite_items::Items;
use std::alloc::Global;

/// Of an image no more than this is read: one byte more than it may have.
const MOST: usize = 134_217_729;

/// Why there is no machine for the bytes, which have this fault.
fn bad_image(alloc: Global, fault: ImageFault) -> Halt
    ensures { IsBadImage fault result }
{
    if fault == ImageFault::Memory {
        return Halt::Memory;
    }
    match fault_line(alloc, fault) {
        Ok(line) => Halt::BadImage(Items::from_vec(line)),
        Err(_) => Halt::Memory,
    }
}

/// The machine that is to run the image in the job's file.
fn loaded<S: Store>(alloc: Global, job: &Named, store: &mut S) -> Result<Machine, Halt>
    requires { job.now.kind ≡ Exec }
    ensures loads { Loads (named job.now) (S.files store.old) (S.rest store.new)
        (S.read_faults store.old) (S.read_faults store.new) result }
    ensures files { S.files store.new ≡ S.files store.old }
    ensures saves { S.save_faults store.new ≡ S.save_faults store.old }
    ensures later { S.read_faults store.old ≤ S.read_faults store.new }
{
    let bytes = read_file(alloc, job.words.file.as_str(), MOST, store)?;
    match load(alloc, bytes.as_slice(), job.words.arena, job.words.depth) {
        Ok(machine) => Ok(machine),
        Err(fault) => Err(bad_image(alloc, fault)),
    }
}

/// Puts the line that tells how a run ended; nothing where it was done, or where `out` failed.
pub fn tell_end<E: Sink>(end: RunHalt, err: &mut E) -> Status
    ensures { EndTold end
        (record { taken = E.taken err.old; faults = E.faults err.old })
        (record { taken = E.taken err.new; faults = E.faults err.new })
        result }
{
    match end {
        RunHalt::Done => Status::Done,
        RunHalt::Null => put_all(err, b"fault: null\n", Status::Null),
        RunHalt::Zero => put_all(err, b"fault: zero divisor\n", Status::Zero),
        RunHalt::Arena => put_all(err, b"fault: arena full\n", Status::Arena),
        RunHalt::Depth => put_all(err, b"fault: call depth\n", Status::Depth),
        RunHalt::Steps => put_all(err, b"fault: steps\n", Status::Steps),
        RunHalt::WriteFault => Status::WriteFault,
    }
}

/// Runs the machine for at most so many steps, and tells how it ended.
pub fn run_and_tell<O: Sink, E: Sink>(
    mut machine: Machine,
    steps: u64,
    out: &mut O,
    err: &mut E,
) -> Status
    requires fresh { machine.fresh ≡ true }
    requires valid { IsValid machine.image }
    requires arena { machine.arena < 4294967296 }
    ensures { Tells (mach machine.image machine.arena machine.depth steps)
        (record { taken = O.taken out.old; faults = O.faults out.old })
        (record { taken = O.taken out.new; faults = O.faults out.new })
        (record { taken = E.taken err.old; faults = E.faults err.old })
        (record { taken = E.taken err.new; faults = E.faults err.new })
        result }
{
    let end = machine.run(steps, out);
    tell_end(end, err)
}

/// Runs the image in the job's file. What the run prints is put while it runs.
pub fn exec<S: Store, O: Sink, E: Sink>(
    alloc: Global,
    job: &Named,
    store: &mut S,
    out: &mut O,
    err: &mut E,
) -> Status
    requires { job.now.kind ≡ Exec }
    ensures { Does (named job.now)
        (record {
          store = record {
            files = S.files store.old;
            rest = S.rest store.old;
            read_faults = S.read_faults store.old;
            save_faults = S.save_faults store.old;
          };
          out = record { taken = O.taken out.old; faults = O.faults out.old };
          err = record { taken = E.taken err.old; faults = E.faults err.old };
        })
        (record {
          store = record {
            files = S.files store.new;
            rest = S.rest store.new;
            read_faults = S.read_faults store.new;
            save_faults = S.save_faults store.new;
          };
          out = record { taken = O.taken out.new; faults = O.faults out.new };
          err = record { taken = E.taken err.new; faults = E.faults err.new };
        })
        result }
{
    match loaded(alloc, job, store) {
        Ok(machine) => run_and_tell(machine, job.words.steps, out, err),
        Err(halt) => deliver(Err(halt), out, err),
    }
}
