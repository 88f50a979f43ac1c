ghost use Rattle.std.specs.Prelude.{◌≡◌, ◌≤◌};
ghost use Rattle.jn_base.specs.WithinLimits.{IsWithinLimits};
ghost use Rattle.jn_rules.specs.Verdict.{TreePasses};
ghost use Rattle.jn_drive.specs.Job.{Does};
ghost use Rattle.jn_drive.specs.Means.{Accepts, Finds, IsUnstuck, OutcomeTold, MeaningTold};
ghost use Rattle.jn_drive.specs.Words.{named};
ghost use Rattle.jn_drive.specs.declared.words.JobKind.TheVariants.{Mean};

use crate::halt::Halt;
use crate::put::{deliver, no_memory, put_all};
use crate::read::read_file;
use crate::source::{LIMIT, accepted, parsed};
use crate::status::Status;
use crate::words::Named;
use jn_base::tree::Program;
use jn_io::{Sink, Store};
use jn_meaning::MeanFault;
use jn_sem::outcome::Outcome;
use std::alloc::Global;

/// The program that the bytes of a source spell, where it is accepted.
fn program_of(alloc: Global, source: &[u8]) -> Result<Program, Halt>
    ensures { Accepts source.now result }
{
    let program = parsed(alloc, source)?;
    let _world = accepted(alloc, &program)?;
    Ok(program)
}

/// The program in the job's file, where it is accepted.
fn found<S: Store>(alloc: Global, job: &Named, store: &mut S) -> Result<Program, Halt>
    requires { job.now.kind ≡ Mean }
    ensures finds { Finds (named job.now) (S.files store.old) (S.rest store.new)
        (S.read_faults store.old) (S.read_faults store.new) result }
    ensures files { S.files store.new ≡ S.files store.old }
    ensures saves { S.save_faults store.new ≡ S.save_faults store.old }
    ensures later { S.read_faults store.old ≤ S.read_faults store.new }
{
    let source = read_file(alloc, job.words.file.as_str(), LIMIT + 1, store)?;
    program_of(alloc, source.as_slice())
}

/// Puts the line that tells how a meaning ended; nothing where it was done.
fn tell_outcome<E: Sink>(outcome: Outcome, err: &mut E) -> Status
    requires { IsUnstuck outcome }
    ensures { OutcomeTold outcome
        (record { taken = E.taken err.old; faults = E.faults err.old })
        (record { taken = E.taken err.new; faults = E.faults err.new })
        result }
{
    match outcome {
        Outcome::Ends => Status::Done,
        Outcome::Null => put_all(err, b"fault: null\n", Status::Null),
        Outcome::Zero => put_all(err, b"fault: zero divisor\n", Status::Zero),
        Outcome::Arena => put_all(err, b"fault: arena full\n", Status::Arena),
        Outcome::Depth => put_all(err, b"fault: call depth\n", Status::Depth),
        Outcome::More => put_all(err, b"fault: steps\n", Status::Steps),
        Outcome::Stuck(_) => unreachable!(),
    }
}

/// Runs the meaning of an accepted program within the bounds of the job, and tells how it ended.
fn run_and_tell<O: Sink, E: Sink>(
    alloc: Global,
    program: &Program,
    job: &Named,
    out: &mut O,
    err: &mut E,
) -> Status
    requires limits { IsWithinLimits program.now }
    requires passes { TreePasses program.now }
    ensures { MeaningTold program.now job.now.words.arena job.now.words.depth job.now.words.steps
        (record { taken = O.taken out.old; faults = O.faults out.old })
        (record { taken = O.taken out.new; faults = O.faults out.new })
        (record { taken = E.taken err.old; faults = E.faults err.old })
        (record { taken = E.taken err.new; faults = E.faults err.new })
        result }
{
    let words = &job.words;
    match jn_mean::mean(alloc, program, words.steps, words.arena, words.depth, out) {
        Ok(outcome) => tell_outcome(outcome, err),
        Err(MeanFault::WriteFault) => Status::WriteFault,
        Err(MeanFault::Memory) => no_memory(err),
    }
}

/// Runs the meaning of the program in the job's file. What it prints is put while it runs.
pub fn mean<S: Store, O: Sink, E: Sink>(
    alloc: Global,
    job: &Named,
    store: &mut S,
    out: &mut O,
    err: &mut E,
) -> Status
    requires { job.now.kind ≡ Mean }
    ensures { Does (named job.now)
        (record {
          store = record {
            files = S.files store.old;
            rest = S.rest store.old;
            read_faults = S.read_faults store.old;
            save_faults = S.save_faults store.old;
          };
          out = record { taken = O.taken out.old; faults = O.faults out.old };
          err = record { taken = E.taken err.old; faults = E.faults err.old };
        })
        (record {
          store = record {
            files = S.files store.new;
            rest = S.rest store.new;
            read_faults = S.read_faults store.new;
            save_faults = S.save_faults store.new;
          };
          out = record { taken = O.taken out.new; faults = O.faults out.new };
          err = record { taken = E.taken err.new; faults = E.faults err.new };
        })
        result }
{
    match found(alloc, job, store) {
        Ok(program) => run_and_tell(alloc, &program, job, out, err),
        Err(halt) => deliver(Err(halt), out, err),
    }
}
