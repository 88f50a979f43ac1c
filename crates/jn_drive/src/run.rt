ghost use Rattle.std.specs.Prelude.{◌≡◌, ◌≤◌, List, ℕ, IfOk};
ghost use Rattle.jn_base.specs.Spelling.{IsTextOf};
ghost use Rattle.jn_rules.specs.Verdict.{TreePasses};
ghost use Rattle.jn_check.specs.Worlds.{IsWorld};
ghost use Rattle.jn_agree.specs.Agrees.{InRange};
ghost use Rattle.jn_link.specs.Joined.{IsImageOf};
ghost use Rattle.jn_drive.specs.Built.{Builds, Makes};
ghost use Rattle.jn_drive.specs.Job.{Does};
ghost use Rattle.jn_drive.specs.Words.{named};
ghost use Rattle.jn_drive.specs.declared.words.JobKind.TheVariants.{Run};

use crate::exec::run_and_tell;
use crate::halt::Halt;
use crate::put::deliver;
use crate::read::read_file;
use crate::source::{LIMIT, accepted, parsed};
use crate::status::Status;
use crate::words::Named;
use jn_base::tree::Program;
use jn_check::World;
use jn_code::Image;
use jn_io::{Sink, Store};
use jn_link::image;
use jn_machine::Machine;
use jn_verify::{Good, verify};
use std::alloc::{AllocError, Global};

/// The image of an accepted program.
fn image_of(alloc: Global, program: &Program, world: &World) -> Result<Image, AllocError>
    requires passes { TreePasses program.now }
    requires world { IsWorld program.now world.now }
    ensures { IfOk result (λ i. (bytes : List ℕ) → IsTextOf program.now bytes → IsImageOf program.now i) }
{
    image(
        alloc,
        program,
        &world.table,
        &world.members,
        &world.groups,
        &world.slots,
        world.bodies.as_slice(),
    )
}

/// The image of the program that the bytes of a source spell.
///
/// It is valid, so only want of memory can keep `verify` from saying so.
pub fn built(alloc: Global, source: &[u8]) -> Result<Good, Halt>
    ensures { Builds source.now result }
{
    let program = parsed(alloc, source)?;
    let world = accepted(alloc, &program)?;
    let image = image_of(alloc, &program, &world)?;
    match verify(alloc, image) {
        Ok(good) => Ok(good),
        Err(_) => Err(Halt::Memory),
    }
}

/// The machine that is to run the program in the job's file.
fn made<S: Store>(alloc: Global, job: &Named, store: &mut S) -> Result<Machine, Halt>
    requires { job.now.kind ≡ Run }
    ensures makes { Makes (named job.now) (S.files store.old) (S.rest store.new)
        (S.read_faults store.old) (S.read_faults store.new) result }
    ensures files { S.files store.new ≡ S.files store.old }
    ensures saves { S.save_faults store.new ≡ S.save_faults store.old }
    ensures later { S.read_faults store.old ≤ S.read_faults store.new }
{
    let source = read_file(alloc, job.words.file.as_str(), LIMIT + 1, store)?;
    let image = built(alloc, source.as_slice())?;
    Ok(Machine::make(alloc, image, job.words.arena, job.words.depth)?)
}

/// Runs the program in the job's file. What it prints is put while it runs.
pub fn run<S: Store, O: Sink, E: Sink>(
    alloc: Global,
    job: &Named,
    store: &mut S,
    out: &mut O,
    err: &mut E,
) -> Status
    requires kind { job.now.kind ≡ Run }
    requires bounds { InRange (named job.now).arena (named job.now).depth }
    ensures { Does (named job.now)
        (record {
          store = record {
            files = S.files store.old;
            rest = S.rest store.old;
            read_faults = S.read_faults store.old;
            save_faults = S.save_faults store.old;
          };
          out = record { taken = O.taken out.old; faults = O.faults out.old };
          err = record { taken = E.taken err.old; faults = E.faults err.old };
        })
        (record {
          store = record {
            files = S.files store.new;
            rest = S.rest store.new;
            read_faults = S.read_faults store.new;
            save_faults = S.save_faults store.new;
          };
          out = record { taken = O.taken out.new; faults = O.faults out.new };
          err = record { taken = E.taken err.new; faults = E.faults err.new };
        })
        result }
{
    match made(alloc, job, store) {
        Ok(machine) => run_and_tell(machine, job.words.steps, out, err),
        Err(halt) => deliver(Err(halt), out, err),
    }
}
