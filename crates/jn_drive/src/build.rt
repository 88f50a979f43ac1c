ghost use Rattle.std.specs.Prelude.{◌≡◌, ◌≤◌, IsSome, Some};
ghost use Rattle.jn_drive.specs.Built.{Writes};
ghost use Rattle.jn_drive.specs.Saved.{IsSaved};
ghost use Rattle.jn_drive.specs.Job.{Does};
ghost use Rattle.jn_drive.specs.Words.{named};
ghost use Rattle.jn_drive.specs.declared.words.JobKind.TheVariants.{Build};

use crate::halt::Halt;
use crate::put::{deliver, no_memory};
use crate::read::read_file;
use crate::run::built;
use crate::source::LIMIT;
use crate::status::Status;
use crate::words::Named;
use jn_imagefile::write_image;
use jn_io::{SaveFault, Sink, Store};
use sqlite_items::Items;
use std::alloc::Global;

/// The bytes of the image of the program in the job's file.
fn image_bytes<S: Store>(alloc: Global, job: &Named, store: &mut S) -> Result<Items<u8>, Halt>
    requires { job.now.kind ≡ Build }
    ensures writes { Writes (named job.now) (S.files store.old) (S.rest store.new)
        (S.read_faults store.old) (S.read_faults store.new) result }
    ensures files { S.files store.new ≡ S.files store.old }
    ensures saves { S.save_faults store.new ≡ S.save_faults store.old }
    ensures later { S.read_faults store.old ≤ S.read_faults store.new }
{
    let source = read_file(alloc, job.words.file.as_str(), LIMIT + 1, store)?;
    let image = built(alloc, source.as_slice())?;
    Ok(Items::from_vec(write_image(alloc, image.image())?))
}

/// Saves the bytes as the file of this name, and gives how that went.
fn save<S: Store, E: Sink>(name: &str, bytes: &[u8], store: &mut S, err: &mut E) -> Status
    ensures saved { IsSaved name.now bytes.now (S.files store.old) (S.files store.new)
        (S.save_faults store.old) (S.save_faults store.new)
        (record { taken = E.taken err.old; faults = E.faults err.old })
        (record { taken = E.taken err.new; faults = E.faults err.new })
        result }
    ensures rest { S.rest store.new ≡ S.rest store.old }
    ensures reads { S.read_faults store.new ≡ S.read_faults store.old }
    ensures later { S.save_faults store.old ≤ S.save_faults store.new }
{
    match store.save(name, bytes) {
        Ok(()) => Status::Done,
        Err(SaveFault::Failed) => Status::WriteFault,
        Err(SaveFault::Memory) => no_memory(err),
    }
}

/// The name of the file that `build` makes.
fn out_name(job: &Named) -> &str
    requires { IsSome (named job.now).out }
    ensures { (named job.now).out ≡ Some result.now }
{
    match &job.words.out {
        Some(name) => name.as_str(),
        None => unreachable!(),
    }
}

/// Saves the image of the program in the job's file, where its source is accepted.
pub fn build<S: Store, O: Sink, E: Sink>(
    alloc: Global,
    job: &Named,
    store: &mut S,
    out: &mut O,
    err: &mut E,
) -> Status
    requires kind { job.now.kind ≡ Build }
    requires out { IsSome (named job.now).out }
    ensures { Does (named job.now)
        (record {
          store = record {
            files = S.files store.old;
            rest = S.rest store.old;
            read_faults = S.read_faults store.old;
            save_faults = S.save_faults store.old;
          };
          out = record { taken = O.taken out.old; faults = O.faults out.old };
          err = record { taken = E.taken err.old; faults = E.faults err.old };
        })
        (record {
          store = record {
            files = S.files store.new;
            rest = S.rest store.new;
            read_faults = S.read_faults store.new;
            save_faults = S.save_faults store.new;
          };
          out = record { taken = O.taken out.new; faults = O.faults out.new };
          err = record { taken = E.taken err.new; faults = E.faults err.new };
        })
        result }
{
    match image_bytes(alloc, job, store) {
        Ok(bytes) => save(out_name(job), bytes.as_slice(), store, err),
        Err(halt) => deliver(Err(halt), out, err),
    }
}
