ghost use Rattle.std.specs.Prelude.{◌≡◌, ◌≤◌, IsSome, Some};
ghost use Rattle.jn_base.specs.WithinLimits.{IsWithinLimits};
ghost use Rattle.jn_agree.specs.Agrees.{InRange};
ghost use Rattle.jn_drive.specs.declared.words.SourceJob.TheVariants.{Check};
ghost use Rattle.jn_drive.specs.declared.words.JobKind.TheVariants.{OnSource, Build};
ghost use Rattle.jn_drive.specs.Words.{named, task_of, IsBounded, HasOut};
ghost use Rattle.jn_drive.specs.Answer.{AnswersTree, Judges, Answers};
ghost use Rattle.jn_drive.specs.Job.{Does, DoesJob};

use crate::big::run_big;
use crate::build::build;
use crate::exec::exec;
use crate::halt::Halt;
use crate::mean::mean;
use crate::put::deliver;
use crate::read::read_file;
use crate::run::run;
use crate::source::{LIMIT, accepted, parsed};
use crate::status::Status;
use crate::words::{Asked, JobKind, Named, SourceJob};
use jn_base::tree::Program;
use jn_io::{Sink, Store};
use jn_printer::print_program;
use sqlite_items::Items;
use std::alloc::Global;

/// What the file's bytes come to.
///
/// The file is read whole first, or its first 1,048,577 bytes.
fn answer<S: Store>(
    alloc: Global,
    kind: SourceJob,
    file: &str,
    store: &mut S,
) -> Result<Items<u8>, Halt>
    ensures answer { Answers kind 1048577 (S.files store.old) file.now (S.rest store.new)
        (S.read_faults store.old) (S.read_faults store.new) result }
    ensures files { S.files store.new ≡ S.files store.old }
    ensures saves { S.save_faults store.new ≡ S.save_faults store.old }
    ensures later { S.read_faults store.old ≤ S.read_faults store.new }
{
    let source = read_file(alloc, file, LIMIT + 1, store)?;
    judge(alloc, kind, source.as_slice())
}

/// What the bytes of a source come to.
fn judge(alloc: Global, kind: SourceJob, source: &[u8]) -> Result<Items<u8>, Halt>
    ensures { Judges kind source.now result }
{
    let program = parsed(alloc, source)?;
    answer_tree(alloc, kind, &program)
}

/// What a tree comes to.
fn answer_tree(alloc: Global, kind: SourceJob, program: &Program) -> Result<Items<u8>, Halt>
    requires { IsWithinLimits program.now }
    ensures { AnswersTree program.now kind result }
{
    match kind {
        SourceJob::Show => Ok(Items::from_vec(print_program(alloc, program)?)),
        SourceJob::Check => checked(alloc, program),
    }
}

/// What a tree comes to by its verdict: nothing is put where it passes.
fn checked(alloc: Global, program: &Program) -> Result<Items<u8>, Halt>
    requires { IsWithinLimits program.now }
    ensures { AnswersTree program.now Check result }
{
    let _ = accepted(alloc, program)?;
    Ok(Items::new(alloc))
}

/// A job on a source. Its reply is made first, and then put.
fn on_source<S: Store, O: Sink, E: Sink>(
    alloc: Global,
    kind: SourceJob,
    job: &Named,
    store: &mut S,
    out: &mut O,
    err: &mut E,
) -> Status
    requires { job.now.kind ≡ OnSource kind }
    ensures { Does (named job.now)
        (record {
          store = record {
            files = S.files store.old;
            rest = S.rest store.old;
            read_faults = S.read_faults store.old;
            save_faults = S.save_faults store.old;
          };
          out = record { taken = O.taken out.old; faults = O.faults out.old };
          err = record { taken = E.taken err.old; faults = E.faults err.old };
        })
        (record {
          store = record {
            files = S.files store.new;
            rest = S.rest store.new;
            read_faults = S.read_faults store.new;
            save_faults = S.save_faults store.new;
          };
          out = record { taken = O.taken out.new; faults = O.faults out.new };
          err = record { taken = E.taken err.new; faults = E.faults err.new };
        })
        result }
{
    let answer = answer(alloc, kind, job.words.file.as_str(), store);
    deliver(answer, out, err)
}

/// A job on a file. Its arena and its depth are in their ranges, and `build` has the name of the file that it makes.
fn on_file<S: Store, O: Sink, E: Sink>(
    alloc: Global,
    job: &Named,
    store: &mut S,
    out: &mut O,
    err: &mut E,
) -> Status
    requires bounds { InRange (named job.now).arena (named job.now).depth }
    requires out { (named job.now).kind ≡ Build → IsSome (named job.now).out }
    ensures { Does (named job.now)
        (record {
          store = record {
            files = S.files store.old;
            rest = S.rest store.old;
            read_faults = S.read_faults store.old;
            save_faults = S.save_faults store.old;
          };
          out = record { taken = O.taken out.old; faults = O.faults out.old };
          err = record { taken = E.taken err.old; faults = E.faults err.old };
        })
        (record {
          store = record {
            files = S.files store.new;
            rest = S.rest store.new;
            read_faults = S.read_faults store.new;
            save_faults = S.save_faults store.new;
          };
          out = record { taken = O.taken out.new; faults = O.faults out.new };
          err = record { taken = E.taken err.new; faults = E.faults err.new };
        })
        result }
{
    match job.kind {
        JobKind::OnSource(kind) => on_source(alloc, kind, job, store, out, err),
        JobKind::Run => run(alloc, job, store, out, err),
        JobKind::Build => build(alloc, job, store, out, err),
        JobKind::Mean => mean(alloc, job, store, out, err),
        JobKind::Exec => exec(alloc, job, store, out, err),
    }
}

/// What the words ask for. The bounds are in their ranges, and `build` has the name of the file that it makes.
pub fn do_job<S: Store, O: Sink, E: Sink>(
    alloc: Global,
    job: &Asked,
    store: &mut S,
    out: &mut O,
    err: &mut E,
) -> Status
    requires bounds { IsBounded job.now }
    requires out { HasOut job.now }
    ensures { DoesJob (Some (task_of job.now))
        (record {
          store = record {
            files = S.files store.old;
            rest = S.rest store.old;
            read_faults = S.read_faults store.old;
            save_faults = S.save_faults store.old;
          };
          out = record { taken = O.taken out.old; faults = O.faults out.old };
          err = record { taken = E.taken err.old; faults = E.faults err.old };
        })
        (record {
          store = record {
            files = S.files store.new;
            rest = S.rest store.new;
            read_faults = S.read_faults store.new;
            save_faults = S.save_faults store.new;
          };
          out = record { taken = O.taken out.new; faults = O.faults out.new };
          err = record { taken = E.taken err.new; faults = E.faults err.new };
        })
        result }
{
    match job {
        Asked::OnFile(named) => on_file(alloc, named, store, out, err),
        Asked::Big(words) => run_big(alloc, words, out, err),
    }
}
