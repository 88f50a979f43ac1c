//! The top call: what `jandc` does with its words, its files and its outputs.
#![tactic(auto)]

mod big;
mod build;
mod exec;
mod halt;
mod job;
pub mod laws;
mod mean;
mod put;
mod read;
mod run;
mod source;
mod status;
mod words;

ghost use Rattle.std.specs.Prelude.{◌≡◌, map, string_bytes, None};
ghost use Rattle.jn_drive.specs.Words.{job_of};
ghost use Rattle.jn_drive.specs.Job.{DoesJob};

use crate::job::do_job;
use crate::put::{misuse, no_memory};
use crate::words::job_in;
use jn_io::{Sink, Store};
use jn_jobs::WordsFault;
pub use status::Status;
use std::alloc::Global;

/// Does the job that the words are: `show FILE` puts the canonical text of the program that the file spells on `out`,
/// `check FILE` puts nothing, `run FILE` compiles the program and runs it, `mean FILE` runs its meaning as it is defined,
/// `build FILE OUT` saves its image, `exec FILE` runs an image, and `big N` runs the source that is made of the number and
/// puts a summary. A source that spells no program is refused by a line on `err`, and by each of these jobs but `show` each
/// one that breaks a rule. The options `--arena`, `--depth` and `--steps` may come with each job, and bound what `run`,
/// `mean`, `exec` and `big` run; the steps of `mean` are charges. All other words are answered by the usage line.
///
/// `DoesJob` in specs/Job.antt says for each status when it comes, and what the files and the outputs
/// then are.
pub fn top<S: Store, O: Sink, E: Sink>(
    alloc: Global,
    words: &[String],
    store: &mut S,
    out: &mut O,
    err: &mut E,
) -> Status
    // Usage comes only where the words are no job that there is.
    ensures usage { result ≡ Status.Usage → job_of (map string_bytes words.now) ≡ None }
    // By the job: from what is seen of the store and the outputs before the call, to what is seen after.
    ensures job { DoesJob (job_of (map string_bytes words.now))
        (record {
          store = record {
            files = S.files store.old;
            rest = S.rest store.old;
            read_faults = S.read_faults store.old;
            save_faults = S.save_faults store.old;
          };
          out = record { taken = O.taken out.old; faults = O.faults out.old };
          err = record { taken = E.taken err.old; faults = E.faults err.old };
        })
        (record {
          store = record {
            files = S.files store.new;
            rest = S.rest store.new;
            read_faults = S.read_faults store.new;
            save_faults = S.save_faults store.new;
          };
          out = record { taken = O.taken out.new; faults = O.faults out.new };
          err = record { taken = E.taken err.new; faults = E.faults err.new };
        })
        result }
{
    match job_in(alloc, words) {
        Ok(job) => do_job(alloc, &job, store, out, err),
        Err(WordsFault::Usage) => misuse(err),
        Err(WordsFault::Memory) => no_memory(err),
    }
}
