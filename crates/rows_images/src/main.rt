//! Rows of images: reads the files of cases that its words name, makes the image of each case's source, writes it,
//! reads it back and verifies it. Its last lines count the cases and those that differ.
//!
//! With the job `code` a case wants the code of the body `of`, as `Main.m`, or of the `start`: its instructions, each
//! with its operand behind a colon; and where it says them `params`, `locals`, `result` and `stack`. A class stands
//! as its path, a method as its name with the kinds of its parameters and its result, a field as its name with its
//! kind.
//!
//! With the job `run` each text of `runs` has the cells of the arena, the greatest depth, the steps, the halt, and
//! how many lines of `out` come: the machine runs the image so, and the program's meaning has to agree, also for each
//! number of steps up to the last number of `sweep`, within the arena and the depth before it. With the job `ratio`
//! it tells how many instructions the image takes for how many charges. With `family` a family of packages stands
//! before the source.
#![tactic(auto)]

mod body;
mod built;
mod code;
mod family;
mod labels;
mod meaning;
mod ratio;
mod running;
mod sweep;

ghost use Rattle.rows_images.specs.Accepted.{IsAccepted};

use crate::body::check_body;
use crate::built::{Built, Unbuilt, build};
use crate::family::source_of;
use crate::ratio::tell_ratio;
use crate::running::check_runs;
use crate::sweep::check_sweep;
use jn_cases::{Case, CasesFault, Rows, Tally, run_files};
use std::alloc::Global;

const KEYS: [&str; 15] = [
    "job",
    "source",
    "source_parts",
    "family",
    "of",
    "params",
    "locals",
    "result",
    "stack",
    "code",
    "code_parts",
    "runs",
    "sweep",
    "out",
    "out_parts",
];

struct ImageRows;

impl Rows for ImageRows {
    fn run(&self, alloc: Global, case: &Case, tally: &mut Tally) -> Result<(), CasesFault> {
        tally.keys(case, &KEYS)?;
        let source = source_of(alloc, case)?;
        match build(alloc, source.as_slice()) {
            Ok(made) => do_job(alloc, case, &made, tally),
            Err(Unbuilt::Refused(line)) => {
                Ok(tally.bytes("verdict", b"accepted", line.as_slice())?)
            }
            Err(Unbuilt::Memory) => Ok(tally.fault("the image", "no memory for it")?),
        }
    }
}

fn do_job(alloc: Global, case: &Case, made: &Built, tally: &mut Tally) -> Result<(), CasesFault>
    requires { IsAccepted made.now.program }
{
    match case.text("job").unwrap_or("none") {
        "code" => check_body(alloc, case, made, tally),
        "run" => {
            check_runs(alloc, case, made, tally)?;
            check_sweep(alloc, case, made, tally)
        }
        "ratio" => tell_ratio(alloc, made, tally),
        job => Ok(tally.fault("job", job)?),
    }
}

fn main(rt: HostRuntime) -> anyhow::Result<()> {
    run_files(&rt, &ImageRows)
}
