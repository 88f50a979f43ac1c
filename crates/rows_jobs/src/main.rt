//! The rows of the words of the command: a list of words, against the job that they are.
//!
//! The program reads the files of cases that its words name, and says of each how many of its cases differ. A case asks
//! for the job of `words`. It wants that of the word `kind` with `file`, `out`, `count`, `arena`, `depth` and `steps`,
//! where a number that it doesn't give is the job's own without options, and there is no `out` where it gives none. A
//! case without `kind` wants the answer that the words are no job.
#![tactic(auto)]

use jn_cases::{Case, CasesFault, Rows, Tally, run_files};
use jn_jobs::{JobKind, JobWords, WordsFault, job};
use std::alloc::{AllocError, Global};

const KEYS: [&str; 8] = [
    "words", "kind", "file", "out", "count", "arena", "depth", "steps",
];

struct JobRows;

impl Rows for JobRows {
    fn run(&self, alloc: Global, case: &Case, tally: &mut Tally) -> Result<(), CasesFault> {
        tally.keys(case, &KEYS)?;
        let words = case.texts(alloc, "words")?;
        match job(alloc, words.as_slice()) {
            Ok(job) => Ok(compare(case, &job, tally)?),
            Err(WordsFault::Usage) => Ok(compare_kind(case, "none", tally)?),
            Err(WordsFault::Memory) => Ok(tally.fault("kind", "there was no memory")?),
        }
    }
}

fn main(rt: HostRuntime) -> anyhow::Result<()> {
    run_files(&rt, &JobRows)
}

fn kind_name(kind: JobKind) -> &'static str {
    match kind {
        JobKind::Check => "check",
        JobKind::Show => "show",
        JobKind::Mean => "mean",
        JobKind::Build => "build",
        JobKind::Exec => "exec",
        JobKind::Run => "run",
        JobKind::Big => "big",
    }
}

fn compare_kind(case: &Case, came: &str, tally: &mut Tally) -> Result<(), AllocError> {
    let wanted = case.text("kind").unwrap_or("none");
    tally.bytes("kind", wanted.as_bytes(), came.as_bytes())
}

fn compare(case: &Case, job: &JobWords, tally: &mut Tally) -> Result<(), AllocError> {
    compare_kind(case, kind_name(job.kind), tally)?;
    let file = case.text("file").unwrap_or("no key `file`");
    tally.bytes("file", file.as_bytes(), job.file.as_bytes())?;
    compare_out(case, &job.out, tally)?;
    compare_number(case, ("count", 0), i64::from(job.count), tally)?;
    compare_number(case, ("arena", 1_048_576), i64::from(job.arena), tally)?;
    compare_number(case, ("depth", 1_000), i64::from(job.depth), tally)?;
    let steps = i64::try_from(job.steps).unwrap_or(-1);
    compare_number(case, ("steps", 100_000_000), steps, tally)
}

fn compare_out(case: &Case, came: &Option<String>, tally: &mut Tally) -> Result<(), AllocError> {
    match (case.text("out"), came) {
        (None, None) => Ok(()),
        (Some(wanted), Some(came)) => tally.bytes("out", wanted.as_bytes(), came.as_bytes()),
        (Some(_), None) => tally.fault("out", "there is none"),
        (None, Some(_)) => tally.fault("out", "there is one"),
    }
}

/// Compares a number with the one of the key, or without it the one that stands there by itself.
fn compare_number(
    case: &Case,
    (key, default): (&str, i64),
    came: i64,
    tally: &mut Tally,
) -> Result<(), AllocError> {
    tally.number(key, case.number(key).unwrap_or(default), came)
}
