//! The job that the words of the command are.
//!
//! `job` reads `JOB FILE [OUT] [--arena N] [--depth N] [--steps N]`. Which words are which job is the definition
//! `job_of` in specs/Jobs.antt, over what the words say by themselves, `parts` in specs/Parts.antt. The words are split
//! by the parser of command lines, which collects what is given; how often and in which range is asked here.
#![tactic(auto)]

mod command;
pub mod examples;
mod target;

ghost use Rattle.std.specs.Prelude.{◌≡◌, None, Some, map, string_bytes, option_map, IfErr, IfOk};
ghost use Rattle.jn_jobs.specs.Jobs.{job_in, job_of};
ghost use Rattle.jn_jobs.specs.Views.{job_seen, told};
ghost use Rattle.jn_jobs.specs.Command.{parts_of};
ghost use Rattle.clap.specs.Words.{found_of, rows_of};

use crate::command::matches_of;
use crate::target::{Target, bound, target_in};
use clap::ArgMatches;
use std::alloc::{AllocError, Global};

/// What is to be done.
#[derive(Clone, Copy, Debug, PartialEq, Eq)]
pub enum JobKind {
    /// The verdict of a source.
    Check,
    /// The canonical text of a source.
    Show,
    /// The meaning of a source, charge by charge.
    Mean,
    /// The image of a source, saved.
    Build,
    /// An image, run.
    Exec,
    /// A source, run.
    Run,
    /// A generated source, run.
    Big,
}

/// A job: the second positional word, the third of `build`, the number of `big` (0 for every other job), and the
/// bounds of a run: the cells of its arena (1 to 67,108,864), the depth of its calls (1 to 10,000) and its steps
/// (1 to 1,000,000,000,000). A bound that isn't given has its default.
#[derive(Debug, Drop)]
pub struct JobWords {
    pub kind: JobKind,
    pub file: String,
    pub out: Option<String>,
    pub count: u8,
    pub arena: u32,
    pub depth: u32,
    pub steps: u64,
}

/// Why words are no job.
#[derive(Clone, Copy, Debug, PartialEq, Eq)]
pub enum WordsFault {
    /// They are none.
    Usage,
    /// There was no memory to read them.
    Memory,
}

impl From<AllocError> for WordsFault {
    ghost use Rattle.std.specs.Prelude.{◌≡◌};
    ghost use Rattle.jn_jobs.specs.declared.WordsFault.TheVariants.{Memory};

    ghost from_gives = { λ _ e. e ≡ Memory };

    fn from(_error: AllocError) -> WordsFault {
        WordsFault::Memory
    }
}

/// The job that the words behind the program's name are. Usage comes exactly where they are none; Memory may come at
/// any words.
pub fn job(alloc: Global, words: &[String]) -> Result<JobWords, WordsFault>
    ensures ok { IfOk result (λ j. job_of (map string_bytes words.now) ≡ Some (told j)) }
    ensures usage { IfErr result (λ e. e ≡ WordsFault.Usage → job_of (map string_bytes words.now) ≡ None) }
{
    let matches = matches_of(alloc, words)?;
    let Some(found) = found_in(&matches) else {
        return Err(WordsFault::Usage);
    };
    owned(alloc, found)
}

/// A job whose texts are the words themselves.
#[derive(Clone, Copy)]
struct Found<'a> {
    target: Target<'a>,
    arena: u32,
    depth: u32,
    steps: u64,
}

/// The job of what the parser found.
fn found_in<'a>(matches: &ArgMatches<'a>) -> Option<Found<'a>>
    ensures { option_map job_seen result ≡ job_in (parts_of (rows_of (found_of matches.now))) }
{
    let target = target_in(matches.get_raw("words"))?;
    let arena = bound(matches.get_raw("arena"), 1_048_576, 67_108_864)?;
    let depth = bound(matches.get_raw("depth"), 1_000, 10_000)?;
    let steps = bound(matches.get_raw("steps"), 100_000_000, 1_000_000_000_000)?;
    Some(Found {
        target,
        arena: arena as u32,
        depth: depth as u32,
        steps,
    })
}

/// The job, with texts in memory of its own.
fn owned(alloc: Global, found: Found<'_>) -> Result<JobWords, WordsFault>
    ensures ok { IfOk result (λ j. told j ≡ job_seen found.entry) }
    ensures memory { IfErr result (λ e. e ≡ WordsFault.Memory) }
{
    Ok(JobWords {
        kind: found.target.kind,
        file: String::from_str(alloc, found.target.file)?,
        out: owned_text(alloc, found.target.out)?,
        count: found.target.count,
        arena: found.arena,
        depth: found.depth,
        steps: found.steps,
    })
}

/// The text, in memory of its own.
fn owned_text(alloc: Global, text: Option<&str>) -> Result<Option<String>, AllocError>
    ensures { IfOk result (λ made. option_map string_bytes made ≡ option_map (λ t. t.now) text.entry) }
{
    match text {
        None => Ok(None),
        Some(text) => Ok(Some(String::from_str(alloc, text)?)),
    }
}
