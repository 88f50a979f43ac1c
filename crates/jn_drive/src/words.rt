ghost use Rattle.std.specs.Prelude.{◌≡◌, IfErr, IfOk, None, Some, map, string_bytes};
ghost use Rattle.jn_drive.specs.Words.{job_of, kind_here, task_of, IsBounded, HasOut};

use jn_jobs::{JobWords, WordsFault, job};
use std::alloc::Global;

/// What is done with a source.
#[derive(Clone, Copy, Debug, PartialEq, Eq)]
pub enum SourceJob {
    /// Puts the canonical text of a program.
    Show,
    /// Tells what is refused of a program.
    Check,
}

/// The jobs that there are.
#[derive(Clone, Copy, Debug, PartialEq, Eq)]
pub enum JobKind {
    /// One that puts what a source comes to.
    OnSource(SourceJob),
    /// Runs a program.
    Run,
    /// Runs the meaning of a source.
    Mean,
    /// Saves the image of a program.
    Build,
    /// Runs an image.
    Exec,
}

/// A job that there is, and its words.
#[derive(Debug, Drop)]
pub struct Named {
    pub kind: JobKind,
    pub words: JobWords,
}

/// What the words ask for.
#[derive(Debug, Drop)]
pub enum Asked {
    /// A job on a file.
    OnFile(Named),
    /// `big`, of the number that these words have.
    Big(JobWords),
}

/// The job that the words are. Usage comes exactly where they are none; Memory may come at any words.
#[tactic(auto, using(crate::proofs::Wording::job_named, crate::proofs::Wording::number_named))]
pub fn job_in(alloc: Global, words: &[String]) -> Result<Asked, WordsFault>
    ensures ok { IfOk result (λ a. job_of (map string_bytes words.now) ≡ Some (task_of a)) }
    ensures range { IfOk result (λ a. IsBounded a) }
    ensures out { IfOk result (λ a. HasOut a) }
    ensures usage { IfErr result (λ e. e ≡ WordsFault.Usage → job_of (map string_bytes words.now) ≡ None) }
{
    let words = job(alloc, words)?;
    match kind_here(words.kind) {
        Some(kind) => Ok(Asked::OnFile(Named { kind, words })),
        None => Ok(Asked::Big(words)),
    }
}

/// The kind of a job on a file. (`big` is none: it reads no file.)
fn kind_here(kind: jn_jobs::JobKind) -> Option<JobKind>
    ensures { result ≡ kind_here kind }
{
    match kind {
        jn_jobs::JobKind::Show => Some(JobKind::OnSource(SourceJob::Show)),
        jn_jobs::JobKind::Run => Some(JobKind::Run),
        jn_jobs::JobKind::Check => Some(JobKind::OnSource(SourceJob::Check)),
        jn_jobs::JobKind::Mean => Some(JobKind::Mean),
        jn_jobs::JobKind::Build => Some(JobKind::Build),
        jn_jobs::JobKind::Exec => Some(JobKind::Exec),
        jn_jobs::JobKind::Big => None,
    }
}
