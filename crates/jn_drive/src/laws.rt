//! What holds of the jobs, as the contracts of functions that do nothing.

ghost use Rattle.std.specs.Prelude.{◌≡◌, ◌≢◌, ℕ, List};
ghost use Rattle.jn_drive.specs.declared.words.JobKind.TheVariants.{Run};
ghost use Rattle.jn_drive.specs.Again.{ShownAgain};
ghost use Rattle.jn_drive.specs.Reply.{Reply, JobReply};
ghost use Rattle.jn_drive.specs.Verdicts.{ChecksAreVerdicts, RunsTellMeanings, ExecsTellMeanings};
ghost use Rattle.jn_drive.specs.Words.{Job};

/// What `show` puts is a source of the same program but for places, and `show` puts it again.
pub fn shown_again()
    ensures { ShownAgain }
{}

/// Each job but `run` has one reply to some bytes, so what it puts and its status are determined. (How far a run comes
/// within its steps is that of a right image; there may be several.)
pub fn one_reply()
    ensures { (job : Job) (bytes : List ℕ) (a b : Reply) → job.kind ≢ Run → JobReply job bytes a → JobReply job bytes b
        → a ≡ b }
{}

/// What `check` replies to a source is its verdict: it is Done with nothing put where the source is accepted, and else
/// Refused with the line of its refusal.
pub fn checks_are_verdicts()
    ensures { ChecksAreVerdicts }
{}

/// THE HEADLINE. Of each source that is accepted, what `run` replies is the program's meaning: what it puts within n steps
/// is the first part of what the meaning prints, it ends or faults as the meaning does, and conversely within 32 steps a
/// charge and 32 more; and the meaning is never stuck. A refusal names the first rule broken.
pub fn runs_tell_meanings()
    ensures { RunsTellMeanings }
{}

/// So it is of the image that `build` saved, by whichever `exec` it is run.
pub fn execs_tell_meanings()
    ensures { ExecsTellMeanings }
{}
