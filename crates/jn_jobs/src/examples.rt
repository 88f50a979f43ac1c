//! Words worked out: what the definitions say of them.

ghost use Rattle.jn_jobs.specs.Examples.{JobExamples};

/// Seven lists of words, three of them jobs.
pub fn jobs()
    ensures { JobExamples }
{}
