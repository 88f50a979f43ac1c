ghost use Rattle.jn_sem.specs.LawsOfRuns.{RunIsOne, RunIsThere, RunGoesOn};

/// A program has one run with so many charges, this arena and this depth: its outcome and output are determined.
pub fn run_is_one()
    ensures { RunIsOne }
{}

/// It is not so that a program has no run.
pub fn run_is_there()
    ensures { RunIsThere }
{}

/// With more charges the output goes on from where it was, and an ended run stays as it is.
pub fn run_goes_on()
    ensures { RunGoesOn }
{}
