//! The verdict of a source: it is accepted, or has one refusal.
#![tactic(auto)]

ghost use Rattle.jn_verdicts.specs.LawsOfSources.{SourcesHaveOneVerdict};

/// A source is accepted or has one refusal, never both, and surely one of these is so.
pub fn sources_have_one_verdict()
    ensures { SourcesHaveOneVerdict }
{}
