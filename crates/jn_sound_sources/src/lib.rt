//! Soundness of sources: the program of an accepted source is never Stuck.
#![tactic(auto)]

ghost use Rattle.jn_sound_sources.specs.Sources.{SourcesHalt, SourcesNeverStuck};

/// The program of an accepted source is never Stuck.
pub fn sources_never_stuck()
    ensures { SourcesNeverStuck }
{}

/// A run of an accepted source that doesn't ask for more charges ends as a machine can halt: the laws of images ask it.
pub fn sources_halt()
    ensures { SourcesHalt }
{}
