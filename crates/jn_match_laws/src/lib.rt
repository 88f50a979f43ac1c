//! An arena that matches a heap still matches it after a store and after a new object; and what an image's rows say of
//! groups, cells and views.
#![tactic(auto)]

ghost use Rattle.jn_match_laws.specs.LawsOfMatching.{MatchingHolds};

/// Where an image has a program's rows: a store and a new object keep the match of arena and heap.
pub fn matching_holds()
    ensures { MatchingHolds }
{}
