//! Laws of sources: the first three steps of the verdict have one answer, and the order of the source is the
//! order of places.
#![tactic(auto)]

ghost use Rattle.jn_sources.specs.OneVerdict.{TextVerdictIsOne};
ghost use Rattle.jn_sources.specs.SourceOrder.{PlacesAscend};

/// A source is the text of one program, or has one refusal of its text, and not both.
pub fn verdict_is_one()
    ensures { TextVerdictIsOne }
{}

/// What is found twice, and what a body declares, stands in the order of places.
pub fn places_ascend()
    ensures { PlacesAscend }
{}
