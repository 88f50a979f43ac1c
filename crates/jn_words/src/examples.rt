//! Lines worked out by the definition.

ghost use Rattle.jn_words.specs.Examples.{LineExamples};

/// The lines of five refusals.
pub fn lines()
    ensures { LineExamples }
{}
