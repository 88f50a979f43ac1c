//! Texts worked out by the definitions.

ghost use Rattle.jn_big.specs.Examples.{BigExamples};

/// The source of 2, and what is told of three outputs.
pub fn texts()
    ensures { BigExamples }
{}
