//! A code with kinds by parts has no fault of its own.
//!
//! The definition is `Spans` of `jn_agree`: a part of a code takes the kinds of the operands from some to others.
#![tactic(auto)]

ghost use Rattle.jn_span_laws.specs.LawsOfForms.{FormsSpan};
ghost use Rattle.jn_span_laws.specs.LawsOfSpans.{PartsJoin, WholePartsPass};

/// Parts that stand one behind the other are one part, an instruction that neither jumps nor ends is one, and so
/// are the
/// instructions of `&&` and `||` behind their left operand.
pub fn parts_join()
    ensures { PartsJoin }
{}

/// A code that is one part, from no operands to any, and whose last instruction doesn't go on, has no fault of its own.
pub fn whole_parts_pass()
    ensures { WholePartsPass }
{}

/// An instruction with the kinds that it asks for is a part, and so are the class of an atom, what brings `this` below
/// the first argument of `super`, `if` and `while` from their parts, returns and the tests of parameters. The code of a
/// body whose statements are a part has no fault of its own.
pub fn forms_span()
    ensures { FormsSpan }
{}
