//! Expressions and texts worked out by the definitions, and what is proved of the definitions.

ghost use Rattle.jn_printer.specs.EscapeLaw.{EscapedReads};
ghost use Rattle.jn_printer.specs.OperandLaw.{OperandLaw};
ghost use Rattle.jn_printer.specs.WayBack.{PlacesUnseen};
ghost use Rattle.jn_printer.specs.Examples.{ChainExamples, PartExamples, StmtExamples, PlaceExamples, EscapeExample};

/// Chains as operands of chains.
pub fn chains()
    ensures { ChainExamples }
{}

/// Prefix operators, views, and what stands behind a dot.
pub fn parts()
    ensures { PartExamples }
{}

/// Statements whose text drops or keeps parentheses, and an `else` with nothing in it.
pub fn statements()
    ensures { StmtExamples }
{}

/// Trees that are the same but for places, and two that are not.
pub fn places()
    ensures { PlaceExamples }
{}

/// The escapes of a text.
pub fn escapes()
    ensures { EscapeExample }
{}

/// What is written between the quotes of a text reads as the text.
pub fn escapes_read()
    ensures { EscapedReads }
{}

/// Where an expression stands at the place of a symbol, its own symbol is an instance of that one, or it stands in
/// parentheses; and an instance of a symbol is one of each looser symbol.
pub fn operands()
    ensures { OperandLaw }
{}

/// Programs that are the same but for places have one canonical text.
pub fn places_unseen()
    ensures { PlacesUnseen }
{}
