ghost use Rattle.jn_laws.specs.LawsOfBodies.{SourcesBodiesFormed, TextsHaveFewLocals};
ghost use Rattle.jn_laws.specs.LawsOfPlaces.{ProgramsWithinLimits};
ghost use Rattle.jn_laws.specs.LawsOfSources.{SourcesBracketsNamed, SourcesWellFormed, TextsKeepLimits, TextsNameFew};

/// In a program that a source spells the types of headers have terms, with names before each bracket.
pub fn sources_well_formed()
    ensures { SourcesWellFormed }
{}

/// In a program that a source spells names stand before each bracket of a field's type.
pub fn sources_brackets_named()
    ensures { SourcesBracketsNamed }
{}

/// A program whose source no limit refuses has at most 65,535 names.
pub fn texts_name_few()
    ensures { TextsNameFew }
{}

/// In a program whose source no limit refuses, paths have at most 8 names and methods at most 15 parameters.
pub fn texts_keep_limits()
    ensures { TextsKeepLimits }
{}

/// In a program that a source spells the types and terms of bodies have names before each bracket.
pub fn sources_bodies_formed()
    ensures { SourcesBodiesFormed }
{}

/// In a program whose source no limit refuses the parameters and locals of a body have paths below 216.
pub fn texts_have_few_locals()
    ensures { TextsHaveFewLocals }
{}

/// A program within the limits has what a program has that a source spells.
pub fn programs_within_limits()
    ensures { ProgramsWithinLimits }
{}
