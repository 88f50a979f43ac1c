ghost use Rattle.jn_base.specs.DuplicatesExample.{DuplicatesExample};
ghost use Rattle.jn_base.specs.FamiliesExample.{FamiliesExample};
ghost use Rattle.jn_base.specs.ResolveExamples.{ResolveExamples, MaskExamples};
ghost use Rattle.jn_base.specs.SmallExamples.{ConflictExample, CycleExample, MixedExample, JoinedExample};
ghost use Rattle.jn_base.specs.VerdictExamples.{VerdictExamples};

/// The supers and members of the classes of a family that joins two heirs of one family.
pub fn joined_families()
    ensures { FamiliesExample }
{}

/// A method that an intersection has twice, with no least declaration until the heir overrides it.
pub fn conflict()
    ensures { ConflictExample }
{}

/// Two classes that are each other's super where two namespaces are joined.
pub fn cycle()
    ensures { CycleExample }
{}

/// A class and a package of one name.
pub fn two_kinds()
    ensures { MixedExample }
{}

/// A class that has in an intersection the members of both sides.
pub fn joined_members()
    ensures { JoinedExample }
{}

/// Names that stand twice, each found at its second place in the order of the source.
pub fn names_twice()
    ensures { DuplicatesExample }
{}

/// A class table that passes, and one each that is refused for a cycle, two kinds and an unknown name.
pub fn table_verdicts()
    ensures { VerdictExamples }
{}

/// Terms of each form in a class of a family, and what each is refused for.
pub fn terms_resolved()
    ensures { ResolveExamples }
{}

/// A type with masks, and masks that are refused.
pub fn masks_resolved()
    ensures { MaskExamples }
{}
