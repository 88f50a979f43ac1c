ghost use Rattle.jn_laws.specs.LawsOfBounds.{ClassesUnderBounds, MembersInUniverse};

/// A path that has a method or a field is in the universe.
pub fn members_in_universe()
    ensures { MembersInUniverse }
{}

/// A class in a type has the bounds of the type's atoms in its Sup.
pub fn classes_under_bounds()
    ensures { ClassesUnderBounds }
{}
