ghost use Rattle.jn_link.specs.Joined.{LoweredHaveShapes, JoinedStand, JoinedAreImages};
ghost use Rattle.jn_link.specs.LawsOfCounts.{VerdictGrantsRows, SelectorsAreFew, EntriesAreFew};

/// Of each accepted source the verdict grants what rows ask: each body has a shape and each declared field a type, what
/// is looked for is found once, only classes have fields, and each body stands once. It does nothing.
pub fn verdict_grants_rows()
    ensures { VerdictGrantsRows }
{}

/// The selectors of an accepted source are in form, and are no more than its methods and fields. It does nothing.
pub fn selectors_are_few()
    ensures { SelectorsAreFew }
{}

/// The rows of a program have no more entries than the program may have. It does nothing.
pub fn entries_are_few()
    ensures { EntriesAreFew }
{}

/// Codes that are lowered in source order have the shapes of their bodies. It does nothing.
pub fn lowered_have_shapes()
    ensures { LoweredHaveShapes }
{}

/// In an image whose parts are joined, each code stands at its place, is accepted by the rules, and has room for its
/// operands. It does nothing.
pub fn joined_stand()
    ensures { JoinedStand }
{}

/// An image whose parts are joined is that of the program: it is valid, has the program's rows, agrees with its
/// meaning, and its file is within its limit. It does nothing.
pub fn joined_are_images()
    ensures { JoinedAreImages }
{}
