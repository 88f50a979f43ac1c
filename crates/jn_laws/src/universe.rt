ghost use Rattle.jn_laws.specs.LawsOfUniverse.{FirstsThere, SizesThere, SlotsThere, UniverseListed};

/// The paths of a program surely have a list, and so have its classes, and the members, fields, methods, group and slots of
/// a class.
pub fn universe_listed()
    ensures { UniverseListed }
{}

/// Of a list of paths, or of names, that is not empty one is the first.
pub fn firsts_there()
    ensures { FirstsThere }
{}

/// A class surely has a slot for each of its fields.
pub fn slots_there()
    ensures { SlotsThere }
{}

/// A group surely has a size.
pub fn sizes_there()
    ensures { SizesThere }
{}
