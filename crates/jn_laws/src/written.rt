ghost use Rattle.jn_laws.specs.LawsOfWritten.{ParamsFit, TargetsHaveFamilies, ThisAlone, WrittenKinds, WrittenTypes};

/// A type that is written fits the scope of its place, and mentions `this` and final variables of class type alone. None is void.
pub fn written_types()
    ensures { WrittenTypes }
{}

/// The type of a field and the sides of a constraint mention `this` alone.
pub fn this_alone()
    ensures { ThisAlone }
{}

/// Parameters have the paths 1, 2, and so on, and each one's type mentions those before it.
pub fn params_fit()
    ensures { ParamsFit }
{}

/// The target of a view, and the right side of a constraint, has a family where its anchor is Root.
pub fn targets_have_families()
    ensures { TargetsHaveFamilies }
{}

/// Whatever the program, no type that is written is void, and it mentions `this` and final variables of class type alone.
pub fn written_kinds()
    ensures { WrittenKinds }
{}
