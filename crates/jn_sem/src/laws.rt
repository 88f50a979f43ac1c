ghost use Rattle.jn_sem.specs.LawsOfTypes.{BelowOrder, Growth, NormalForm, NormalTypes, Searching, Substitution, Widening};

/// Each step of widening goes from a set of classes to one that holds it, and so do "below" and the root closure.
pub fn widening()
    ensures { Widening }
{}

/// A substituted type has the classes and values of the type with the new paths' views put for the old ones, and a normal
/// form those of its type.
pub fn substitution()
    ensures { Substitution }
{}

/// The normal form of an atom is what repeated rewriting ends with.
pub fn normal_form()
    ensures { NormalForm }
{}

/// A type has one substituted type and one normal form. It fits the scope where the type does, and is its own.
pub fn normal_types()
    ensures { NormalTypes }
{}

/// "Below" is reflexive and transitive.
pub fn below_order()
    ensures { BelowOrder }
{}

/// Bounds, normal forms, "below" and root closures in a scope stay where a bind is added.
pub fn growth()
    ensures { Growth }
{}

/// A chain of widening steps is what one turn of the search asks, and the search goes to older paths.
pub fn searching()
    ensures { Searching }
{}
