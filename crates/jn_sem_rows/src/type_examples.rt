ghost use Rattle.jn_sem_rows.specs.BelowExample.{BelowExample};
ghost use Rattle.jn_sem_rows.specs.TypesExample.{TypesExample};

/// Questions of "below" between types of a family, exact types, types of a path, and types with masks.
pub fn questions_of_below()
    ensures { BelowExample }
{}

/// Bounds, sets, normal forms, a step of widening of each kind, and a root closure from which an atom is left out.
pub fn rows_of_types()
    ensures { TypesExample }
{}
