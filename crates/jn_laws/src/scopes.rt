ghost use Rattle.jn_laws.specs.LawsOfFits.{BelowKeepsDepth, MovedTypesFit};
ghost use Rattle.jn_laws.specs.LawsOfScopes.{ClosuresListed, MasksAlone};

/// Scopes that differ in masks alone have the same bounds, fits, normal forms, types below, and root closures.
pub fn masks_alone()
    ensures { MasksAlone }
{}

/// A root closure surely has a list, and its atoms have no paths.
pub fn closures_listed()
    ensures { ClosuresListed }
{}

/// A type whose paths are replaced by paths of the same depth fits.
pub fn moved_types_fit()
    ensures { MovedTypesFit }
{}

/// A type that is above another one has bounds of the same depth.
pub fn below_keeps_depth()
    ensures { BelowKeepsDepth }
{}
