ghost use Rattle.jn_rule_laws.specs.LawsOfForms.{CallTypesFit, NoFirstMask, PathTypesFit};

/// The types of paths, fields, views and new objects fit the scopes in which expressions have them.
pub fn path_types_fit()
    ensures { PathTypesFit }
{}

/// The types of parameters and results fit, with the paths of the receiver and of the arguments put in.
pub fn call_types_fit()
    ensures { CallTypesFit }
{}

/// Where no mask is the first by name there is none.
pub fn no_first_mask()
    ensures { NoFirstMask }
{}
