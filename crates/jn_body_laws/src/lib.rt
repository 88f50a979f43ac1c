//! What each body of a program within the limits has, beyond the forms of its types: call statements are calls, the
//! texts that it prints are there, and it stands in a class.
#![tactic(auto)]

ghost use Rattle.jn_body_laws.specs.BodyForms.{BodiesFormed};

/// In a program within the limits each statement has the forms of the grammar, and each method stands in a class.
pub fn bodies_formed()
    ensures { BodiesFormed }
{}
