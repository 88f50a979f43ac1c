//! The rules of refusal, as definitions, with the laws of their form.
//!
//! Nothing here computes: `specs/` says of each form what has to be asked of it, in order, and what is answered.
#![tactic(auto)]

ghost use Rattle.jn_rules.specs.Forms.{FormsAre};
ghost use Rattle.jn_rules.specs.LawsOfPlans.{PlansGo, PlansAreSure};

/// What a plan gives by what its parts give, and back.
pub fn plan_laws<A, B>()
    ensures { PlansGo A B }
{}

/// A plan has one answer at most, and surely one, where each of its questions has one reply at most, and surely one.
pub fn plans_are_sure<A>()
    ensures { PlansAreSure A }
{}

/// What has to be asked of each form of expression, statement and declaration, form by form.
pub fn forms_are()
    ensures { FormsAre }
{}
