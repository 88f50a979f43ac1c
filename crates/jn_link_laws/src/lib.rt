//! Codes that go with their bodies, each by itself, make an image that agrees with its program.
#![tactic(auto)]

ghost use Rattle.jn_link_laws.specs.LawsOfTraces.{TracesAgree};
ghost use Rattle.jn_link_laws.specs.LawsOfAgreement.{Entering, GivingBack, knows_by, ImagesAgree};

/// Where each code goes with its body, whatever its calls give back, and the start's code goes with the frame that
/// starts the program, the image agrees with the program, if that is never stuck. `R` and `G` have the cases of what is
/// known of a body that is entered, and of what one gives back.
pub fn images_agree<R, G>()
    ensures { (may : R → Entering) (back : G → GivingBack) → ImagesAgree (knows_by may back) }
{}

/// Where each code goes with its body, each body that is called alone prints, ends and returns as its code does, with
/// all that they call: within k charges at least what k instructions do, and within 32 for each charge, and 8 more and
/// 3 for each test of a parameter, at least what the charges do.
pub fn traces_agree<R, G>()
    ensures { (may : R → Entering) (back : G → GivingBack) → TracesAgree (knows_by may back) }
{}
