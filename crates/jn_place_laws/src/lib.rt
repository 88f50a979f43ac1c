//! Where the code of a body stands at its places, it goes with the body: soundness's typing is the typing of the nodes,
//! a context for each typing.
#![tactic(auto)]

ghost use Rattle.jn_place_laws.specs.LawsOfContexts.{ContextsLead, CalleesHaveShapes};
ghost use Rattle.jn_place_laws.specs.LawsOfPlaces.{BodiesAgree, ImageAgrees};

/// In a program within the limits that is accepted, each act that has a rule leads from its context to the one behind it,
/// and where a frame stands in a context, what its types say holds of its operands.
pub fn contexts_lead()
    ensures { ContextsLead }
{}

/// The least body at a class of a name has the shape of the header that was found there.
pub fn callees_have_shapes()
    ensures { CalleesHaveShapes }
{}

/// In an image with the rows of an accepted program, where the code of each body stands at its places, each code goes with
/// its body.
pub fn bodies_agree()
    ensures { BodiesAgree }
{}

/// Where the start code stands at its place too, the image agrees with the program.
pub fn image_agrees()
    ensures { ImageAgrees }
{}
