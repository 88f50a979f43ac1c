//! The code of a body that stands at its places has kinds by parts, and so no fault of its own.
#![tactic(auto)]

ghost use Rattle.jn_place_spans.specs.LawsOfBodies.{BodiesPass};
ghost use Rattle.jn_place_spans.specs.LawsOfExprs.{ExprsSpan};
ghost use Rattle.jn_place_spans.specs.LawsOfImages.{CodesValid, FilesStand, OperandsFew};
ghost use Rattle.jn_place_spans.specs.LawsOfNodes.{NodesSpan};
ghost use Rattle.jn_place_spans.specs.LawsOfStmts.{StmtsSpan};
ghost use Rattle.jn_place_spans.specs.LawsOfUntyped.{ExprsStand, StmtsStand, BodiesStand, SourcesHoldFew};

/// In an image with the rows of a program, the instructions of each form's own act are a part with kinds: they take
/// the operands of their parts and leave the form's value.
pub fn nodes_span()
    ensures { NodesSpan }
{}

/// An expression that stands at its places and is typed is a part with kinds, from any operands that leave it room to
/// those and its value.
pub fn exprs_span()
    ensures { ExprsSpan }
{}

/// Statements that stand at their places and are typed are a part with kinds, from no operands to none.
pub fn stmts_span()
    ensures { StmtsSpan }
{}

/// A body whose code stands at its typed place has a code with no fault of its own.
pub fn bodies_pass()
    ensures { BodiesPass }
{}

/// An expression that stands at its typed places stands at the places.
pub fn exprs_stand()
    ensures { ExprsStand }
{}

/// So do statements.
pub fn stmts_stand()
    ensures { StmtsStand }
{}

/// A body whose code stands at its typed place: the code stands at its place, is no longer than the body allows, and
/// has at most 15 arguments in one call.
pub fn bodies_stand()
    ensures { BodiesStand }
{}

/// The code of each body of a source within the limits holds no more than 3,806 operands, where no call has more than
/// 15 arguments.
pub fn sources_hold_few()
    ensures { SourcesHoldFew }
{}

/// An image with the rows of a program, whose codes stand at the typed places of its bodies and of its start, has no
/// fault in its codes.
pub fn codes_valid()
    ensures { CodesValid }
{}

/// The code of such a body holds no more than 3,806 operands, in each source within the limits.
pub fn operands_few()
    ensures { OperandsFew }
{}

/// The file of such an image is within its limit, for each source within its own.
pub fn files_stand()
    ensures { FilesStand }
{}
