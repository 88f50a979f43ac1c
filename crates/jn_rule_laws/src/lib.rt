//! The laws of the rules: each question has one reply, each plan one outcome, each program one verdict; where the
//! verdict refuses nothing of members, the laws of headers, members and the types of forms; and what stands behind
//! statements.
#![tactic(auto)]

ghost use Rattle.jn_rule_laws.specs.Behind.{StatementsMove};
ghost use Rattle.jn_rule_laws.specs.LawsOfHeaders.{HeadersAreTheMeanings, HeadersGrant, HeadersThatPass};
ghost use Rattle.jn_rule_laws.specs.LawsOfRules.{QuestionsHaveReplies, QuestionsHaveOneReply, PlansGive, PlansHaveOneOutcome, HeadersHaveOneVerdict, TreesHaveOneVerdict};

pub mod forms;
pub mod headers;
pub mod members;

/// Each question surely has a reply.
pub fn questions_have_replies()
    ensures { QuestionsHaveReplies }
{}

/// Each question has one reply at most.
pub fn questions_have_one_reply()
    ensures { QuestionsHaveOneReply }
{}

/// Each plan surely gives an answer or a refusal.
pub fn plans_give<A>()
    ensures { PlansGive A }
{}

/// Each plan gives one answer or one refusal at most, never both.
pub fn plans_have_one_outcome<A>()
    ensures { PlansHaveOneOutcome A }
{}

/// The headers of a program pass or have one refusal, never both, and surely one of these is so.
pub fn headers_have_one_verdict()
    ensures { HeadersHaveOneVerdict }
{}

/// A program passes or has one refusal, never both, and surely one of these is so.
pub fn trees_have_one_verdict()
    ensures { TreesHaveOneVerdict }
{}

/// The plan of a header gives it exactly where it is the one with which the meaning calls the body.
pub fn headers_are_the_meanings()
    ensures { HeadersAreTheMeanings }
{}

/// What a header grants: some constraint grants the view change, or none does.
pub fn headers_grant()
    ensures { HeadersGrant }
{}

/// Where the headers of a program pass, each method has a header, each constraint resolves, and each field has a type.
pub fn headers_that_pass()
    ensures { HeadersThatPass }
{}

/// Behind statements that the rules accept are variables and binds more, and locals numbered as their acts have them.
pub fn statements_move()
    ensures { StatementsMove }
{}
