//! Soundness: an accepted program is never stuck. Each act keeps what is still to be done typed; and, by the tree, each
//! expression and each statement that the rules accept fits what comes behind it.
#![tactic(auto)]

ghost use Rattle.jn_sound.specs.Bodies.{NeedsAreMet, ProgramsNeverStuck};
ghost use Rattle.jn_sound.specs.Needs.{ActsLeadOn, ChargesKeepSound, SoundFrom};
ghost use Rattle.jn_sound.specs.Stmts.{StatementsFit};
ghost use Rattle.jn_sound.specs.Tree.{ExpressionsFit};

/// Each act that has a rule leads from its typing before to its typing behind, from what `Needs` lists.
pub fn acts_lead_on()
    ensures { ActsLeadOn }
{}

/// Each charge of an accepted program keeps it Sound, and none is Stuck, from what `Needs` lists.
pub fn charges_keep_sound()
    ensures { ChargesKeepSound }
{}

/// A program within the limits that is accepted is never Stuck, from what `Needs` lists.
pub fn sound_from()
    ensures { SoundFrom }
{}

/// An expression that the rules accept fits: if k fits behind it, with its value as an operand, so do its acts and k.
pub fn expressions_fit()
    ensures { ExpressionsFit }
{}

/// A statement that the rules accept fits: if what comes behind it fits, or it stops, then its acts and that fit.
pub fn statements_fit()
    ensures { StatementsFit }
{}

/// A body that the rules accept fits where it begins, and a loop fits once more.
pub fn needs_are_met()
    ensures { NeedsAreMet }
{}

/// A program within the limits that is accepted is never Stuck.
pub fn never_stuck()
    ensures { ProgramsNeverStuck }
{}
