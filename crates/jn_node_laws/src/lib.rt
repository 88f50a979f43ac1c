//! The instructions of one node do what its act does.
#![tactic(auto)]

ghost use Rattle.jn_link_laws.specs.LawsOfAgreement.{Entering, GivingBack, knows_by};
ghost use Rattle.jn_node_laws.specs.LawsOfEntries.{EntriesFollow};
ghost use Rattle.jn_node_laws.specs.LawsOfLaidNodes.{LaidNodesFollow};
ghost use Rattle.jn_node_laws.specs.LawsOfNodes.{StandingAs, stands_by, NodesFollow};

/// Where an image has a program's rows, the code of each of these nodes goes with its act, whatever typing is asked of
/// them: `T` are the typings, `S` has the cases where one is right, `R` and `G` those of what is known of a body
/// that is
/// entered, and of what one gives back.
pub fn nodes_follow<T, S, R, G>()
    ensures { (stand : S → StandingAs T) (may : R → Entering) (back : G → GivingBack) →
        NodesFollow (knows_by may back) T (stands_by stand) }
{}

/// So do the instructions of one node of an expression where `this` stands among the operands, as it does while the
/// further arguments of `super` are had.
pub fn laid_nodes_follow<T, S, R, G>()
    ensures { (stand : S → StandingAs T) (may : R → Entering) (back : G → GivingBack) →
        LaidNodesFollow (knows_by may back) T (stands_by stand) }
{}

/// Where a body begins its final parameters are tested, and then its statements go on; and the start code goes with the
/// frame that starts the program.
pub fn entries_follow<T, S, R, G>()
    ensures { (stand : S → StandingAs T) (may : R → Entering) (back : G → GivingBack) →
        EntriesFollow (knows_by may back) T (stands_by stand) }
{}
