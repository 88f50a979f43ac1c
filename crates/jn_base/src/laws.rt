ghost use Rattle.jn_base.specs.ResolveLaws.{ResolvedOnce};
ghost use Rattle.jn_base.specs.ProgramNames.{SpelledIsNamed};
ghost use Rattle.jn_base.specs.Twice.{DuplicatesAreTwice};
ghost use Rattle.jn_base.specs.LawsOfTable.{NothingTwice, MembersAreOne, UniverseNamed, DeclarationsVerdictIsOne, HomesExist};
ghost use Rattle.jn_base.specs.LawsOfSupers.{DirectSupers, TopLevel, Levels, Heirs, SupersChain, MembersInherited, SupersOfMembers, UniverseClosed, ReachClosed, StrictOrder};

/// The direct supers of a member, said by members.
pub fn direct_supers()
    ensures { DirectSupers }
{}

/// The direct supers of a top-level name are its written ones that are declared.
pub fn top_level()
    ensures { TopLevel }
{}

/// A super has the depth of its heir, and its prefixes are supers of the heir's.
pub fn levels()
    ensures { Levels }
{}

/// What stands above a path in the namespace of a super stands above it in the heir's.
pub fn heirs()
    ensures { Heirs }
{}

/// Each path is among its supers, and a super's super is a super.
pub fn supers_chain()
    ensures { SupersChain }
{}

/// A member of a super is a member, and the super's is in Sup of the heir's.
pub fn members_inherited()
    ensures { MembersInherited }
{}

/// A super of a member is a member of a super of its namespace, and of its namespace too.
pub fn supers_of_members()
    ensures { SupersOfMembers }
{}

/// The universe has all declared paths, and is closed under prefixes and supers.
pub fn universe_closed()
    ensures { UniverseClosed }
{}

/// What is reached is closed under supers and prefixes, and stays in the universe.
pub fn reach_closed()
    ensures { ReachClosed }
{}

/// The class order is a strict total order, where names are distinct texts.
pub fn strict_order()
    ensures { StrictOrder }
{}

/// Where nothing is found twice there is one declaration at a path, one home, and one method and field of a name in a body.
pub fn nothing_twice()
    ensures { NothingTwice }
{}

/// A method has one least declaration where no path is its own super, and a field one declaration that is alone.
pub fn members_are_one()
    ensures { MembersAreOne }
{}

/// The paths of the universe have the names of the declared ones.
pub fn universe_named()
    ensures { UniverseNamed }
{}

/// The declarations have one refusal at most, and none where they pass.
pub fn declarations_verdict_is_one()
    ensures { DeclarationsVerdictIsOne }
{}

/// Each path of the universe has a home.
pub fn homes_exist()
    ensures { HomesExist }
{}

/// The duplicates that are found are the names that stand twice, and no others.
pub fn duplicates_are_twice()
    ensures { DuplicatesAreTwice }
{}

/// A term, a type and a view resolve to one atom or type, or to one refusal.
pub fn resolved_once()
    ensures { ResolvedOnce }
{}

/// A program that a source spells has its names: equal ones have one number, and each of a declaration is one of its own.
pub fn spelled_is_named()
    ensures { SpelledIsNamed }
{}
