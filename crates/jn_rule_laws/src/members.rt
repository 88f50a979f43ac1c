ghost use Rattle.jn_rule_laws.specs.LawsOfMembers.{FieldsAreOne, MembersUnderBounds, Signatures};

/// A class in the type of a receiver is under the bound at which a member was found.
pub fn members_under_bounds()
    ensures { MembersUnderBounds }
{}

/// A field has one declaration and one type, at a class and at its heirs.
pub fn fields_are_one()
    ensures { FieldsAreOne }
{}

/// The least bodies of a method have one signature at a class and at its heirs.
pub fn signatures()
    ensures { Signatures }
{}
