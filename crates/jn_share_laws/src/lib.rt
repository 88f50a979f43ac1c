//! The laws that bind groups and slots to the rules: what the declared fields give is what slots are built from, and the
//! limits that slots check are those of the verdict.
#![tactic(auto)]

ghost use Rattle.jn_share_laws.specs.LawsOfShare.{GivenTypesFit, LimitsAreTheRules};

/// Where the declared fields of a program give types, each entry has the type of a declared field, and each declared
/// field has an entry.
pub fn given_types_fit()
    ensures { GivenTypesFit }
{}

/// Where the members pass, the limits of entries and slots pass or are refused as the verdict says.
pub fn limits_are_the_rules()
    ensures { LimitsAreTheRules }
{}
