use crate::path::Path;
use crate::tree::{Name, Place};

/// The rules that refuse a source, by their numbers.
#[derive(Clone, Copy, Debug, PartialEq, Eq)]
pub enum Rule {
    /// Syntax: the first token with which no program's tokens begin.
    E01,
    /// TooLong: more than 1,048,576 bytes.
    E02,
    /// Utf8: the first byte of the first malformed sequence.
    E03,
    /// Limit: a number of the language's limits is passed.
    E04,
    /// Duplicate: a second declaration, member, parameter, local or listed name.
    E05,
    /// Unknown: a name that stands for nothing here.
    E06,
    /// Kind: a path whose supers are classes and packages both.
    E07,
    /// Cycle: a path that is its own strict super.
    E08,
    /// Conflict: a method without a least declaration.
    E09,
    /// FieldClash: a field with two declarations.
    E10,
    /// Override: a method whose signature differs from one that it overrides.
    E11,
    /// NotFamily: a shared or adapted name that is no strict super, or has no such class.
    E12,
    /// TooManyClasses: more than 4,096 paths.
    E13,
    /// NotPath: a variable in a type that is no path.
    E14,
    /// BadType: a type whose terms don't fit together or to their use.
    E15,
    /// NoMember: a field or method that the receiver's class doesn't have.
    E16,
    /// Arity: too few or too many arguments.
    E17,
    /// Mismatch: an expression of the wrong type.
    E18,
    /// Masked: a use of a masked field.
    E19,
    /// ViewNotShared: a view change that no sharing grants.
    E20,
    /// SharingFails: a sharing constraint that an heir breaks.
    E21,
    /// NotAClass: a package where a class is due.
    E22,
    /// NoReturn: a method with a result whose body can reach its end.
    E23,
    /// FinalAssigned: an assignment to a final variable.
    E24,
    /// SuperSharing: a super call whose body needs a constraint that the caller doesn't grant.
    E25,
    /// NoMain: no class Main with a method to begin with.
    E26,
    /// MaskName: a mask that is no field, or stands twice.
    E27,
}

/// The limits that a source can pass.
#[derive(Clone, Copy, Debug, PartialEq, Eq)]
pub enum Limit {
    Declarations,
    Nesting,
    Parameters,
    Locals,
    Atoms,
    Masks,
    Names,
    Entries,
    Slots,
}

/// What the verdict answers of a source that breaks a rule: the first rule broken, where, and what
/// the refusal shows.
#[derive(Debug, Drop)]
pub struct Refusal {
    pub rule: Rule,
    pub at: Place,
    /// The class shown, for the rules that show one.
    pub class: Option<Path>,
    /// The member or other name shown, for the rules that show one.
    pub member: Option<Name>,
    /// The limit, for E04 alone.
    pub limit: Option<Limit>,
}
