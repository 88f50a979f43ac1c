use crate::path::Path;
use crate::tree::Name;
use crate::types::{Atom, Ty, ValKind};
use sqlite_items::Items;

/// What a term is used for.
///
/// `From` and `To` are the two sides of a sharing constraint; `Value` is the type of a parameter, a
/// result or a local.
#[derive(Clone, Copy, Debug, PartialEq, Eq)]
pub enum Role {
    Field,
    Value,
    From,
    To,
    View,
    New,
    Super,
}

/// Where a term stands: in a declaration of the class, in the header or body of its method or field
/// `owner`, and for what it is used.
#[derive(Debug, Drop)]
pub struct Spot {
    pub class: Path,
    pub owner: Name,
    pub role: Role,
}

/// The variables in scope, in the order of their declarations.
#[derive(Debug, Drop)]
pub struct Vars {
    pub list: Items<Var>,
}

/// A parameter or local: its name, the number of its path, whether it is `final`, and its declared
/// type in normal form.
#[derive(Debug, Drop)]
pub struct Var {
    pub name: Name,
    pub path: u32,
    pub fixed: bool,
    pub ty: Ty,
}

/// What the names of a method's body stand for, each list in source order: the atoms of its terms, the
/// frame numbers of its variables, and the declaring paths of the fields and methods that it uses.
/// `kinds` has the kind of each expression that has a value, in order of evaluation.
#[derive(Debug, Drop)]
pub struct Resolved {
    pub class: Path,
    pub method: Name,
    pub terms: Items<Atom>,
    pub vars: Items<u8>,
    pub members: Items<Path>,
    pub kinds: Items<ValKind>,
}
