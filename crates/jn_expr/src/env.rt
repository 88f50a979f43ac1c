use jn_base::names::{Resolved, Vars};
use jn_base::path::Path;
use jn_base::tree::Name;
use jn_heads::Header;
use jn_intern::{Pool, TyId};
use jn_names::Members;
use jn_share::{Groups, Slots};
use jn_subtype::Judge;
use jn_table::Table;

/// What the check of a body works with: the parts of the program, the pool of types with its judge, the variables in
/// scope, the class and the method that have the body, and the marks so far.
///
/// `ArePartsOf` says in a contract of which program the parts are.
#[derive(Drop)]
pub struct Env {
    pub table: Table,
    pub members: Members,
    pub groups: Groups,
    pub slots: Slots,
    pub pool: Pool,
    pub judge: Judge,
    /// The names of the masks by their numbers.
    pub masks: Vec<Name>,
    pub vars: Vars,
    /// The class in whose declaration the body stands.
    pub class: Path,
    pub method: Name,
    /// What the names of the body stand for, as far as it was typed.
    pub marks: Resolved,
}

/// What an expression has: the number of its type, and its path, where it is a path expression or a `new`.
#[derive(Clone, Copy, Debug, PartialEq, Eq)]
pub struct Value {
    pub ty: TyId,
    pub path: Option<u32>,
}

/// A call whose arguments are still to come: the header of the body that is called, `this` and the parameters by their
/// paths, and the paths that are put for the first of these so far.
#[derive(Drop)]
pub struct Call {
    pub header: Header,
    pub from: Vec<u32>,
    pub paths: Vec<u32>,
}
