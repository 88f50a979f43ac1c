use jn_base::path::Path;
use jn_base::tree::{Kind, Name};

/// The number of a path in a table. It stands for one path for good.
#[derive(Clone, Copy, Debug, PartialEq, Eq)]
pub struct ClassId(pub u16);

/// What a table says of a path.
#[derive(Debug, Drop)]
pub struct Row {
    pub path: Path,
    /// The kind of all declarations at the path and its supers.
    pub kind: Kind,
    /// The path without its last name; none for a top-level name.
    pub up: Option<ClassId>,
    /// The direct supers, in class order.
    pub direct: Vec<ClassId>,
    /// The supers, the path itself among them, in class order.
    pub sups: Vec<ClassId>,
    /// The members, in the order of their names by bytes.
    pub members: Vec<RowMember>,
    /// The methods that some super declares, each once, in the order of their bytes.
    pub methods: Vec<Name>,
    /// The fields that some super declares, each once, in the order of their bytes.
    pub fields: Vec<Name>,
}

/// A member of a path, with its number.
#[derive(Clone, Copy, Debug, PartialEq, Eq)]
pub struct RowMember {
    pub name: Name,
    pub id: ClassId,
}
