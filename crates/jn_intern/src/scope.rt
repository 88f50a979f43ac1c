use crate::pool::TyId;

/// A path with the number of its type.
#[derive(Clone, Copy, Debug, PartialEq, Eq)]
pub struct Bind {
    pub path: u32,
    pub ty: TyId,
}

/// The paths in scope with their types, the oldest first; each new bind is put behind.
#[derive(Debug, Drop)]
pub struct Scope {
    pub binds: Vec<Bind>,
}
