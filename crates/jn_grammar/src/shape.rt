/// What has been read of a statement that begins with a Prim and its parts.
#[derive(Clone, Copy, Debug, PartialEq, Eq)]
pub enum Shape {
    /// One name.
    Name,
    /// Several names with dots between them.
    Path,
    /// A call at the end: a part with arguments, or a form with `new` or `super` alone.
    Call,
    /// A field at the end, behind more than names.
    Part,
    /// A Prim alone that is neither a name nor a form with `new` or `super`.
    Bare,
}
