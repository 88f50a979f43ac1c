use jn_base::tree::Name;

/// A field of a class, with the first class that has it in the same slot.
#[derive(Clone, Copy, Debug, PartialEq, Eq)]
pub struct FieldFirst {
    pub field: Name,
    /// The number of that class.
    pub first: usize,
    /// Whether the type of the field hangs on `this`.
    pub hangs: bool,
}
