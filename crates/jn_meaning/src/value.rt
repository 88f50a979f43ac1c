use jn_table::ClassId;

/// A value: a number, a truth value, null, or a reference to the object of that number, with the view of that class.
#[derive(Clone, Copy)]
pub enum Value {
    Number(i64),
    Truth(bool),
    Null,
    Reference(usize, ClassId),
}
