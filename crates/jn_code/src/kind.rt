/// What an operand is, as the check of a code knows it. No local and no slot holds a class.
#[derive(Clone, Copy, PartialEq, Eq, Debug)]
pub enum OperandKind {
    Int,
    Bool,
    Reference,
    Class,
}
