/// Why bytes are no image, or an image is not valid.
///
/// The number of `Short`, `BadField` and `Trailing` is a byte of the file. The numbers of `BadCode` are the code and the
/// instruction in it, that of `BadRow` is the class.
#[derive(Clone, Copy, PartialEq, Eq, Debug)]
pub enum ImageFault {
    /// The first four bytes are not those of an image.
    BadMagic,
    /// The field that starts there is not whole.
    Short(u32),
    /// The field that starts there has a value that it must not have.
    BadField(u32, FieldKind),
    /// Bytes follow, of which this is the first.
    Trailing(u32),
    /// The file has more bytes than an image may have.
    TooLong,
    BadCode(u32, u32, CodeWhy),
    BadRow(u16, RowWhy),
    Memory,
}

/// What is wrong with a field of the file.
#[derive(Clone, Copy, PartialEq, Eq, Debug)]
pub enum FieldKind {
    /// A byte that is none of the kinds that may stand there.
    Kind,
    /// A count past its limit.
    Count,
    /// An entry that does not come after the one before it.
    Order,
    /// A byte that is no instruction's.
    Opcode,
    /// A truth value over 1.
    Bool,
}

/// What is wrong with a class.
#[derive(Clone, Copy, PartialEq, Eq, Debug)]
pub enum RowWhy {
    /// It has neither no class above it and its own number as family, nor a class before it, of its family, above it.
    Up,
    /// There is no such group.
    Group,
    /// A member is not there, or does not stand in this class.
    Member,
    /// A selector or a code is not there, or the code has not the selector's parameters and result.
    Method,
    /// A field's selector, its slot or the group is not there, or the kinds differ.
    Field,
    /// A counterpart is not there, or not in this group or that family.
    Other,
}

/// What is wrong with an instruction.
#[derive(Clone, Copy, PartialEq, Eq, Debug)]
pub enum CodeWhy {
    /// A text, selector or class that is not there.
    Number,
    /// No such local.
    Local,
    /// No such instruction.
    Target,
    /// Too few operands, or too many afterwards.
    Stack,
    /// An operand of a wrong kind, or a return that is not the code's.
    Kind,
    /// The operands at the target or at the next instruction are already known, and are others.
    Join,
    /// The last instruction goes on.
    End,
    /// The first code is not there, or has parameters or a result.
    Start,
}
