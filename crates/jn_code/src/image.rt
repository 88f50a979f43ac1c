use crate::instr::Instr;
use sqlite_items::Items;

/// What a program prints that is no number and no truth value.
#[derive(Debug, Drop)]
pub struct Text {
    pub bytes: Items<u8>,
}

/// A program for the machine. It holds no names, only numbers: an entry of a list is named by its place in it, from 0.
///
/// A kind is a byte: 1 a number, 2 a truth value, 3 a reference; in `fields` also 4, a reference that is read in the
/// family of its object's view; in a result also 0, where there is none.
#[derive(Debug, Drop)]
pub struct Image {
    pub texts: Items<Text>,
    /// The method selectors.
    pub methods: Items<Shape>,
    /// The kinds of the field selectors.
    pub fields: Items<u8>,
    pub groups: Items<Group>,
    pub classes: Items<ClassRow>,
    pub codes: Items<Code>,
    /// The code with which a run begins.
    pub start: u32,
}

/// The kinds of a method's parameters, but for the receiver, and of its result.
#[derive(Debug, Drop)]
pub struct Shape {
    pub params: Items<u8>,
    pub result: u8,
}

/// Classes that share their objects: the kinds of the slots of an object.
#[derive(Debug, Drop)]
pub struct Group {
    pub slots: Items<u8>,
}

/// A class or a package.
#[derive(Debug, Drop)]
pub struct ClassRow {
    /// The class in which it stands, 65535 at the top.
    pub up: u16,
    /// The class at the top above it.
    pub family: u16,
    /// The group of its objects, 65535 where it has none: a package.
    pub group: u16,
    pub members: Items<MemberEntry>,
    pub methods: Items<MethodEntry>,
    pub fields: Items<FieldEntry>,
    pub others: Items<OtherEntry>,
}

/// The class of that name within a class.
#[derive(Clone, Copy, PartialEq, Eq, Debug)]
pub struct MemberEntry {
    pub name: u16,
    pub class: u16,
}

/// The code that a class runs for a selector.
#[derive(Clone, Copy, PartialEq, Eq, Debug)]
pub struct MethodEntry {
    pub selector: u32,
    pub code: u32,
}

/// The slot that a class reads for a selector.
#[derive(Clone, Copy, PartialEq, Eq, Debug)]
pub struct FieldEntry {
    pub selector: u32,
    pub slot: u8,
}

/// The counterpart of a class in another family.
#[derive(Clone, Copy, PartialEq, Eq, Debug)]
pub struct OtherEntry {
    pub family: u16,
    pub class: u16,
}

/// The code of a body. Its parameters are the first of its locals.
#[derive(Debug, Drop)]
pub struct Code {
    pub params: Items<u8>,
    pub result: u8,
    /// The kinds of the further locals.
    pub locals: Items<u8>,
    /// How many operands it has at most.
    pub stack: u16,
    pub instrs: Items<Instr>,
}
