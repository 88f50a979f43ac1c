use crate::tree::Name;
use sqlite_items::Items;

/// What an atom begins with: nothing, or the run-time class of a path without as many last names.
///
/// Path 0 is `this`; then come parameters and locals by their frame numbers, and fresh paths from 256.
#[derive(Clone, Copy, Debug, PartialEq, Eq)]
pub enum Anchor {
    Root,
    Up(u32, u8),
}

/// An atom: an anchor, then exact names, then inexact ones, in both the outermost name first.
#[derive(Debug, Drop)]
pub struct Atom {
    pub anchor: Anchor,
    pub exact: Items<Name>,
    pub names: Items<Name>,
}

/// A set of masks by their numbers from 0 to 255: mask `i` is bit `i % 64` of word `i / 64`.
///
/// The masks of a program are numbered in the order of their first mention.
#[derive(Clone, Copy, Debug, PartialEq, Eq)]
pub struct Masks(pub [u64; 4]);

/// A type. `Null` is the type of `null` alone, `Void` that of a call without a result.
#[derive(Debug, Drop)]
pub enum Ty {
    Int,
    Bool,
    Null,
    Void,
    Class(Items<Atom>, Masks),
}

/// The kinds of value.
#[derive(Clone, Copy, Debug, PartialEq, Eq)]
pub enum ValKind {
    Int,
    Bool,
    Reference,
}
