use crate::value::Value;
use jn_base::names::Vars;
use jn_base::tree::Method;
use jn_sem::outcome::Why;
use jn_table::ClassId;

/// How a run ends.
#[derive(Clone, Copy)]
pub enum Ending {
    Ends,
    AtNull,
    Zero,
    Arena,
    Depth,
    Stuck(Why),
}

/// What is to be printed, and then a line feed.
#[derive(Clone, Copy)]
pub enum Line<'a> {
    Number(i64),
    Truth(bool),
    Text(&'a [u8]),
}

/// A body that is called: the class of the declaration that has it, the method, and its parameters.
#[derive(Drop)]
pub struct Callee<'a> {
    pub class: ClassId,
    pub method: &'a Method,
    pub vars: Vars,
}

/// A call of a body with these values, the receiver first.
#[derive(Drop)]
pub struct Called<'a> {
    pub callee: Callee<'a>,
    pub args: Vec<Value>,
}

/// What an act did.
#[derive(Drop)]
pub enum Did<'a> {
    /// The frame goes on.
    Went,
    /// It goes on, and prints.
    Printed(Line<'a>),
    /// It calls a body, and waits.
    Entered(Called<'a>),
    /// It returns, with a result or without.
    Left(Option<Value>),
    /// It ends the run.
    Ended(Ending),
}
