use crate::locals::Locals;
use crate::pile::Pile;
use crate::value::Value;
use crate::work::Work;
use jn_base::tree::Method;
use jn_table::ClassId;

/// A body at work.
#[derive(Drop)]
pub struct Frame<'a> {
    /// The declaration whose body it is; none in the frame that starts the program.
    pub class: Option<ClassId>,
    pub method: &'a Method,
    /// `this`, which is null in the frame that starts the program.
    pub this: Value,
    pub locals: Locals,
    /// The operands already had.
    pub vals: Pile,
    /// What is still to be done.
    pub todo: Work<'a>,
    /// Whether the result of the call that it waits for is kept.
    pub keeps: bool,
}
