/// What is to be printed, and then a line feed.
#[derive(Clone, Copy)]
pub enum Line {
    Number(i64),
    Truth(bool),
    /// The text of that number.
    Text(u32),
}

/// What an instruction did.
#[derive(Clone, Copy)]
pub enum Did {
    /// It leads on.
    On,
    /// It leads on, and prints.
    Print(Line),
    /// It calls the method of that selector, by the receiver's class.
    Call(u32),
    /// The same by the class that is the latest operand.
    CallAt(u32),
    /// It calls a constructor, where the class has it.
    Construct(u32),
    /// It returns nothing, or a word.
    Leave(Option<i64>),
    /// It ends the run.
    Null,
    Zero,
    Arena,
}

/// Where an instruction led: on, or to the end of the run.
#[derive(Clone, Copy)]
pub enum Turn {
    On,
    /// On, and this is to be printed.
    Print(Line),
    Done,
    Null,
    Zero,
    Arena,
    Depth,
}
