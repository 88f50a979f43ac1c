/// How a run of a program's meaning ends, or `More` where it needs a further charge.
#[derive(Clone, Copy, Debug, PartialEq, Eq)]
pub enum Outcome {
    /// `main` returned.
    Ends,
    /// Null stood where an object was needed.
    Null,
    /// A number was divided by 0.
    Zero,
    /// The arena has too few cells left for a new object.
    Arena,
    /// A call would make more frames than the depth allows.
    Depth,
    /// The charges are used up.
    More,
    /// The program did what no accepted program does.
    Stuck(Why),
}

/// Why a run is stuck.
#[derive(Clone, Copy, Debug, PartialEq, Eq)]
pub enum Why {
    /// A body, field, class, variable or argument is missing, or there is an argument too many.
    Missing,
    /// A value is outside the type that was declared for it.
    Foreign,
    /// A field was read that has no value yet.
    Masked,
    /// An operand or a result is of the wrong kind.
    Kind,
}
