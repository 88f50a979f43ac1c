use jn_base::tree::{Expr, Name, Op, Stmt, Term, TypeTerm, ViewTerm};

/// A node of a body that is still to act. One that holds code back has the tree of that code.
#[derive(Clone, Copy)]
pub enum Act<'a> {
    /// A literal.
    Number(i64),
    Truth(bool),
    Null,
    /// A variable, and `this`.
    Read(Name),
    This,
    /// `!` and unary `-`.
    Invert,
    Negate,
    /// An operator other than `&&` and `||`, with both operands had.
    Operate(Op),
    /// `&&` (true) or `||` (false) with its left operand had, and its right one.
    Decide(bool, &'a Expr),
    Get(Name),
    /// A call, `new` and `super` with as many arguments had, and whether the value is kept.
    Call(Name, usize, bool),
    Make(&'a Term, usize, bool),
    Super(&'a Term, Name, usize, bool),
    View(&'a ViewTerm),
    /// A local: whether it is `final`, its type, its name and the number of its path. An assignment. A field assignment.
    Bind(bool, &'a TypeTerm, Name, usize),
    Assign(Name),
    Put(Name),
    /// `if` and `while` with the condition had, and the number of the next local.
    Choose(usize, &'a [Stmt], &'a [Stmt]),
    Repeat(usize, &'a Expr, &'a [Stmt]),
    /// `return`, with an operand or without.
    Return(bool),
    Print,
    PrintText(u32),
    /// `new Main()`, and the call of `main` on it.
    Begin,
    Open,
}
