use sqlite_items::{Boxed, Items};

/// A name of the program by its number: names are numbered in the order of first mention, from 0.
#[derive(Clone, Copy, Debug, PartialEq, Eq)]
pub struct Name(pub u32);

/// A place in the source: a line and a column, both from 1. A column counts bytes.
#[derive(Clone, Copy, Debug, PartialEq, Eq)]
pub struct Place {
    pub line: u32,
    pub column: u32,
}

/// A name with the place where it stands.
#[derive(Clone, Copy, Debug, PartialEq, Eq)]
pub struct Named {
    pub name: Name,
    pub at: Place,
}

/// The bytes of a name or of a text, which are UTF-8. A text's escapes are already read.
#[derive(Debug, Drop)]
pub struct Text {
    pub bytes: Items<u8>,
}

/// The two kinds of declaration. A package has inner declarations alone.
#[derive(Clone, Copy, Debug, PartialEq, Eq)]
pub enum Kind {
    Class,
    Package,
}

/// A program: its names and its texts by their numbers, and its top-level declarations.
///
/// Equal names have one number, and so have equal texts; both are numbered by first mention.
#[derive(Debug, Drop)]
pub struct Program {
    pub names: Items<Text>,
    pub texts: Items<Text>,
    pub decls: Items<Decl>,
}

/// A declaration of a class or a package, with the names that it extends, shares and adapts.
///
/// Only an inner one shares, only a top-level one adapts.
#[cycle(decl)]
#[derive(Debug, Drop)]
pub struct Decl {
    pub kind: Kind,
    pub name: Named,
    pub extends: Items<Named>,
    pub shares: Items<Named>,
    pub adapts: Items<Named>,
    pub members: Items<Member>,
}

/// A member of a declaration.
#[cycle(decl)]
#[derive(Debug, Drop)]
pub enum Member {
    Inner(Decl),
    Slot(Field),
    Body(Method),
}

/// A field.
#[derive(Debug, Drop)]
pub struct Field {
    pub ty: TypeTerm,
    pub name: Named,
}

/// A method, or the constructor of its class. The result `void` is `None`.
#[derive(Debug, Drop)]
pub struct Method {
    pub result: Option<TypeTerm>,
    pub name: Named,
    pub params: Items<Param>,
    pub sharing: Items<Constraint>,
    pub body: Items<Stmt>,
}

/// A parameter, `fixed` where it is `final`.
#[derive(Debug, Drop)]
pub struct Param {
    pub fixed: bool,
    pub ty: TypeTerm,
    pub name: Named,
}

/// A sharing constraint of a method's header: views that change from one type to the other.
#[derive(Debug, Drop)]
pub struct Constraint {
    pub from: ViewTerm,
    pub to: ViewTerm,
}

/// The target of a view, or a side of a constraint: a term with masks.
#[derive(Debug, Drop)]
pub struct ViewTerm {
    pub term: Term,
    pub masks: Items<Named>,
}

/// A type as it is written: for a class type its terms and its masks.
#[derive(Debug, Drop)]
pub enum TypeTerm {
    Int,
    Bool,
    Class(Items<Term>, Items<Named>),
}

/// What the path of a term begins with: `this` or a variable.
#[derive(Clone, Copy, Debug, PartialEq, Eq)]
pub enum Ref {
    This,
    Var(Name),
}

/// The front of a term: nothing (`N.t`), `p.class`, or `P[p.class]`.
#[derive(Debug, Drop)]
pub enum Head {
    Plain,
    Own(Ref),
    Prefix(Items<Name>, Ref),
}

/// A term of a type. `exact` is empty exactly where no `!` stands, else it has the names up to it;
/// `names` has the others. The place is its first token.
#[derive(Debug, Drop)]
pub struct Term {
    pub head: Head,
    pub exact: Items<Name>,
    pub names: Items<Name>,
    pub at: Place,
}

/// A statement. An `else` with an empty block is the same as none. The place is the first token.
#[derive(Debug, Drop)]
pub enum Stmt {
    Block(Items<Stmt>),
    Local(bool, TypeTerm, Named, Expr),
    Assign(Named, Expr),
    Set(Expr, Named, Expr),
    Do(Expr),
    If(Expr, Items<Stmt>, Items<Stmt>, Place),
    While(Expr, Items<Stmt>, Place),
    Return(Option<Expr>, Place),
    Print(Expr, Place),
    PrintText(u32, Place),
}

/// An expression with its place: the first token, not counting parentheses round it.
#[cycle(expr)]
#[derive(Debug, Drop)]
pub struct Expr {
    pub at: Place,
    pub node: Node,
}

/// The forms of expression. A `Post` has at least one suffix, a `Chain` at least one link, and exactly
/// one at the levels `Equal` and `Compare`. Parentheses leave no node.
#[cycle(expr)]
#[derive(Debug, Drop)]
pub enum Node {
    Int(i64),
    Bool(bool),
    Null,
    This,
    Var(Name),
    New(Term, Items<Expr>),
    Super(Term, Named, Items<Expr>),
    Post(Boxed<Expr>, Items<Suffix>),
    Not(Boxed<Expr>),
    Neg(Boxed<Expr>),
    View(ViewTerm, Boxed<Expr>),
    Chain(Level, Boxed<Expr>, Items<Link>),
}

/// What stands behind a dot: a field, or a method with its arguments. The place is the name's.
#[cycle(expr)]
#[derive(Debug, Drop)]
pub struct Suffix {
    pub name: Named,
    pub args: Option<Items<Expr>>,
}

/// The levels of operators of two operands, from the loosest.
#[derive(Clone, Copy, Debug, PartialEq, Eq)]
pub enum Level {
    Or,
    And,
    Equal,
    Compare,
    Sum,
    Product,
}

/// The operators of two operands.
#[derive(Clone, Copy, Debug, PartialEq, Eq)]
pub enum Op {
    Or,
    And,
    Eq,
    Ne,
    Lt,
    Le,
    Gt,
    Ge,
    Add,
    Sub,
    Mul,
    Div,
    Rem,
}

/// A further operand of a chain, behind its operator, with the operator's place.
#[cycle(expr)]
#[derive(Debug, Drop)]
pub struct Link {
    pub op: Op,
    pub at: Place,
    pub right: Expr,
}
