use crate::tree::{Name, Place};

/// The keywords.
#[derive(Clone, Copy, Debug, PartialEq, Eq)]
pub enum Keyword {
    Adapts,
    Boolean,
    Class,
    Else,
    Extends,
    False,
    Final,
    If,
    Int,
    Is,
    New,
    Null,
    Package,
    Print,
    Return,
    Shares,
    Sharing,
    Super,
    This,
    True,
    View,
    Void,
    While,
}

/// The marks.
#[derive(Clone, Copy, Debug, PartialEq, Eq)]
pub enum Mark {
    /// `==`
    EqualEqual,
    /// `!=`
    NotEqual,
    /// `<=`
    LessEqual,
    /// `>=`
    GreaterEqual,
    /// `&&`
    AndAnd,
    /// `||`
    OrOr,
    /// `->`
    Arrow,
    /// `{`
    OpenBrace,
    /// `}`
    CloseBrace,
    /// `(`
    OpenParen,
    /// `)`
    CloseParen,
    /// `[`
    OpenBracket,
    /// `]`
    CloseBracket,
    /// `.`
    Dot,
    /// `,`
    Comma,
    /// `;`
    Semicolon,
    /// `=`
    Equals,
    /// `!`
    Bang,
    /// `<`
    Less,
    /// `>`
    Greater,
    /// `+`
    Plus,
    /// `-`
    Minus,
    /// `*`
    Star,
    /// `/`
    Slash,
    /// `%`
    Percent,
    /// `&`
    Ampersand,
    /// `\`
    Backslash,
}

/// What a token is to the grammar. Names and texts go by their numbers in the program.
#[derive(Clone, Copy, Debug, PartialEq, Eq)]
pub enum Word {
    Name(Name),
    Keyword(Keyword),
    Number(i64),
    Text(u32),
    Mark(Mark),
    /// The end of the file.
    End,
    /// The first fault of the tokens, where there is one: no rule of the grammar has it.
    Fault,
}

/// A word where it stands.
#[derive(Clone, Copy, Debug, PartialEq, Eq)]
pub struct Lexeme {
    pub word: Word,
    pub at: Place,
}
