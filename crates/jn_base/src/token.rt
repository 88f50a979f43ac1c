use std::alloc::{AllocError, AllocFailed};

/// The five sorts of token.
#[derive(Clone, Copy, Debug, PartialEq, Eq)]
pub enum TokenKind {
    Name,
    Keyword,
    Number,
    Text,
    Mark,
}

/// A token: its sort, the byte where it starts, and the byte behind its last one. Its text is the
/// bytes between.
#[derive(Clone, Copy, Debug, PartialEq, Eq)]
pub struct Token {
    pub kind: TokenKind,
    pub start: u32,
    pub end: u32,
}

/// Why the tokens of a source end before the source does, with the byte where the faulty one starts.
#[derive(Clone, Copy, Debug, PartialEq, Eq)]
pub enum LexFault {
    /// A character that begins no token, or the backslash of what is no escape.
    BadChar(u32),
    /// A number with a leading zero, or one past 9,223,372,036,854,775,807.
    BadNumber(u32),
    /// A comment `/*` without an end.
    OpenComment(u32),
    /// A text that meets a line feed, a carriage return or the end of the file.
    OpenText(u32),
    /// There was no memory for the tokens. No source has this fault.
    Memory,
}

impl From<AllocError> for LexFault {
    ghost use Rattle.std.specs.Prelude.{◌≡◌};
    ghost use Rattle.jn_base.specs.declared.token.LexFault.TheVariants.{Memory};

    ghost from_gives = { λ _ e. e ≡ Memory };

    fn from(_error: AllocError) -> LexFault {
        LexFault::Memory
    }
}

impl<T: Drop> From<AllocFailed<T>> for LexFault {
    ghost use Rattle.std.specs.Prelude.{◌≡◌};
    ghost use Rattle.jn_base.specs.declared.token.LexFault.TheVariants.{Memory};

    ghost from_gives = { λ _ e. e ≡ Memory };

    fn from(_error: AllocFailed<T>) -> LexFault {
        LexFault::Memory
    }
}
