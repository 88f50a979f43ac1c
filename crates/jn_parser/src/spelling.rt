//! How words are spelled: keywords, marks, numbers and texts.

ghost use Rattle.std.specs.Prelude.{◌≡◌, ◌∷◌, ◌++◌, [], pos, false, IfOk, IfSome, IfNone};
ghost use Rattle.jn_base.specs.declared.token.TokenKind.TheVariants as sort;
ghost use Rattle.jn_base.specs.declared.word.Keyword.{Keyword as Key};
ghost use Rattle.jn_base.specs.declared.word.Mark.{Mark as Marked};
ghost use Rattle.jn_base.specs.Tokens.{quote, digits_value};
ghost use Rattle.jn_base.specs.Words.{keyword_text, mark_text};
ghost use Rattle.jn_parser.specs.Wording.{escaped, unescaped, IsDigits, IsTextFor};

use crate::rows::split_first;
use jn_base::word::{Keyword, Mark};
use std::alloc::{AllocError, Global};

const KEYWORDS: [Keyword; 23] = [
    Keyword::Adapts,
    Keyword::Boolean,
    Keyword::Class,
    Keyword::Else,
    Keyword::Extends,
    Keyword::False,
    Keyword::Final,
    Keyword::If,
    Keyword::Int,
    Keyword::Is,
    Keyword::New,
    Keyword::Null,
    Keyword::Package,
    Keyword::Print,
    Keyword::Return,
    Keyword::Shares,
    Keyword::Sharing,
    Keyword::Super,
    Keyword::This,
    Keyword::True,
    Keyword::View,
    Keyword::Void,
    Keyword::While,
];

/// How a keyword is spelled.
fn keyword_text(key: Keyword) -> &'static [u8]
    ensures { result.now ≡ keyword_text key }
{
    match key {
        Keyword::Adapts => b"adapts",
        Keyword::Boolean => b"boolean",
        Keyword::Class => b"class",
        Keyword::Else => b"else",
        Keyword::Extends => b"extends",
        Keyword::False => b"false",
        Keyword::Final => b"final",
        Keyword::If => b"if",
        Keyword::Int => b"int",
        Keyword::Is => b"is",
        Keyword::New => b"new",
        Keyword::Null => b"null",
        Keyword::Package => b"package",
        Keyword::Print => b"print",
        Keyword::Return => b"return",
        Keyword::Shares => b"shares",
        Keyword::Sharing => b"sharing",
        Keyword::Super => b"super",
        Keyword::This => b"this",
        Keyword::True => b"true",
        Keyword::View => b"view",
        Keyword::Void => b"void",
        Keyword::While => b"while",
    }
}

/// The keyword that is spelled so.
pub fn keyword(text: &[u8]) -> Option<Keyword>
    ensures found { IfSome result (λ k. text.now ≡ keyword_text k) }
    ensures none { IfNone result ((k : Key) → text.now ≡ keyword_text k → ⊥) }
{
    let mut rest: &[Keyword] = &KEYWORDS;
    'key: while let Some((key, after)) = split_first(rest) {
        if text == keyword_text(key) {
            return Some(key);
        }
        rest = after;
    }
    None
}

const MARKS: [Mark; 27] = [
    Mark::EqualEqual,
    Mark::NotEqual,
    Mark::LessEqual,
    Mark::GreaterEqual,
    Mark::AndAnd,
    Mark::OrOr,
    Mark::Arrow,
    Mark::OpenBrace,
    Mark::CloseBrace,
    Mark::OpenParen,
    Mark::CloseParen,
    Mark::OpenBracket,
    Mark::CloseBracket,
    Mark::Dot,
    Mark::Comma,
    Mark::Semicolon,
    Mark::Equals,
    Mark::Bang,
    Mark::Less,
    Mark::Greater,
    Mark::Plus,
    Mark::Minus,
    Mark::Star,
    Mark::Slash,
    Mark::Percent,
    Mark::Ampersand,
    Mark::Backslash,
];

/// How a mark is spelled.
fn mark_text(mark: Mark) -> &'static [u8]
    ensures { result.now ≡ mark_text mark }
{
    match mark {
        Mark::EqualEqual => b"==",
        Mark::NotEqual => b"!=",
        Mark::LessEqual => b"<=",
        Mark::GreaterEqual => b">=",
        Mark::AndAnd => b"&&",
        Mark::OrOr => b"||",
        Mark::Arrow => b"->",
        Mark::OpenBrace => b"{",
        Mark::CloseBrace => b"}",
        Mark::OpenParen => b"(",
        Mark::CloseParen => b")",
        Mark::OpenBracket => b"[",
        Mark::CloseBracket => b"]",
        Mark::Dot => b".",
        Mark::Comma => b",",
        Mark::Semicolon => b";",
        Mark::Equals => b"=",
        Mark::Bang => b"!",
        Mark::Less => b"<",
        Mark::Greater => b">",
        Mark::Plus => b"+",
        Mark::Minus => b"-",
        Mark::Star => b"*",
        Mark::Slash => b"/",
        Mark::Percent => b"%",
        Mark::Ampersand => b"&",
        Mark::Backslash => b"\\",
    }
}

/// The mark that is spelled so.
pub fn mark(text: &[u8]) -> Option<Mark>
    ensures found { IfSome result (λ m. text.now ≡ mark_text m) }
    ensures none { IfNone result ((m : Marked) → text.now ≡ mark_text m → ⊥) }
{
    let mut rest: &[Mark] = &MARKS;
    'mark: while let Some((mark, after)) = split_first(rest) {
        if text == mark_text(mark) {
            return Some(mark);
        }
        rest = after;
    }
    None
}

/// The number that the digits stand for.
pub fn value(digits: &[u8]) -> i64
    requires { IsDigits digits.now }
    ensures { result ≡ pos (digits_value digits.now) }
{
    let mut value: u64 = 0;
    let mut rest = digits;
    'digit: while let Some((digit, after)) = split_first(rest) {
        value = 10 * value + u64::from(digit - b'0');
        rest = after;
    }
    value as i64
}

fn unescape(c: u8) -> u8
    ensures { result ≡ escaped c }
{
    if c == b'n' { b'\n' } else { c }
}

/// What stands between the quotes of a text, its escapes read.
pub fn unescaped(alloc: Global, inner: &[u8]) -> Result<Vec<u8>, AllocError>
    ensures { IfOk result (λ v. v.items ≡ unescaped false inner.now) }
{
    let mut text = Vec::new(alloc);
    let mut after_backslash = false;
    let mut rest = inner;
    'byte: while let [c, after @ ..] = rest {
        if after_backslash {
            text.push(unescape(*c))?;
            after_backslash = false;
        } else if *c == b'\\' {
            after_backslash = true;
        } else {
            text.push(*c)?;
        }
        rest = after;
    }
    Ok(text)
}

/// What stands between two quotes.
pub fn between_quotes(text: &[u8]) -> &[u8]
    requires { IsTextFor sort.Text text.now }
    ensures { text.now ≡ quote ∷ (result.now ++ quote ∷ []) }
{
    match text {
        [_, inner @ .., _] => inner,
        _ => unreachable!(),
    }
}
