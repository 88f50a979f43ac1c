//! What stands at the front of a text: white space, a comment, a token or a fault.

ghost use Rattle.std.specs.Prelude.{◌≡◌, ◌≤◌, ◌+◌, ◌∷◌, [], length, take, if◌then◌else◌, false};
ghost use Rattle.std.specs.Char.{is_ascii_digit};
ghost use Rattle.std.specs.List.{prefix_len, AllPass};
ghost use Rattle.jn_base.specs.Tokens.{is_blank, continues_name, is_keyword, is_good_number, is_mark, is_escape, begins_comment};
ghost use Rattle.jn_lexer.specs.Front.{fault_at, len_of, word_front, number_front, text_front, long_comment_front, comment_front, single_front, mark_front, front};

use crate::words::{
    begins_name, digits_len, is_good_number, is_keyword, is_mark, is_pair_mark, line_len, name_len,
};
use jn_base::token::{LexFault, TokenKind};

/// The faults, without a place.
#[derive(Clone, Copy, Debug, PartialEq, Eq)]
pub enum Flaw {
    BadChar,
    BadNumber,
    OpenComment,
    OpenText,
}

impl Flaw {
    /// The fault at a byte.
    pub fn at(self, at: u32) -> LexFault
        ensures { result ≡ fault_at self at }
    {
        match self {
            Flaw::BadChar => LexFault::BadChar(at),
            Flaw::BadNumber => LexFault::BadNumber(at),
            Flaw::OpenComment => LexFault::OpenComment(at),
            Flaw::OpenText => LexFault::OpenText(at),
        }
    }
}

/// What stands at the front.
#[derive(Clone, Copy, Debug, PartialEq, Eq)]
pub enum Piece {
    /// White space or a comment, and how many characters it has.
    Gap(usize),
    /// A token of this sort, and how many characters it has.
    Token(TokenKind, usize),
    /// A fault, and how many characters stand before it.
    Fault(Flaw, usize),
}

impl Piece {
    /// How many characters it passes.
    pub fn len(self) -> usize
        ensures { result ≡ len_of self }
    {
        match self {
            Piece::Gap(len) => len,
            Piece::Token(_, len) => len,
            Piece::Fault(_, len) => len,
        }
    }
}

#[tactic(auto, unfolding(crate::specs::Front::word_front))]
fn word(cs: &[char], len: usize) -> Piece
    requires { len ≤ length cs.now }
    ensures { result ≡ word_front len cs.now }
{
    let kind = if is_keyword(&cs[..len]) {
        TokenKind::Keyword
    } else {
        TokenKind::Name
    };
    Piece::Token(kind, len)
}

#[tactic(auto, unfolding(crate::specs::Front::number_front))]
fn number(cs: &[char], len: usize) -> Piece
    requires within { len ≤ length cs.now }
    requires digits { AllPass is_ascii_digit (take len cs.now) }
    ensures { result ≡ number_front len cs.now }
{
    if is_good_number(&cs[..len]) {
        Piece::Token(TokenKind::Number, len)
    } else {
        Piece::Fault(Flaw::BadNumber, 0)
    }
}

/// A text, of whose characters these stand behind the first quote.
#[tactic(auto, unfolding(crate::specs::Front::text_front))]
fn text(cs: &[char]) -> Piece
    ensures { result ≡ text_front false 1 cs.now }
{
    let mut escaped = false;
    let mut len = 1;
    let mut rest = cs;
    while let [c, after @ ..] = rest {
        if escaped {
            if !is_escape(*c) {
                return Piece::Fault(Flaw::BadChar, len);
            }
            escaped = false;
            len += 2;
        } else {
            match *c {
                '"' => return Piece::Token(TokenKind::Text, len + 1),
                '\n' | '\r' => return Piece::Fault(Flaw::OpenText, 0),
                '\\' => escaped = true,
                _ => len += 1,
            }
        }
        rest = after;
    }
    if escaped {
        Piece::Fault(Flaw::BadChar, len)
    } else {
        Piece::Fault(Flaw::OpenText, 0)
    }
}

fn is_blank(c: char) -> bool
    ensures { result ≡ is_blank c }
{
    matches!(c, ' ' | '\t' | '\n' | '\r')
}

fn is_escape(c: char) -> bool
    ensures { result ≡ is_escape c }
{
    matches!(c, '"' | '\\' | 'n')
}

/// A comment up to a star and a slash, of whose characters these stand behind its first two.
#[tactic(auto, unfolding(crate::specs::Front::long_comment_front))]
fn long_comment(cs: &[char]) -> Piece
    ensures { result ≡ long_comment_front false 2 cs.now }
{
    let mut starred = false;
    let mut len = 2;
    let mut rest = cs;
    while let [c, after @ ..] = rest {
        len += 1;
        if starred && *c == '/' {
            return Piece::Gap(len);
        }
        starred = *c == '*';
        rest = after;
    }
    Piece::Fault(Flaw::OpenComment, 0)
}

/// A comment, of whose characters these stand behind its first slash.
#[tactic(auto, unfolding(crate::specs::Front::comment_front))]
fn comment(cs: &[char]) -> Piece
    ensures { result ≡ comment_front cs.now }
{
    match cs {
        [] => Piece::Fault(Flaw::BadChar, 0),
        ['/', after @ ..] => Piece::Gap(line_len(after) + 2),
        [_, after @ ..] => long_comment(after),
    }
}

#[tactic(auto, unfolding(crate::specs::Front::single_front))]
fn single(c: char) -> Piece
    ensures { result ≡ single_front c }
{
    if is_mark(c) {
        Piece::Token(TokenKind::Mark, 1)
    } else {
        Piece::Fault(Flaw::BadChar, 0)
    }
}

#[tactic(auto, unfolding(crate::specs::Front::mark_front))]
fn mark(cs: &[char]) -> Piece
    ensures { result ≡ mark_front cs.now }
{
    match cs {
        [] => Piece::Fault(Flaw::BadChar, 0),
        [c] => single(*c),
        [c, d, ..] => if is_pair_mark(*c, *d) {
            Piece::Token(TokenKind::Mark, 2)
        } else {
            single(*c)
        },
    }
}

fn begins_comment(cs: &[char]) -> bool
    ensures { result ≡ begins_comment cs.now }
{
    matches!(cs, ['/', '/' | '*', ..])
}

/// What stands at the front of the characters, of which there is at least one.
#[tactic(auto, unfolding(crate::specs::Front::front))]
pub fn front(cs: &[char]) -> Piece
    ensures { result ≡ front cs.now }
{
    match cs {
        [] => Piece::Gap(0),
        [c, after @ ..] => {
            if is_blank(*c) {
                Piece::Gap(1)
            } else if begins_name(*c) {
                word(cs, name_len(after) + 1)
            } else if c.is_ascii_digit() {
                number(cs, digits_len(cs))
            } else if *c == '"' {
                text(after)
            } else if begins_comment(cs) {
                comment(after)
            } else {
                mark(cs)
            }
        }
    }
}
