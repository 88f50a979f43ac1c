//! The lexer of Jand: the tokens of a source.
//!
//! What a token is, and what a fault, the definitions of `jn_base` say. A source is read from left to right,
//! in time that is linear in its bytes.
#![tactic(auto)]

ghost use Rattle.std.specs.Prelude.{◌≡◌, ◌≤◌, ◌<◌, ◌^◌, List, length, Option, None, IfOk, IfErr};
ghost use Rattle.std.specs.Str.{IsUtf8, chars};
ghost use Rattle.jn_base.specs.Tokens.{width, Lexes, TokensOf};
ghost use Rattle.jn_base.specs.declared.token.Token.{Token as Lexed};
ghost use Rattle.jn_base.specs.declared.token.LexFault.{LexFault as Faulty};
ghost use Rattle.jn_lexer.specs.Lexing.{IsAnswer, IsFaultOf, AreInOrder};

mod front;
mod words;

use crate::front::{Piece, front};
use crate::words::width;
pub use jn_base::token::{LexFault, Token, TokenKind};
use std::alloc::{AllocError, Global};

/// The tokens of a source, or its first fault.
///
/// `LexFault::Memory` comes where there is no memory for the tokens.
pub fn tokens(alloc: Global, bytes: &[u8]) -> Result<Vec<Token>, LexFault>
    requires utf8 { IsUtf8 bytes.now }
    requires within { length bytes.now ≤ 1_048_576 }

    // What is given are the tokens of the bytes, and a fault is the first in the bytes.
    ensures found { IfOk result (λ v. TokensOf bytes.now v.items None) }
    ensures fault { IfErr result (λ f. IsFaultOf bytes.now f) }

    // The bytes have no other tokens and no other first fault.
    ensures only { (ts : List Lexed) (f : Option Faulty) → TokensOf bytes.now ts f → IsAnswer (λ v. v.items) result ts f }

    // So each token's text is a slice of the bytes, and the slices are in order.
    ensures in_order { IfOk result (λ v. AreInOrder 0 v.items (length bytes.now)) }
{
    let Scanned { tokens, fault } = scan(alloc, bytes)?;
    match fault {
        None => Ok(tokens),
        Some(fault) => Err(fault),
    }
}

/// The tokens of a source up to its first fault, or up to its end.
#[derive(Debug, Drop)]
pub struct Scanned {
    pub tokens: Vec<Token>,
    pub fault: Option<LexFault>,
}

/// The tokens of a source up to its first fault, with that fault, or up to its end.
pub fn scan(alloc: Global, bytes: &[u8]) -> Result<Scanned, AllocError>
    requires utf8 { IsUtf8 bytes.now }
    requires within { length bytes.now ≤ 1_048_576 }

    // They are those of the bytes.
    ensures found { IfOk result (λ s. TokensOf bytes.now s.tokens.items s.fault) }

    // Each token's text is a slice of the bytes, and the slices are in order.
    ensures in_order { IfOk result (λ s. AreInOrder 0 s.tokens.items (length bytes.now)) }
{
    let characters = characters(alloc, bytes)?;
    pieces(alloc, characters.as_slice())
}

/// The characters that the bytes spell.
fn characters(alloc: Global, bytes: &[u8]) -> Result<Vec<char>, AllocError>
    requires { IsUtf8 bytes.now }
    ensures { IfOk result (λ v. v.items ≡ chars bytes.now) }
{
    match str::from_utf8(bytes) {
        Ok(text) => Ok(text.chars().collect(alloc)?),
        Err(_) => unreachable!(),
    }
}

/// The tokens of characters up to the first fault in them.
fn pieces(alloc: Global, cs: &[char]) -> Result<Scanned, AllocError>
    requires { width cs.now < 2 ^ 32 }
    ensures { IfOk result (λ s. Lexes 0 cs.now s.tokens.items s.fault) }
{
    let mut tokens = Vec::new(alloc);
    let mut at: u32 = 0;
    let mut rest = cs;
    while !rest.is_empty() {
        let piece = front(rest);
        let (passed, after) = rest.split_at(piece.len());
        let end = at + width(passed);
        match piece {
            Piece::Gap(_) => {}
            Piece::Token(kind, _) => tokens.push(Token {
                kind,
                start: at,
                end,
            })?,
            Piece::Fault(flaw, _) => {
                let fault = Some(flaw.at(end));
                return Ok(Scanned { tokens, fault });
            }
        }
        at = end;
        rest = after;
    }
    let fault = None;
    Ok(Scanned { tokens, fault })
}
