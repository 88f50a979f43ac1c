//! The parser of Jand: the program that a source spells, or its first refusal.
//!
//! Tokens become words, names and texts being numbered by first mention, and the words are read by recursive descent.
//! Each function reads what its counterpart of `jn_grammar`'s reader reads, and that reads the grammar and nothing else.
#![tactic(auto)]

ghost use Rattle.std.specs.Prelude.{◌≡◌, ◌≤◌, length, List, ℕ, None, IfOk};
ghost use Rattle.std.specs.Str.{IsUtf8};
ghost use Rattle.jn_base.specs.declared.refusal.Refusal.{Refusal as Refusing};
ghost use Rattle.jn_base.specs.declared.tree.Program.{Program as Spelled};
ghost use Rattle.jn_base.specs.Spelling as spelling_;
ghost use Rattle.jn_base.specs.Spelling.{SourceSpells, IsTextRefused, IsTextOf};
ghost use Rattle.jn_grammar.specs.TokenLimits as limits_;
ghost use Rattle.jn_grammar.specs.TokenLimits.{checked_in};
ghost use Rattle.jn_parser.specs.Giving.{Gives};
ghost use Rattle.jn_parser.specs.Parsing.{IfRefused, IsGiven, IsRefused, refusal_of};

mod cursor;
mod decl;
mod expr;
mod fault;
mod limits;
mod place;
mod rows;
mod spelling;
mod stmt;
mod types;
mod words;

use crate::decl::program;
use crate::fault::Stop;
use crate::limits::first_passed;
use crate::place::place_of;
use crate::words::{Wording, words};
pub use fault::ParseFault;
use jn_base::refusal::{Limit, Refusal, Rule};
use jn_base::tree::{Decl, Place, Program};
use jn_base::word::Lexeme;
use jn_grammar::fault::Fault;
use jn_lexer::scan;
use sqlite_items::Items;
use std::alloc::Global;

/// A source that the first three steps of the verdict don't refuse spells one program.
pub fn one_program()
    ensures { (p q : Spelled) (bytes : List ℕ) → length bytes ≤ 1_048_576 → IsTextOf p bytes → SourceSpells q bytes → p ≡ q }
{}

/// The program that a source spells, or its first refusal: by E03 where it is no UTF-8, and else by E01 or E04 at the
/// first word with which no program begins, or which passes a limit.
///
/// `ParseFault::Memory` comes where there is no memory for the tree.
pub fn parse(alloc: Global, bytes: &[u8]) -> Result<Program, ParseFault>
    requires { length bytes.now ≤ 1_048_576 }

    // What is given is spelled by the source, places and all, and nothing of the source is refused.
    ensures found { IfOk result (λ p. IsTextOf p bytes.now) }

    // The program of a source of which nothing is refused is given, unless memory runs out.
    ensures only { (p : Spelled) → IsTextOf p bytes.now → IsGiven result p }

    // What is refused is refused so by the first three steps of the verdict.
    ensures refused { IfRefused result (λ r. IsTextRefused bytes.now r) }

    // What they refuse is refused so, unless memory runs out.
    ensures only_refused { (r : Refusing) → IsTextRefused bytes.now r → IsRefused result r }
{
    let at = match str::from_utf8(bytes) {
        Ok(_) => return parse_text(alloc, bytes),
        Err(e) => place_of(bytes, e.valid_up_to()),
    };
    Err(ParseFault::Refused(refusal(Rule::E03, at, None)))
}

/// The program of a source that is UTF-8.
fn parse_text(alloc: Global, bytes: &[u8]) -> Result<Program, ParseFault>
    requires within { length bytes.now ≤ 1_048_576 }
    requires utf8 { IsUtf8 bytes.now }
    ensures found { IfOk result (λ p. IsTextOf p bytes.now) }
    ensures refused { IfRefused result (λ r. IsTextRefused bytes.now r) }
{
    let scanned = scan(alloc, bytes)?;
    let Wording {
        words,
        names,
        texts,
    } = words(alloc, bytes, &scanned)?;
    match checked(alloc, words.as_slice()) {
        Ok((decls, _)) => Ok(Program {
            names,
            texts,
            decls,
        }),
        Err(Stop::Refused(fault)) => Err(ParseFault::Refused(refused_at(words.as_slice(), fault))),
        Err(Stop::Memory) => Err(ParseFault::Memory),
    }
}

/// The declarations that the words are, or the first fault, the limits of names among them.
#[tactic(auto, unfolding(jn_grammar::specs::TokenLimits::checked_in))]
fn checked(alloc: Global, words: &[Lexeme]) -> Result<(Items<Decl>, &[Lexeme]), Stop>
    ensures { Gives (λ x. (x.0, x.1.now)) result (checked_in words.now) }
{
    let limit = first_passed(alloc, words)?;
    match program(alloc, words) {
        Ok(read) => match limit {
            None => Ok(read),
            Some((limit, left)) => Err(Stop::Refused(Fault::Passed(limit, left))),
        },
        Err(Stop::Refused(fault)) => match limit {
            Some((limit, left)) if left_of(fault) < left => {
                Err(Stop::Refused(Fault::Passed(limit, left)))
            }
            _ => Err(Stop::Refused(fault)),
        },
        Err(Stop::Memory) => Err(Stop::Memory),
    }
}

/// How many words stand from the fault to the end.
fn left_of(fault: Fault) -> usize
    ensures { result ≡ limits_.left_of fault }
{
    match fault {
        Fault::Syntax(left) => left,
        Fault::Passed(_, left) => left,
    }
}

fn refusal(rule: Rule, at: Place, limit: Option<Limit>) -> Refusal
    ensures { result ≡ spelling_.refusal rule at limit }
{
    Refusal {
        rule,
        at,
        class: None,
        member: None,
        limit,
    }
}

/// The refusal of a fault in these words.
fn refused_at(words: &[Lexeme], fault: Fault) -> Refusal
    ensures { result ≡ refusal_of words.now fault }
{
    let from = words.len().saturating_sub(left_of(fault));
    let at = cursor::place_of(&words[from..]);
    match fault {
        Fault::Syntax(_) => refusal(Rule::E01, at, None),
        Fault::Passed(limit, _) => refusal(Rule::E04, at, Some(limit)),
    }
}
