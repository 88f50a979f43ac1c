//! Steps over words.

ghost use Rattle.std.specs.Prelude.{◌≡◌, length};
ghost use Rattle.jn_base.specs.declared.word.Word.TheVariants as words;
ghost use Rattle.jn_grammar.specs.declared.fault.Fault.TheVariants as faults;
ghost use Rattle.jn_grammar.specs.Answers.{expect, name_in};
ghost use Rattle.jn_grammar.specs.Begins.{same_mark, same_key, is_word, begins, behind, place};
ghost use Rattle.jn_parser.specs.declared.fault.Stop.TheVariants as stops;
ghost use Rattle.jn_parser.specs.Giving.{Gives};

use crate::fault::Stop;
use jn_base::refusal::Limit;
use jn_base::tree::{Named, Place};
use jn_base::word::{Keyword, Lexeme, Mark, Word};
use jn_grammar::fault::Fault;

fn is_same_mark(a: Mark, b: Mark) -> bool
    ensures { result ≡ same_mark a b }
{
    a as u8 == b as u8
}

fn is_same_key(a: Keyword, b: Keyword) -> bool
    ensures { result ≡ same_key a b }
{
    a as u8 == b as u8
}

fn is_mark(mark: Mark, word: Word) -> bool
    ensures { result ≡ is_word (words.Mark mark) word }
{
    match word {
        Word::Mark(m) => is_same_mark(m, mark),
        _ => false,
    }
}

fn is_key(key: Keyword, word: Word) -> bool
    ensures { result ≡ is_word (words.Keyword key) word }
{
    match word {
        Word::Keyword(k) => is_same_key(k, key),
        _ => false,
    }
}

/// The refusal of the first of these words, with which no program goes on.
pub fn syntax(ts: &[Lexeme]) -> Stop
    ensures { result ≡ stops.Refused (faults.Syntax (length ts.now)) }
{
    Stop::Refused(Fault::Syntax(ts.len()))
}

/// The refusal of the first of these words, which passes the limit.
pub fn passed(limit: Limit, ts: &[Lexeme]) -> Stop
    ensures { result ≡ stops.Refused (faults.Passed limit (length ts.now)) }
{
    Stop::Refused(Fault::Passed(limit, ts.len()))
}

/// Whether the first word is this mark.
pub fn starts(mark: Mark, ts: &[Lexeme]) -> bool
    ensures { result ≡ begins (words.Mark mark) ts.now }
{
    match ts {
        [] => false,
        [t, ..] => is_mark(mark, t.word),
    }
}

/// Whether the first word is this keyword.
pub fn starts_key(key: Keyword, ts: &[Lexeme]) -> bool
    ensures { result ≡ begins (words.Keyword key) ts.now }
{
    match ts {
        [] => false,
        [t, ..] => is_key(key, t.word),
    }
}

/// The words behind the first.
pub fn behind(ts: &[Lexeme]) -> &[Lexeme]
    ensures { result.now ≡ behind ts.now }
{
    match ts {
        [] => ts,
        [_, rest @ ..] => rest,
    }
}

/// Where the first word stands.
pub fn place_of(ts: &[Lexeme]) -> Place
    ensures { result ≡ place ts.now }
{
    match ts {
        [] => Place { line: 0, column: 0 },
        [t, ..] => t.at,
    }
}

/// The mark that must come.
pub fn take(mark: Mark, ts: &[Lexeme]) -> Result<(Place, &[Lexeme]), Stop>
    ensures { Gives (λ x. (x.0, x.1.now)) result (expect (words.Mark mark) ts.now) }
{
    match ts {
        [] => Err(syntax(ts)),
        [t, rest @ ..] => {
            if is_mark(mark, t.word) {
                Ok((t.at, rest))
            } else {
                Err(syntax(ts))
            }
        }
    }
}

/// The keyword that must come.
pub fn take_key(key: Keyword, ts: &[Lexeme]) -> Result<(Place, &[Lexeme]), Stop>
    ensures { Gives (λ x. (x.0, x.1.now)) result (expect (words.Keyword key) ts.now) }
{
    match ts {
        [] => Err(syntax(ts)),
        [t, rest @ ..] => {
            if is_key(key, t.word) {
                Ok((t.at, rest))
            } else {
                Err(syntax(ts))
            }
        }
    }
}

/// The name that must come.
pub fn name(ts: &[Lexeme]) -> Result<(Named, &[Lexeme]), Stop>
    ensures { Gives (λ x. (x.0, x.1.now)) result (name_in ts.now) }
{
    match ts {
        [] => Err(syntax(ts)),
        [t, rest @ ..] => match t.word {
            Word::Name(name) => Ok((Named { name, at: t.at }, rest)),
            _ => Err(syntax(ts)),
        },
    }
}
