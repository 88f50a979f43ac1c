//! Words: the tokens as the grammar sees them. Names and texts are numbered by first mention.

ghost use Rattle.std.specs.Prelude.{◌≡◌, ◌≤◌, ◌+◌, [], ◌∷◌, ◌++◌, length, map, OnOk, IfOk};
ghost use Rattle.jn_base.specs.Tokens.{TokensOf};
ghost use Rattle.jn_base.specs.Words as spelled;
ghost use Rattle.jn_base.specs.Words.{AreWordsOf, text};
ghost use Rattle.jn_lexer.specs.Lexing.{AreInOrder};
ghost use Rattle.jn_parser.specs.Wording.{Numbers, IsTextFor, HaveTexts, Mentions, AreSoFar};

use crate::place::{moved, place_of};
use crate::rows::split_first;
use crate::spelling::{between_quotes, keyword, mark, unescaped, value};
use indexmap::IndexSet;
use jn_base::token::{LexFault, Token, TokenKind};
use jn_base::tree::{Name, Place, Text};
use jn_base::word::{Lexeme, Word};
use jn_lexer::Scanned;
use sqlite_items::Items;
use std::alloc::{AllocError, Global};

/// The words of a source, with its names and texts by their numbers.
#[derive(Drop)]
pub struct Wording {
    pub words: Vec<Lexeme>,
    pub names: Items<Text>,
    pub texts: Items<Text>,
}

/// The words of some tokens, and the names and the texts that they mention, by their numbers.
#[derive(Drop)]
struct Seen {
    words: Vec<Lexeme>,
    names: IndexSet<Vec<u8>>,
    texts: IndexSet<Vec<u8>>,
}

/// The number of these bytes in a table: the one that they have, or else the next one.
fn number(table: &mut IndexSet<Vec<u8>>, word: Vec<u8>) -> Result<u32, AllocError>
    requires { length table.old.keys ≤ 2_000_000 }
    ensures numbered { IfOk result (λ n. Numbers (map (λ k. k.items) table.old.keys) word.items (map (λ k. k.items) table.new.keys) n) }
    ensures grown { OnOk result (length table.new.keys ≤ 1 + length table.old.keys) }
{
    let (index, _) = table.insert_full(word)?;
    Ok(index as u32)
}

/// The word that a token is.
fn word(
    alloc: Global,
    names: &mut IndexSet<Vec<u8>>,
    texts: &mut IndexSet<Vec<u8>>,
    kind: TokenKind,
    text: &[u8],
) -> Result<Word, AllocError>
    requires text { IsTextFor kind text.now }
    requires few_names { length names.old.keys ≤ 2_000_000 }
    requires few_texts { length texts.old.keys ≤ 2_000_000 }
    ensures mentioned { IfOk result (λ x. Mentions (map (λ k. k.items) names.old.keys) (map (λ k. k.items) texts.old.keys) kind text.now x (map (λ k. k.items) names.new.keys) (map (λ k. k.items) texts.new.keys)) }
    ensures names { OnOk result (length names.new.keys ≤ 1 + length names.old.keys) }
    ensures texts { OnOk result (length texts.new.keys ≤ 1 + length texts.old.keys) }
{
    match kind {
        TokenKind::Name => {
            let n = number(names, Vec::from_slice(alloc, text)?)?;
            Ok(Word::Name(Name(n)))
        }
        TokenKind::Keyword => match keyword(text) {
            Some(k) => Ok(Word::Keyword(k)),
            None => unreachable!(),
        },
        TokenKind::Number => Ok(Word::Number(value(text))),
        TokenKind::Text => {
            let text = unescaped(alloc, between_quotes(text))?;
            Ok(Word::Text(number(texts, text)?))
        }
        TokenKind::Mark => match mark(text) {
            Some(m) => Ok(Word::Mark(m)),
            None => unreachable!(),
        },
    }
}

/// Notes the word of one more token, which stands at a place.
fn mention(
    alloc: Global,
    seen: &mut Seen,
    kind: TokenKind,
    text: &[u8],
    at: Place,
) -> Result<Word, AllocError>
    requires text { IsTextFor kind text.now }
    requires few_names { length seen.old.names.keys ≤ 2_000_000 }
    requires few_texts { length seen.old.texts.keys ≤ 2_000_000 }
    ensures mentioned { IfOk result (λ x. Mentions (map (λ k. k.items) seen.old.names.keys) (map (λ k. k.items) seen.old.texts.keys) kind text.now x (map (λ k. k.items) seen.new.names.keys) (map (λ k. k.items) seen.new.texts.keys)) }
    ensures noted { IfOk result (λ x. seen.new.words.items ≡ seen.old.words.items ++ spelled.lexeme x at ∷ []) }
    ensures names { OnOk result (length seen.new.names.keys ≤ 1 + length seen.old.names.keys) }
    ensures texts { OnOk result (length seen.new.texts.keys ≤ 1 + length seen.old.texts.keys) }
{
    let word = word(alloc, &mut seen.names, &mut seen.texts, kind, text)?;
    seen.words.push(Lexeme { word, at })?;
    Ok(word)
}

/// No words yet.
fn no_words(alloc: Global) -> Seen
    ensures words { result.words.items ≡ [] }
    ensures names { result.names.keys ≡ [] }
    ensures texts { result.texts.keys ≡ [] }
{
    Seen {
        words: Vec::new(alloc),
        names: IndexSet::new(alloc),
        texts: IndexSet::new(alloc),
    }
}

/// Notes the words of the tokens, where none is noted yet.
fn mentioned(
    alloc: Global,
    seen: &mut Seen,
    bytes: &[u8],
    tokens: &[Token],
) -> Result<(), AllocError>
    requires words { seen.old.words.items ≡ [] }
    requires no_names { seen.old.names.keys ≡ [] }
    requires no_texts { seen.old.texts.keys ≡ [] }
    requires within { length bytes.now ≤ 1_048_576 }
    requires in_order { AreInOrder 0 tokens.now (length bytes.now) }
    requires texts { HaveTexts bytes.now tokens.now }
    ensures { OnOk result (AreSoFar bytes.now tokens.now seen.new.words.items (map (λ k. k.items) seen.new.names.keys) (map (λ k. k.items) seen.new.texts.keys)) }
{
    let mut place = Place { line: 1, column: 1 };
    let mut at = 0;
    let mut rest = tokens;
    'token: while let Some((token, after)) = split_first(rest) {
        let start = token.start as usize;
        place = moved(place, &bytes[at..start]);
        let text = &bytes[start..token.end as usize];
        mention(alloc, seen, token.kind, text, place)?;
        at = start;
        rest = after;
    }
    Ok(())
}

/// What stands behind the tokens: the end of the file, or the first fault.
fn last_word(bytes: &[u8], fault: Option<LexFault>) -> Lexeme
    requires { length bytes.now ≤ 1_048_576 }
    ensures { result ≡ spelled.last_word bytes.now fault }
{
    let (word, at) = match fault {
        None => (Word::End, bytes.len()),
        Some(LexFault::BadChar(at)) => (Word::Fault, at as usize),
        Some(LexFault::BadNumber(at)) => (Word::Fault, at as usize),
        Some(LexFault::OpenComment(at)) => (Word::Fault, at as usize),
        Some(LexFault::OpenText(at)) => (Word::Fault, at as usize),
        Some(LexFault::Memory) => (Word::Fault, 0),
    };
    Lexeme {
        word,
        at: place_of(bytes, at),
    }
}

/// The texts of a table, in order.
fn table(alloc: Global, seen: &[Vec<u8>]) -> Result<Items<Text>, AllocError>
    ensures { IfOk result (λ texts. texts ≡ map (λ k. text k.items) seen.now) }
{
    let mut texts = Items::new(alloc);
    let mut rest = seen;
    'text: while let [text, after @ ..] = rest {
        let bytes = Items::from_slice(alloc, text.as_slice())?;
        texts.push(Text { bytes })?;
        rest = after;
    }
    Ok(texts)
}

/// The texts of the table of names and of that of texts.
fn tables(
    alloc: Global,
    names: &[Vec<u8>],
    texts: &[Vec<u8>],
) -> Result<(Items<Text>, Items<Text>), AllocError>
    ensures names { IfOk result (λ x. x.0 ≡ map (λ k. text k.items) names.now) }
    ensures texts { IfOk result (λ x. x.1 ≡ map (λ k. text k.items) texts.now) }
{
    let names = table(alloc, names)?;
    let texts = table(alloc, texts)?;
    Ok((names, texts))
}

/// Notes the words of the tokens, and what stands behind them, where none is noted yet.
fn all_words(
    alloc: Global,
    seen: &mut Seen,
    bytes: &[u8],
    scanned: &Scanned,
) -> Result<(), AllocError>
    requires words { seen.old.words.items ≡ [] }
    requires no_names { seen.old.names.keys ≡ [] }
    requires no_texts { seen.old.texts.keys ≡ [] }
    requires within { length bytes.now ≤ 1_048_576 }
    requires lexed { TokensOf bytes.now scanned.now.tokens.items scanned.now.fault }
    requires in_order { AreInOrder 0 scanned.now.tokens.items (length bytes.now) }
    ensures { OnOk result (AreWordsOf bytes.now (map (λ k. text k.items) seen.new.names.keys) (map (λ k. text k.items) seen.new.texts.keys) seen.new.words.items) }
{
    mentioned(alloc, seen, bytes, scanned.tokens.as_slice())?;
    seen.words.push(last_word(bytes, scanned.fault))?;
    Ok(())
}

/// The words of a source, of which these are the tokens.
pub fn words(alloc: Global, bytes: &[u8], scanned: &Scanned) -> Result<Wording, AllocError>
    requires within { length bytes.now ≤ 1_048_576 }
    requires lexed { TokensOf bytes.now scanned.now.tokens.items scanned.now.fault }
    requires in_order { AreInOrder 0 scanned.now.tokens.items (length bytes.now) }
    ensures { IfOk result (λ w. AreWordsOf bytes.now w.names w.texts w.words.items) }
{
    let mut seen = no_words(alloc);
    all_words(alloc, &mut seen, bytes, scanned)?;
    let (names, texts) = tables(alloc, seen.names.as_slice(), seen.texts.as_slice())?;
    let Seen { words, .. } = seen;
    Ok(Wording {
        words,
        names,
        texts,
    })
}
