//! The limits that words alone show: how many different names there are, and how many of them name masks.

ghost use Rattle.std.specs.Prelude.{◌≡◌, [], IfOk, OnOk};
ghost use Rattle.jn_base.specs.Words.{name_number};
ghost use Rattle.jn_grammar.specs.TokenLimits.{token_limit};
ghost use Rattle.jn_parser.specs.Noted.{noted, shown_by};

use crate::cursor::starts;
use crate::rows::split_first;
use indexmap::IndexSet;
use jn_base::refusal::Limit;
use jn_base::word::{Lexeme, Mark, Word};
use std::alloc::{AllocError, Global};

/// The limit that a word passes behind words with these names of masks.
fn shown(masks: &IndexSet<u32>, is_mask: bool, word: Word) -> Option<Limit>
    ensures { result ≡ shown_by masks.now.keys is_mask (name_number word) }
{
    match word {
        Word::Name(name) => {
            if is_mask && !masks.contains(&name.0) && masks.len() >= 256 {
                Some(Limit::Masks)
            } else if name.0 >= 65_535 {
                Some(Limit::Names)
            } else {
                None
            }
        }
        _ => None,
    }
}

/// Notes the name of a mask.
fn note(masks: &mut IndexSet<u32>, is_mask: bool, word: Word) -> Result<(), AllocError>
    ensures { OnOk result (masks.new.keys ≡ noted is_mask (name_number word) masks.old.keys) }
{
    if let Word::Name(name) = word {
        if is_mask {
            let (_, _) = masks.insert_full(name.0)?;
        }
    }
    Ok(())
}

/// The first word that passes the limit of mask names or of names, by how many words stand from there to the end.
pub fn first_passed(alloc: Global, words: &[Lexeme]) -> Result<Option<(Limit, usize)>, AllocError>
    ensures { IfOk result (λ r. r ≡ token_limit words.now) }
{
    let mut masks = IndexSet::new(alloc);
    passed_behind(words, &mut masks)
}

/// The same, where the masks that are noted are none.
fn passed_behind(
    words: &[Lexeme],
    masks: &mut IndexSet<u32>,
) -> Result<Option<(Limit, usize)>, AllocError>
    requires { masks.old.keys ≡ [] }
    ensures { IfOk result (λ r. r ≡ token_limit words.now) }
{
    let mut is_mask = false;
    let mut rest = words;
    'word: while let Some((t, after)) = split_first(rest) {
        if let Some(limit) = shown(masks, is_mask, t.word) {
            return Ok(Some((limit, rest.len())));
        }
        note(masks, is_mask, t.word)?;
        is_mask = starts(Mark::Backslash, rest);
        rest = after;
    }
    Ok(None)
}
