//! The tokens of a source.
use jn_base::token::Token;
use jn_cases::{Case, CasesFault, Tally, bytes_of};
use std::alloc::{AllocError, Global};
use std::str;

/// The longest source.
const MOST: usize = 1_048_576;

/// The tokens with their bytes, or the fault.
pub fn run(alloc: Global, case: &Case, tally: &mut Tally) -> Result<(), CasesFault> {
    tally.keys(case, &["job", "source", "source_parts", "tokens"])?;
    let source = bytes_of(alloc, case, "source")?.unwrap_or(Vec::new(alloc));
    let wanted = case.text("tokens").unwrap_or("no key `tokens`");
    let came = shown(alloc, source.as_slice())?;
    Ok(tally.bytes("tokens", wanted.as_bytes(), came.as_str().as_bytes())?)
}

fn shown(alloc: Global, source: &[u8]) -> Result<String, AllocError> {
    if source.len() > MOST || str::from_utf8(source).is_err() {
        return String::from_str(alloc, "no text, or too long");
    }
    match jn_lexer::tokens(alloc, source) {
        Ok(tokens) => shown_tokens(alloc, tokens.as_slice()),
        Err(fault) => format!(in alloc; "{fault:?}"),
    }
}

fn shown_tokens(alloc: Global, tokens: &[Token]) -> Result<String, AllocError> {
    let mut text = String::new(alloc);
    for token in tokens {
        let (kind, start, end) = (token.kind, token.start, token.end);
        write!(&mut text, "{kind:?} {start}..{end};")?;
    }
    Ok(text)
}
