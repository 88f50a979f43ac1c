//! The source of a case.

use jn_cases::{Case, CasesFault, bytes_of};
use std::alloc::{AllocError, Global};
use toml::Value;

/// The source that a case gives: under `source`, or under `source_parts` with repeats, or under `source_numbered`, a
/// list of texts with the first and the last of the numbers for which each stands there. In such a text `#` is the
/// number in four digits, and `%` the number before it.
pub fn source_of(alloc: Global, case: &Case) -> Result<Option<Vec<u8>>, CasesFault> {
    match case.list("source_numbered") {
        None => bytes_of(alloc, case, "source"),
        Some(parts) => {
            let mut source = Vec::new(alloc);
            for part in parts {
                put_part(alloc, &mut source, case.line, part)?;
            }
            Ok(Some(source))
        }
    }
}

fn put_part(
    alloc: Global,
    source: &mut Vec<u8>,
    line: u32,
    part: &Value,
) -> Result<(), CasesFault> {
    match numbered(part) {
        None => Err(CasesFault::NoBytes { line }),
        Some((text, first, last)) => {
            for number in first..last.saturating_add(1) {
                put_numbered(alloc, source, text, number)?;
            }
            Ok(())
        }
    }
}

/// A text, and the first and the last of its numbers.
fn numbered(part: &Value) -> Option<(&str, u16, u16)> {
    match part.as_array()?.as_slice() {
        [text, first, last] => Some((text.as_str()?, number_of(first)?, number_of(last)?)),
        _ => None,
    }
}

fn number_of(value: &Value) -> Option<u16> {
    u16::try_from(value.as_integer()?).ok()
}

fn put_numbered(
    alloc: Global,
    source: &mut Vec<u8>,
    text: &str,
    number: u16,
) -> Result<(), AllocError> {
    let before = number.saturating_sub(1);
    let own = format!(in alloc; "{number:04}")?;
    let previous = format!(in alloc; "{before:04}")?;
    for byte in text.bytes() {
        match byte {
            b'#' => source.extend_from_slice(own.as_bytes())?,
            b'%' => source.extend_from_slice(previous.as_bytes())?,
            byte => source.push(byte)?,
        }
    }
    Ok(())
}
