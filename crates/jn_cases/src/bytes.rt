//! The bytes that a case gives.
ghost use Rattle.std.specs.Prelude.{◌≡◌, ◌++◌, ◌+◌, ◌<◌, ◌^◌, decimal, [], not, Some, IfOk, IfSome, OnOk, option_map, filter, pos};
ghost use Rattle.std.specs.Char.{is_ascii_whitespace};
ghost use Rattle.toml.specs.Data.{string, integer, array, no_items, item};
ghost use Rattle.toml.specs.View.{view, items_view};
ghost use Rattle.jn_cases.specs.Cases.{bytes_under, hex_bytes, copies, numbered, part_bytes, text_part, with_parts};

use crate::{Case, CasesFault};
use itoa::Buffer;
use std::alloc::{AllocError, Global};
use toml::Value;

/// The bytes under a key, if the case gives any: from `KEY` a text as it stands, from `KEY_hex` hex digits with
/// white space between them, and from `KEY_parts` and `KEY_hex_parts` a list of pairs of such a text and how often it
/// stands there, as `[["ab", 1], ["(", 198]]`.
pub fn bytes_of(alloc: Global, case: &Case, key: &str) -> Result<Option<Vec<u8>>, CasesFault>
    ensures { IfOk result (λ o. option_map (λ v. v.items) o ≡ bytes_under case.now key.now) }
{
    if let Some(text) = case.text(key) {
        return Ok(Some(Vec::from_slice(alloc, text.as_bytes())?));
    }
    let hex = format!(in alloc; "{key}_hex")?;
    if let Some(text) = case.text(hex.as_str()) {
        return Ok(Some(bytes_of_hex(alloc, case.line, text)?));
    }
    let parts = format!(in alloc; "{key}_parts")?;
    if let Some(parts) = case.list(parts.as_str()) {
        return Ok(Some(bytes_of_parts(alloc, case.line, parts)?));
    }
    let hex_parts = format!(in alloc; "{key}_hex_parts")?;
    if let Some(parts) = case.list(hex_parts.as_str()) {
        return Ok(Some(bytes_of_hex_parts(alloc, case.line, parts)?));
    }
    Ok(None)
}

fn bytes_of_hex(alloc: Global, line: u32, text: &str) -> Result<Vec<u8>, CasesFault>
    ensures { IfOk result (λ v. hex_bytes text.now ≡ Some v.items) }
{
    let digits = without_space(alloc, text)?;
    match hex::decode(alloc, digits.as_slice()) {
        Ok(bytes) => Ok(bytes),
        Err(hex::FromHexError::OutOfMemory) => Err(CasesFault::Memory),
        Err(_) => Err(CasesFault::NoBytes { line }),
    }
}

fn without_space(alloc: Global, text: &str) -> Result<Vec<u8>, AllocError>
    ensures { IfOk result (λ v. v.items ≡ filter (λ b. not (is_ascii_whitespace b)) text.now) }
{
    text.bytes()
        .filter(|b| !b.is_ascii_whitespace())
        .collect(alloc)
}

fn bytes_of_parts(alloc: Global, line: u32, parts: &[Value]) -> Result<Vec<u8>, CasesFault>
    ensures { IfOk result (λ v. with_parts text_part [] (items_view parts.now) ≡ Some v.items) }
{
    let mut bytes = Vec::new(alloc);
    for part in parts {
        put_part(&mut bytes, line, part)?;
    }
    Ok(bytes)
}

fn put_part(bytes: &mut Vec<u8>, line: u32, part: &Value) -> Result<(), CasesFault>
    ensures { OnOk result (option_map (λ more. bytes.old.items ++ more) (text_part (view part.now))
        ≡ Some bytes.new.items) }
{
    if let Some((text, count)) = copies_of(part) {
        put_copies(bytes, text.as_bytes(), count)?;
        return Ok(());
    }
    match numbered_of(part) {
        None => Err(CasesFault::NoBytes { line }),
        Some((before, first, count, behind)) => {
            put_numbered(bytes, before.as_bytes(), first, count, behind.as_bytes())?;
            Ok(())
        }
    }
}

fn bytes_of_hex_parts(alloc: Global, line: u32, parts: &[Value]) -> Result<Vec<u8>, CasesFault>
    ensures { IfOk result (λ v. with_parts (part_bytes hex_bytes) [] (items_view parts.now) ≡ Some v.items) }
{
    let mut bytes = Vec::new(alloc);
    for part in parts {
        put_hex_part(alloc, &mut bytes, line, part)?;
    }
    Ok(bytes)
}

fn put_hex_part(
    alloc: Global,
    bytes: &mut Vec<u8>,
    line: u32,
    part: &Value,
) -> Result<(), CasesFault>
    ensures { OnOk result (option_map (λ more. bytes.old.items ++ more) (part_bytes hex_bytes (view part.now))
        ≡ Some bytes.new.items) }
{
    let (text, count) = match copies_of(part) {
        Some(pair) => pair,
        None => return Err(CasesFault::NoBytes { line }),
    };
    let piece = bytes_of_hex(alloc, line, text)?;
    put_copies(bytes, piece.as_slice(), count)?;
    Ok(())
}

// A text and a count that is not negative.
fn copies_of(part: &Value) -> Option<(&str, u64)>
    ensures { IfSome result (λ pair. view part.now
        ≡ array (item (string pair.0.now) (item (integer (pos pair.1)) no_items))) }
{
    match part.as_array()?.as_slice() {
        [text, count] => Some((text.as_str()?, u64::try_from(count.as_integer()?).ok()?)),
        _ => None,
    }
}

// What stands before each number, the first, how many there are, and what stands behind each.
fn numbered_of(part: &Value) -> Option<(&str, u64, u64, &str)>
    ensures form { IfSome result (λ n. view part.now ≡ array (item (string n.0.now)
        (item (integer (pos n.1)) (item (integer (pos n.2)) (item (string n.3.now) no_items))))) }
    ensures fits { IfSome result (λ n. n.1 + n.2 < 2 ^ 64) }
{
    match part.as_array()?.as_slice() {
        [before, first, count, behind] => {
            let first = u64::try_from(first.as_integer()?).ok()?;
            let count = u64::try_from(count.as_integer()?).ok()?;
            first.checked_add(count)?;
            Some((before.as_str()?, first, count, behind.as_str()?))
        }
        _ => None,
    }
}

fn put_numbered(
    bytes: &mut Vec<u8>,
    before: &[u8],
    first: u64,
    count: u64,
    behind: &[u8],
) -> Result<(), AllocError>
    requires { first + count < 2 ^ 64 }
    ensures { OnOk result (bytes.new.items ≡ bytes.old.items ++ numbered before.now first count behind.now) }
{
    for i in 0..count {
        put_number(bytes, before, first + i, behind)?;
    }
    Ok(())
}

fn put_number(
    bytes: &mut Vec<u8>,
    before: &[u8],
    number: u64,
    behind: &[u8],
) -> Result<(), AllocError>
    ensures { OnOk result (bytes.new.items ≡ bytes.old.items ++ before.now ++ decimal number ++ behind.now) }
{
    let mut buffer = Buffer::new();
    bytes.extend_from_slice(before)?;
    bytes.extend_from_slice(buffer.format(number).as_bytes())?;
    bytes.extend_from_slice(behind)
}

fn put_copies(bytes: &mut Vec<u8>, piece: &[u8], count: u64) -> Result<(), AllocError>
    ensures { OnOk result (bytes.new.items ≡ bytes.old.items ++ copies count piece.now) }
{
    for _ in 0..count {
        bytes.extend_from_slice(piece)?;
    }
    Ok(())
}
