//! Bytes that are like those of an image.

use crate::answers::read_answer;
use jn_cases::{Case, CasesFault, Tally};
use std::alloc::{AllocError, Global};

/// The last of the starts that is at most this.
fn start_before(starts: &[u64], len: u64) -> u64 {
    let mut start = 0;
    for at in starts {
        if *at <= len {
            start = *at;
        }
    }
    start
}

/// Each front of the bytes is short where the field starts that is cut. The `starts` of the fields ascend.
pub fn fronts(
    alloc: Global,
    case: &Case,
    bytes: &[u8],
    tally: &mut Tally,
) -> Result<(), CasesFault> {
    let starts = case.numbers(alloc, "starts")?;
    for len in 0..bytes.len() {
        let start = start_before(starts.as_slice(), len as u64);
        let wanted = format!(in alloc; "{len}: Short {start}")?;
        let came = format!(in alloc; "{len}: {}", read_answer(alloc, &bytes[..len])?)?;
        tally.bytes(
            "front",
            wanted.as_str().as_bytes(),
            came.as_str().as_bytes(),
        )?;
    }
    Ok(())
}

/// The answer where this byte has another value.
fn answer_with(alloc: Global, bytes: &[u8], at: usize, value: u8) -> Result<String, AllocError> {
    let mut other = Vec::from_slice(alloc, bytes)?;
    if let Some(byte) = other.get_mut(at) {
        *byte = value;
    }
    read_answer(alloc, other.as_slice())
}

fn number(text: &str) -> Option<usize> {
    text.parse().ok()
}

fn hex_byte(text: &str) -> Option<u8> {
    u8::from_str_radix(text, 16).ok()
}

/// A place and a value, and the answer.
fn change_of(text: &str) -> Option<(usize, u8, &str)> {
    let (at, rest) = text.split_once(' ')?;
    let (value, answer) = rest.split_once(' ')?;
    Some((number(at)?, hex_byte(value)?, answer))
}

/// Each text of `altered` is a place, a value in hex that stands there in place of the image's own, and the answer.
pub fn altered(
    alloc: Global,
    case: &Case,
    bytes: &[u8],
    tally: &mut Tally,
) -> Result<(), CasesFault> {
    for text in case.texts(alloc, "altered")?.as_slice() {
        match change_of(text.as_str()) {
            None => return Err(CasesFault::NoBytes { line: case.line }),
            Some((at, value, wanted)) => {
                let came = answer_with(alloc, bytes, at, value)?;
                let wanted = format!(in alloc; "{at} {value:02x} {wanted}")?;
                let came = format!(in alloc; "{at} {value:02x} {came}")?;
                tally.bytes(
                    "altered",
                    wanted.as_str().as_bytes(),
                    came.as_str().as_bytes(),
                )?;
            }
        }
    }
    Ok(())
}

/// The first place, the last one, and the answer.
fn range_of(text: &str) -> Option<(usize, usize, &str)> {
    let (first, rest) = text.split_once(' ')?;
    let (last, answer) = rest.split_once(' ')?;
    Some((number(first)?, number(last)?, answer))
}

/// The answer with the place for the sign @.
fn placed(alloc: Global, answer: &str, at: usize) -> Result<String, AllocError> {
    match answer.split_once('@') {
        None => String::from_str(alloc, answer),
        Some((before, behind)) => format!(in alloc; "{before}{at}{behind}"),
    }
}

/// What is wanted at a place: the answer of the first range that has it, and `none` where no range has it.
fn wanted_at(alloc: Global, ranges: &[String], at: usize) -> Result<String, AllocError> {
    for text in ranges {
        if let Some((first, last, answer)) = range_of(text.as_str()) {
            if first <= at && at <= last {
                return placed(alloc, answer, at);
            }
        }
    }
    String::from_str(alloc, "none")
}

/// The value `byte`, in hex, stands at each place in turn. Each text of `altered` is a first place, a last one, and
/// the answer at those, where @ is the place; everywhere else nothing is wrong.
pub fn each(alloc: Global, case: &Case, bytes: &[u8], tally: &mut Tally) -> Result<(), CasesFault> {
    let ranges = case.texts(alloc, "altered")?;
    let Some(value) = hex_byte(case.text("byte").unwrap_or("none")) else {
        return Err(CasesFault::NoBytes { line: case.line });
    };
    for at in 0..bytes.len() {
        let wanted = wanted_at(alloc, ranges.as_slice(), at)?;
        let came = answer_with(alloc, bytes, at, value)?;
        let wanted = format!(in alloc; "{at} {wanted}")?;
        let came = format!(in alloc; "{at} {came}")?;
        tally.bytes("each", wanted.as_str().as_bytes(), came.as_str().as_bytes())?;
    }
    Ok(())
}
