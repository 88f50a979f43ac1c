//! Questions on sets of masks.

use crate::reading::{Question, read_number, read_numbers};
use crate::shown::Answer;
use jn_base::types::Masks;
use jn_masks::{add, drop, has, join, within};
use std::alloc::{AllocError, Global};

/// The answer to a question on sets, written as `{0 64}` with `,` before the second argument:
///
/// - `add {0}, 64`, `drop {0 64}, 64`, `join {0}, {64}`: the set.
/// - `has {0}, 64`, `within {0}, {0 64}`: `yes` or `no`.
/// - `words {0 64}`: the four words of the set.
pub fn answer(alloc: Global, asked: Question<'_>, out: &mut Answer) -> Result<bool, AllocError> {
    let (first, second) = match asked.rest.split_once(',') {
        None => (asked.rest, ""),
        Some(pair) => pair,
    };
    let a = read_set(alloc, first)?;
    let b = read_set(alloc, second)?;
    let mask = mask_of(second);
    match asked.call {
        "add" => put_set(out, add(a, mask)),
        "drop" => put_set(out, drop(a, mask)),
        "has" => out.say(has(a, mask)),
        "join" => put_set(out, join(a, b)),
        "within" => out.say(within(a, b)),
        "words" => put_words(alloc, out, a),
        _ => return Ok(false),
    }
    Ok(true)
}

fn put_words(alloc: Global, out: &mut Answer, set: Masks) {
    let words = set.0;
    out.put_made(format!(in alloc; "{words:?}"));
}

/// A mask's number, 255 for each that is greater.
fn mask_of(text: &str) -> u8 {
    read_number(text).min(255) as u8
}

fn read_set(alloc: Global, text: &str) -> Result<Masks, AllocError> {
    let inside = match text.trim().strip_prefix('{') {
        None => "",
        Some(rest) => match rest.strip_suffix('}') {
            None => "",
            Some(inside) => inside,
        },
    };
    let mut set = Masks([0; 4]);
    for number in &read_numbers(alloc, inside)? {
        set = add(set, (*number).min(255) as u8);
    }
    Ok(set)
}

fn put_set(out: &mut Answer, set: Masks) {
    out.put("{");
    let mut before = "";
    for i in 0..=255u8 {
        if has(set, i) {
            out.put(before);
            out.put_number(i as usize);
            before = " ";
        }
    }
    out.put("}");
}
