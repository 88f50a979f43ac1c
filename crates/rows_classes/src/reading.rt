//! What the words of a question stand for.

use jn_base::path::Path;
use jn_base::tree::{Name, Text};
use sqlite_items::Items;
use std::alloc::{AllocError, Global};

/// A name that no program has.
const NO_NAME: Name = Name(u32::MAX);

/// A question: its first word, and what stands behind that.
#[derive(Clone, Copy)]
pub struct Question<'a> {
    pub call: &'a str,
    pub rest: &'a str,
}

/// The question that a text is.
pub fn question_of(text: &str) -> Question<'_> {
    let (call, rest) = split(text);
    Question { call, rest }
}

/// The first word of a text, and what stands behind that.
pub fn split(text: &str) -> (&str, &str) {
    match text.trim().split_once(' ') {
        None => (text.trim(), ""),
        Some((word, rest)) => (word, rest.trim()),
    }
}

/// The number of a name in a program, or one that no name has.
pub fn read_name(names: &[Text], text: &str) -> Name {
    let mut number = 0u32;
    for name in names {
        if name.bytes.as_slice() == text.as_bytes() {
            return Name(number);
        }
        number = number.saturating_add(1);
    }
    NO_NAME
}

/// A path with dots, as `a.C`; a lone dot is the program itself.
pub fn read_path(alloc: Global, names: &[Text], text: &str) -> Result<Path, AllocError> {
    let mut path = Items::new(alloc);
    for name in text.split('.') {
        if !name.is_empty() {
            path.push(read_name(names, name))?;
        }
    }
    Ok(Path { names: path })
}

/// A number, or 0 where the text is none.
pub fn read_number(text: &str) -> usize {
    match text.trim().parse::<usize>() {
        Ok(number) => number,
        Err(_) => 0,
    }
}

/// Numbers with white space between them.
pub fn read_numbers(alloc: Global, text: &str) -> Result<Vec<usize>, AllocError> {
    let mut all = Vec::new(alloc);
    for word in text.split_whitespace() {
        all.push(read_number(word))?;
    }
    Ok(all)
}
