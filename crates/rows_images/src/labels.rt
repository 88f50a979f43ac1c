//! What the numbers of an image stand for, in words.

use crate::built::Built;
use jn_agree::selectors::Selectors;
use jn_base::path::Path;
use jn_base::tree::{Name, Text};
use jn_layout::selectors;
use std::alloc::{AllocError, Global};

/// The names of a program, the paths of its classes and its selectors, each at its number.
#[derive(Clone, Copy)]
pub struct Labels<'a> {
    pub alloc: Global,
    pub names: &'a [Text],
    pub classes: &'a [Path],
    pub selectors: &'a Selectors,
}

/// The selectors of a program.
pub fn selectors_of(alloc: Global, made: &Built) -> Result<Selectors, AllocError> {
    selectors(alloc, &made.program, &made.world.table, &made.world.slots)
}

/// A name as the source has it, or `?` where the program has no such name.
pub fn name_text(names: &[Text], name: Name) -> &str {
    match names.get(name.0 as usize) {
        None => "?",
        Some(text) => match str::from_utf8(text.bytes.as_slice()) {
            Ok(text) => text,
            Err(_) => "?",
        },
    }
}

/// The names of a path with dots between them.
pub fn path_text(alloc: Global, names: &[Text], path: &[Name]) -> Result<String, AllocError> {
    let mut text = String::new(alloc);
    for name in path {
        if !text.is_empty() {
            text.push_str(".")?;
        }
        text.push_str(name_text(names, *name))?;
    }
    Ok(text)
}

/// Kinds, a digit each.
pub fn kinds_text(alloc: Global, kinds: &[u8]) -> Result<String, AllocError> {
    let mut text = String::new(alloc);
    for kind in kinds {
        let digit = format!(in alloc; "{kind}")?;
        text.push_str(digit.as_str())?;
    }
    Ok(text)
}

/// CLS with the path of its class.
pub fn class_text(l: &Labels<'_>, class: u16) -> Result<String, AllocError> {
    match l.classes.get(class as usize) {
        None => String::from_str(l.alloc, "CLS:?"),
        Some(path) => {
            let path = path_text(l.alloc, l.names, path.names.as_slice())?;
            format!(in l.alloc; "CLS:{path}")
        }
    }
}

/// DOWN with its name.
pub fn down_text(l: &Labels<'_>, name: u16) -> Result<String, AllocError> {
    let name = name_text(l.names, Name(u32::from(name)));
    format!(in l.alloc; "DOWN:{name}")
}

/// A word with the name and the shape of a method.
pub fn method_text(l: &Labels<'_>, word: &str, selector: u32) -> Result<String, AllocError> {
    match l.selectors.methods.as_slice().get(selector as usize) {
        None => format!(in l.alloc; "{word}:?"),
        Some(sel) => {
            let name = name_text(l.names, sel.name);
            let params = kinds_text(l.alloc, sel.shape.params.as_slice())?;
            format!(in l.alloc; "{word}:{name}({params}){}", sel.shape.result)
        }
    }
}

/// A word with the name and the kind of a field.
pub fn field_text(l: &Labels<'_>, word: &str, selector: u32) -> Result<String, AllocError> {
    match l.selectors.fields.as_slice().get(selector as usize) {
        None => format!(in l.alloc; "{word}:?"),
        Some(sel) => {
            let name = name_text(l.names, sel.name);
            format!(in l.alloc; "{word}:{name}:{}", sel.kind)
        }
    }
}
