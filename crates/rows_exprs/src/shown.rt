//! How answers are written: types as the rules write them, and refusals.

use jn_base::refusal::Refusal;
use jn_base::tree::{Name, Program, Text};
use jn_base::types::{Anchor, Atom, Masks, Ty};
use jn_masks::has;
use jn_words::refusal_line;
use std::alloc::{AllocError, Global};

/// An answer that is being written. Where memory is wanting it takes no more for good, and its end says so.
#[derive(Drop)]
pub struct Answer {
    alloc: Global,
    text: String,
    wanting: bool,
}

impl Answer {
    /// No text yet.
    pub fn new(alloc: Global) -> Answer {
        Answer {
            alloc,
            text: String::new(alloc),
            wanting: false,
        }
    }

    /// Puts a text behind what is there.
    fn put(&mut self, text: &str) {
        if self.text.push_str(text).is_err() {
            self.wanting = true;
        }
    }

    /// Puts the anchor of a path: what it stands for without its last names.
    fn put_up(&mut self, path: u32, levels: u8) {
        match format!(in self.alloc; "Up({path}, {levels})") {
            Ok(text) => self.put(text.as_str()),
            Err(_) => self.wanting = true,
        }
    }

    /// The text, unless memory was wanting.
    pub fn end(self) -> Result<String, AllocError> {
        if self.wanting {
            return Err(AllocError);
        }
        Ok(self.text)
    }
}

/// A name as the source has it, or `?` where the program has no such name.
fn name_of(names: &[Text], name: Name) -> &str {
    match names.get(name.0 as usize) {
        None => "?",
        Some(text) => match str::from_utf8(text.bytes.as_slice()) {
            Ok(text) => text,
            Err(_) => "?",
        },
    }
}

/// Puts names with a dot between them, and one before the first where there is something to part from.
fn put_dotted(out: &mut Answer, names: &[Text], path: &[Name], follows: bool) {
    let mut follows = follows;
    for name in path {
        if follows {
            out.put(".");
        }
        out.put(name_of(names, *name));
        follows = true;
    }
}

/// Puts an atom: its anchor, unless that is the root, and its names, with `!` behind the last exact one.
fn put_atom(out: &mut Answer, names: &[Text], x: &Atom) {
    let anchored = put_anchor(out, x.anchor);
    put_dotted(out, names, x.exact.as_slice(), anchored);
    if x.exact.is_empty() {
        return put_dotted(out, names, x.names.as_slice(), anchored);
    }
    out.put("!");
    put_dotted(out, names, x.names.as_slice(), true)
}

/// Puts an anchor, and tells whether it is another than the root.
fn put_anchor(out: &mut Answer, anchor: Anchor) -> bool {
    match anchor {
        Anchor::Root => false,
        Anchor::Up(path, k) => {
            out.put_up(path, k);
            true
        }
    }
}

fn put_atoms(out: &mut Answer, names: &[Text], xs: &[Atom]) {
    let mut follows = false;
    for x in xs {
        if follows {
            out.put(" & ");
        }
        put_atom(out, names, x);
        follows = true;
    }
}

fn put_masks(out: &mut Answer, names: &[Text], masks: &[Name], m: Masks) {
    let mut number = 0u8;
    for name in masks {
        if has(m, number) {
            out.put("\\");
            out.put(name_of(names, *name));
        }
        number = number.saturating_add(1);
    }
}

/// Puts a type: its atoms with `&` between them, and its masks by the numbers that the program gives them.
pub fn put_type(out: &mut Answer, names: &[Text], masks: &[Name], ty: &Ty) {
    match ty {
        Ty::Int => out.put("int"),
        Ty::Bool => out.put("boolean"),
        Ty::Null => out.put("null"),
        Ty::Void => out.put("void"),
        Ty::Class(atoms, m) => {
            put_atoms(out, names, atoms.as_slice());
            put_masks(out, names, masks, *m);
        }
    }
}

/// The line of a refusal, without its line feed.
pub fn refusal_text(alloc: Global, p: Option<&Program>, r: &Refusal) -> Result<String, AllocError> {
    let line = refusal_line(alloc, p, r)?;
    match str::from_utf8(line.as_slice()) {
        Ok(line) => String::from_str(alloc, line.trim_end()),
        Err(_) => String::from_str(alloc, "no line"),
    }
}
