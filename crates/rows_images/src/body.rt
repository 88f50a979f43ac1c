//! The code of one body.

use crate::built::{Built, loaded, tell_fault};
use crate::code::instr_text;
use crate::labels::{Labels, kinds_text, name_text, path_text, selectors_of};
use jn_base::names::Resolved;
use jn_base::tree::Text;
use jn_cases::{Case, CasesFault, Tally, bytes_of};
use jn_code::{Code, Image, Instr};
use std::alloc::{AllocError, Global};

/// A body's class and method, with a dot between them.
fn body_text(alloc: Global, names: &[Text], body: &Resolved) -> Result<String, AllocError> {
    let class = path_text(alloc, names, body.class.names.as_slice())?;
    let method = name_text(names, body.method);
    format!(in alloc; "{class}.{method}")
}

/// The number of the body that is called so.
fn number_of(alloc: Global, made: &Built, of: &str) -> Result<Option<usize>, AllocError> {
    let names = made.program.names.as_slice();
    for (k, body) in made.world.bodies.iter().enumerate() {
        let text = body_text(alloc, names, body)?;
        if text.as_str() == of {
            return Ok(Some(k));
        }
    }
    Ok(None)
}

/// The code of the body that is called so, or that of the start.
fn code_of<'a>(
    alloc: Global,
    made: &Built,
    image: &'a Image,
    of: &str,
) -> Result<Option<&'a Code>, AllocError> {
    let codes = image.codes.as_slice();
    if of == "start" {
        return Ok(codes.get(image.start as usize));
    }
    match number_of(alloc, made, of)? {
        None => Ok(None),
        Some(k) => Ok(codes.get(k)),
    }
}

fn instrs_text(l: &Labels<'_>, instrs: &[Instr]) -> Result<String, AllocError> {
    let mut text = String::new(l.alloc);
    for instr in instrs {
        let word = instr_text(l, instr)?;
        text.push_str(word.as_str())?;
        text.push_str(" ")?;
    }
    Ok(text)
}

/// Words with a space behind each.
fn spaced(alloc: Global, words: &str) -> Result<String, AllocError> {
    let mut text = String::new(alloc);
    for word in words.split_whitespace() {
        text.push_str(word)?;
        text.push_str(" ")?;
    }
    Ok(text)
}

/// The words of the code that a case wants.
fn wanted_code(alloc: Global, case: &Case) -> Result<String, CasesFault> {
    let bytes = bytes_of(alloc, case, "code")?.unwrap_or(Vec::new(alloc));
    match str::from_utf8(bytes.as_slice()) {
        Ok(words) => Ok(spaced(alloc, words)?),
        Err(_) => Err(CasesFault::NoBytes { line: case.line }),
    }
}

/// The kinds are those that the case wants, where it wants some.
fn check_kinds(
    alloc: Global,
    case: &Case,
    key: &str,
    kinds: &[u8],
    tally: &mut Tally,
) -> Result<(), AllocError> {
    match case.text(key) {
        None => Ok(()),
        Some(wanted) => {
            let came = kinds_text(alloc, kinds)?;
            tally.bytes(key, wanted.as_bytes(), came.as_str().as_bytes())
        }
    }
}

/// The number is the one that the case wants, where it wants one.
fn check_number(case: &Case, key: &str, came: i64, tally: &mut Tally) -> Result<(), AllocError> {
    match case.number(key) {
        None => Ok(()),
        Some(wanted) => tally.number(key, wanted, came),
    }
}

fn check_code(
    l: &Labels<'_>,
    case: &Case,
    code: &Code,
    tally: &mut Tally,
) -> Result<(), CasesFault> {
    check_kinds(l.alloc, case, "params", code.params.as_slice(), tally)?;
    check_kinds(l.alloc, case, "locals", code.locals.as_slice(), tally)?;
    check_number(case, "result", i64::from(code.result), tally)?;
    check_number(case, "stack", i64::from(code.stack), tally)?;
    let wanted = wanted_code(l.alloc, case)?;
    let came = instrs_text(l, code.instrs.as_slice())?;
    Ok(tally.bytes("code", wanted.as_str().as_bytes(), came.as_str().as_bytes())?)
}

fn check_in(
    alloc: Global,
    case: &Case,
    made: &Built,
    image: &Image,
    tally: &mut Tally,
) -> Result<(), CasesFault> {
    let of = case.text("of").unwrap_or("no body");
    let selectors = selectors_of(alloc, made)?;
    let labels = Labels {
        alloc,
        names: made.program.names.as_slice(),
        classes: made.world.table.known(),
        selectors: &selectors,
    };
    match code_of(alloc, made, image, of)? {
        None => Ok(tally.fault("no such body", of)?),
        Some(code) => check_code(&labels, case, code, tally),
    }
}

/// The code of the body that a case names is the one that it wants.
pub fn check_body(
    alloc: Global,
    case: &Case,
    made: &Built,
    tally: &mut Tally,
) -> Result<(), CasesFault> {
    match loaded(alloc, made.file.as_slice()) {
        Ok(good) => check_in(alloc, case, made, good.image(), tally),
        Err(fault) => Ok(tell_fault(alloc, fault, tally)?),
    }
}
