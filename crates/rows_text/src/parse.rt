//! The tree and the text of a source, or the line that refuses it.
use jn_base::tree::{Member, Program, Stmt};
use jn_cases::{Case, CasesFault, Tally, bytes_of};
use jn_parser::{ParseFault, parse};
use jn_printer::print_program;
use jn_round_trip::{Returned, text_parsed};
use jn_words::refusal_line;
use std::alloc::Global;

/// The longest source.
const MOST: usize = 1_048_576;

const KEYS: [&str; 8] = [
    "job",
    "source",
    "source_parts",
    "source_hex",
    "err",
    "body",
    "text",
    "a_program",
];

/// Parses the source, and compares what is asked of its program or its refusal.
pub fn run(alloc: Global, case: &Case, tally: &mut Tally) -> Result<(), CasesFault> {
    tally.keys(case, &KEYS)?;
    let source = bytes_of(alloc, case, "source")?.unwrap_or(Vec::new(alloc));
    match parsed(alloc, source.as_slice()) {
        Ok(program) => program_row(alloc, case, &program, tally),
        Err(ParseFault::Memory) => Err(CasesFault::Memory),
        Err(ParseFault::Refused(refusal)) => {
            let line = refusal_line(alloc, None, &refusal)?;
            let wanted = case.text("err").unwrap_or("a program");
            Ok(tally.bytes("err", wanted.as_bytes(), line.as_slice())?)
        }
    }
}

/// The program of a source, which is to be no longer than one may be.
fn parsed(alloc: Global, source: &[u8]) -> Result<Program, ParseFault> {
    if source.len() > MOST {
        return Err(ParseFault::Memory);
    }
    parse(alloc, source)
}

fn program_row(
    alloc: Global,
    case: &Case,
    program: &Program,
    tally: &mut Tally,
) -> Result<(), CasesFault> {
    if let Some(wanted) = case.text("err") {
        tally.bytes("err", wanted.as_bytes(), b"a program")?;
    }
    if case.is_set("a_program") {
        tally.number("a_program", 1, 1)?;
    }
    if let Some(wanted) = case.text("body") {
        let body = first_body(program);
        let came = format!(in alloc; "{body:?}")?;
        tally.bytes("body", wanted.as_bytes(), came.as_str().as_bytes())?;
    }
    match case.text("text") {
        None => Ok(()),
        Some(wanted) => text_row(alloc, wanted.as_bytes(), program, tally),
    }
}

/// The statements of the first method, which is the first member.
fn first_body(program: &Program) -> &[Stmt] {
    match program.decls.as_slice() {
        [decl, ..] => match decl.members.as_slice() {
            [Member::Body(method), ..] => method.body.as_slice(),
            _ => &[],
        },
        [] => &[],
    }
}

/// The program's text, and the text of that text's program, are the wanted one.
fn text_row(
    alloc: Global,
    wanted: &[u8],
    program: &Program,
    tally: &mut Tally,
) -> Result<(), CasesFault> {
    let text = print_program(alloc, program)?;
    tally.bytes("text", wanted, text.as_slice())?;
    match text_parsed(alloc, program) {
        Returned::Parsed(again) => {
            let text = print_program(alloc, &again)?;
            Ok(tally.bytes("text of the text", wanted, text.as_slice())?)
        }
        Returned::Memory => Err(CasesFault::Memory),
        Returned::Refused(_) => Ok(tally.fault("text", "it is refused")?),
        Returned::TooLong => Ok(tally.fault("text", "it is too long")?),
    }
}
