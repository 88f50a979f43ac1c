//! The line of a refusal.
use jn_base::path::Path;
use jn_base::refusal::{Limit, Refusal, Rule};
use jn_base::tree::{Name, Place, Program, Text};
use jn_cases::{Case, CasesFault, Tally};
use jn_words::refusal_line;
use sqlite_items::Items;
use std::alloc::{AllocError, Global};

const KEYS: [&str; 8] = [
    "job", "rule", "line", "column", "class", "member", "limit", "err",
];

const RULES: [Rule; 27] = [
    Rule::E01,
    Rule::E02,
    Rule::E03,
    Rule::E04,
    Rule::E05,
    Rule::E06,
    Rule::E07,
    Rule::E08,
    Rule::E09,
    Rule::E10,
    Rule::E11,
    Rule::E12,
    Rule::E13,
    Rule::E14,
    Rule::E15,
    Rule::E16,
    Rule::E17,
    Rule::E18,
    Rule::E19,
    Rule::E20,
    Rule::E21,
    Rule::E22,
    Rule::E23,
    Rule::E24,
    Rule::E25,
    Rule::E26,
    Rule::E27,
];

const LIMITS: [Limit; 9] = [
    Limit::Declarations,
    Limit::Nesting,
    Limit::Parameters,
    Limit::Locals,
    Limit::Atoms,
    Limit::Masks,
    Limit::Names,
    Limit::Entries,
    Limit::Slots,
];

/// Builds the refusal that the case describes, and compares its line.
pub fn run(alloc: Global, case: &Case, tally: &mut Tally) -> Result<(), CasesFault> {
    tally.keys(case, &KEYS)?;
    let program = program_of(alloc, case)?;
    let refusal = match refusal_of(alloc, case, program.names.len())? {
        None => return Ok(tally.fault("rule", "there is no such rule, limit or place")?),
        Some(refusal) => refusal,
    };
    let line = refusal_line(alloc, Some(&program), &refusal)?;
    let wanted = case.text("err").unwrap_or("no key `err`");
    Ok(tally.bytes("err", wanted.as_bytes(), line.as_slice())?)
}

/// A program whose names are those of the class, and then the member's.
fn program_of(alloc: Global, case: &Case) -> Result<Program, CasesFault> {
    let mut names = Items::new(alloc);
    for name in case.texts(alloc, "class")?.iter() {
        names.push(text_of(alloc, name.as_str())?)?;
    }
    if let Some(name) = case.text("member") {
        names.push(text_of(alloc, name)?)?;
    }
    Ok(Program {
        names,
        texts: Items::new(alloc),
        decls: Items::new(alloc),
    })
}

fn text_of(alloc: Global, name: &str) -> Result<Text, AllocError> {
    let bytes = Items::from_slice(alloc, name.as_bytes())?;
    Ok(Text { bytes })
}

/// The refusal, where the case's words say one.
fn refusal_of(alloc: Global, case: &Case, names: usize) -> Result<Option<Refusal>, AllocError> {
    let member = member_of(case, names);
    let class = class_of(alloc, case, names)?;
    let limit = limit_of(alloc, case)?;
    let rule = match case.text("rule") {
        None => None,
        Some(name) => rule_named(alloc, name)?,
    };
    match (rule, place_of(case)) {
        (Some(rule), Some(at)) => Ok(Some(Refusal {
            rule,
            at,
            class,
            member,
            limit,
        })),
        _ => Ok(None),
    }
}

fn place_of(case: &Case) -> Option<Place> {
    let line = u32::try_from(case.number("line")?).ok()?;
    let column = u32::try_from(case.number("column")?).ok()?;
    Some(Place { line, column })
}

/// The member's name is the last.
fn member_of(case: &Case, names: usize) -> Option<Name> {
    case.text("member")?;
    let last = u32::try_from(names.checked_sub(1)?).ok()?;
    Some(Name(last))
}

/// The class's names are the first.
fn class_of(alloc: Global, case: &Case, names: usize) -> Result<Option<Path>, AllocError> {
    let count = match case.text("member") {
        None => names,
        Some(_) => names.saturating_sub(1),
    };
    if count == 0 {
        return Ok(None);
    }
    Ok(Some(first_names(alloc, count)?))
}

fn first_names(alloc: Global, count: usize) -> Result<Path, AllocError> {
    let mut names = Items::new(alloc);
    for n in 0..u32::try_from(count).unwrap_or(0) {
        names.push(Name(n))?;
    }
    Ok(Path { names })
}

fn rule_named(alloc: Global, name: &str) -> Result<Option<Rule>, AllocError> {
    for rule in RULES {
        if format!(in alloc; "{rule:?}")?.as_str() == name {
            return Ok(Some(rule));
        }
    }
    Ok(None)
}

/// The limit whose name in the code is the case's word.
fn limit_of(alloc: Global, case: &Case) -> Result<Option<Limit>, AllocError> {
    match case.text("limit") {
        None => Ok(None),
        Some(name) => limit_named(alloc, name),
    }
}

fn limit_named(alloc: Global, name: &str) -> Result<Option<Limit>, AllocError> {
    for limit in LIMITS {
        if format!(in alloc; "{limit:?}")?.as_str() == name {
            return Ok(Some(limit));
        }
    }
    Ok(None)
}
