//! Reading a file of cases.
ghost use Rattle.std.specs.Prelude.{◌≡◌, Some, IfOk, All, map, option_and_then};
ghost use Rattle.toml.specs.Parse.{parse_document};
ghost use Rattle.toml.specs.View.{view};
ghost use Rattle.jn_cases.specs.Cases.{IsNamed, listed_cases, tables_of};

use crate::{Case, CasesFault};
use std::alloc::{AllocError, Global};
use toml::Value;

/// The cases of a file, in its order.
pub fn read_cases(alloc: Global, text: &str) -> Result<Vec<Case>, CasesFault>
    ensures cases { IfOk result (λ v. option_and_then listed_cases (parse_document text.now)
        ≡ Some (tables_of v.items)) }
    ensures names { IfOk result (λ v. All IsNamed v.items) }
{
    let table = match toml::table_from_str(alloc, text) {
        Ok(table) => table,
        Err(fault) => return Err(fault_of(text, &fault)),
    };
    let only_cases = table.len() == 1;
    let document = Value::Table(table);
    let values = match document.get("case") {
        Some(Value::Array(values)) if only_cases => values.as_slice(),
        _ => return Err(CasesFault::NotCases),
    };
    let lines = head_lines(alloc, text)?;
    cases_of(alloc, lines.as_slice(), values)
}

fn cases_of(alloc: Global, lines: &[u32], values: &[Value]) -> Result<Vec<Case>, CasesFault>
    ensures tables { IfOk result (λ v. map (λ c. view c.entries) v.items ≡ map view values.now) }
    ensures names { IfOk result (λ v. All IsNamed v.items) }
{
    let mut cases = Vec::new(alloc);
    for (i, value) in values.iter().enumerate() {
        let line = lines.get(i).copied().unwrap_or(0);
        cases.push(case_of(alloc, line, value)?)?;
    }
    Ok(cases)
}

fn case_of(alloc: Global, line: u32, value: &Value) -> Result<Case, CasesFault>
    ensures entries { IfOk result (λ c. view c.entries ≡ view value.now) }
    ensures name { IfOk result IsNamed }
{
    let name = match value.get("name") {
        Some(Value::String(name)) => name,
        _ => return Err(CasesFault::NoName { line }),
    };
    Ok(Case {
        name: String::from_str(alloc, name.as_str())?,
        line,
        entries: value.clone()?,
    })
}

// The number of the line, from 1, where each case begins.
fn head_lines(alloc: Global, text: &str) -> Result<Vec<u32>, AllocError> {
    let mut lines = Vec::new(alloc);
    let mut line = 0u32;
    for text in text.lines() {
        line = line.saturating_add(1);
        if text.trim_end() == "[[case]]" {
            lines.push(line)?;
        }
    }
    Ok(lines)
}

fn fault_of(text: &str, fault: &toml::de::Error) -> CasesFault {
    match fault.span() {
        None => CasesFault::Memory,
        Some(span) => CasesFault::NotToml {
            line: line_at(text, span.start),
        },
    }
}

// The number of the line, from 1, where the byte with this number stands.
fn line_at(text: &str, at: usize) -> u32 {
    let mut line = 1u32;
    for byte in text.bytes().take(at) {
        if byte == b'\n' {
            line = line.saturating_add(1);
        }
    }
    line
}
