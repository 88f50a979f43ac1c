//! The rows of a case: each is an expression, `=>`, and its type or the line of its refusal.
//!
//! The source of a case has a `#`, where the expression of a row stands: behind the first `return` of the method that
//! the case names. A line of rows that begins with `#` says what the rows below it are about.

use crate::typing::answer;
use jn_cases::{Case, CasesFault, Tally};
use std::alloc::{AllocError, Global};

/// The keys of a case.
const KEYS: [&str; 3] = ["source", "method", "rows"];

/// Asks the rows of a case, and tells the tally what was wanted and what came.
pub fn ask_rows(alloc: Global, tally: &mut Tally, case: &Case) -> Result<(), CasesFault> {
    tally.keys(case, &KEYS)?;
    match (case.text("source"), case.text("method"), case.text("rows")) {
        (Some(source), Some(method), Some(rows)) => {
            check_rows(alloc, tally, source, method, rows)?;
        }
        _ => tally.fault("case", "it lacks a source, a method or rows")?,
    }
    Ok(())
}

fn check_rows(
    alloc: Global,
    tally: &mut Tally,
    source: &str,
    method: &str,
    rows: &str,
) -> Result<(), AllocError> {
    for row in rows.lines() {
        if !row.trim().is_empty() && !row.starts_with('#') {
            check_row(alloc, tally, source, method, row)?;
        }
    }
    Ok(())
}

fn check_row(
    alloc: Global,
    tally: &mut Tally,
    source: &str,
    method: &str,
    row: &str,
) -> Result<(), AllocError> {
    match row.split_once("=>") {
        None => tally.fault(row, "it has no answer"),
        Some((expr, wanted)) => {
            let source = source_with(alloc, source, expr.trim())?;
            let came = answer(alloc, source.as_bytes(), method)?;
            compare(tally, expr.trim(), wanted.trim(), came.as_str())
        }
    }
}

fn compare(tally: &mut Tally, expr: &str, wanted: &str, came: &str) -> Result<(), AllocError> {
    tally.bytes(expr, wanted.as_bytes(), came.as_bytes())
}

/// The source with the expression in place of its `#`.
fn source_with(alloc: Global, source: &str, expr: &str) -> Result<String, AllocError> {
    match source.split_once('#') {
        None => String::from_str(alloc, source),
        Some((before, after)) => format!(in alloc; "{before}{expr}{after}"),
    }
}
