//! The rows of a case: each is a question, `=>`, and its answer.

use crate::reading::{Question, question_of};
use crate::setting::{Setting, setting_of};
use crate::shown::Answer;
use crate::source::source_of;
use crate::world::{Made, World, made_of};
use crate::{bounds, graphs, members, names, sets, slots, tables, types};
use jn_cases::{Case, CasesFault, Tally};
use jn_table::Table;
use std::alloc::{AllocError, Global};

/// The keys of a case: its source in one of three forms, the method and class where its terms stand, how its types are
/// taken, a graph, and its rows.
const KEYS: [&str; 8] = [
    "source",
    "source_parts",
    "source_numbered",
    "method",
    "class",
    "types",
    "graph",
    "rows",
];

/// Asks the rows of a case, and tells the tally what was wanted and what came.
pub fn ask_rows(alloc: Global, tally: &mut Tally, case: &Case) -> Result<(), CasesFault> {
    tally.keys(case, &KEYS)?;
    if let Some(rows) = case.text("rows") {
        match source_of(alloc, case)? {
            None => check_rows(alloc, tally, case, &mut None, rows)?,
            Some(source) => with_source(alloc, tally, case, &source, rows)?,
        }
    }
    Ok(())
}

fn with_source(
    alloc: Global,
    tally: &mut Tally,
    case: &Case,
    source: &[u8],
    rows: &str,
) -> Result<(), AllocError> {
    match made_of(alloc, source)? {
        Made::Refused(line) => tally.fault("source", line.as_str()),
        Made::World(world) => check_rows(alloc, tally, case, &mut Some(world), rows),
    }
}

fn check_rows(
    alloc: Global,
    tally: &mut Tally,
    case: &Case,
    world: &mut Option<World>,
    rows: &str,
) -> Result<(), AllocError> {
    for row in rows.lines() {
        if !row.trim().is_empty() && !row.starts_with('#') {
            check_row(alloc, tally, case, world, row)?;
        }
    }
    Ok(())
}

fn check_row(
    alloc: Global,
    tally: &mut Tally,
    case: &Case,
    world: &mut Option<World>,
    row: &str,
) -> Result<(), AllocError> {
    match row.split_once("=>") {
        None => tally.fault(row, "it has no answer"),
        Some((question, wanted)) => {
            let came = answer(alloc, case, world, question_of(question))?;
            compare(tally, question.trim(), wanted.trim(), came.as_str())
        }
    }
}

fn compare(tally: &mut Tally, question: &str, wanted: &str, came: &str) -> Result<(), AllocError> {
    tally.bytes(question, wanted.as_bytes(), came.as_bytes())
}

fn answer(
    alloc: Global,
    case: &Case,
    world: &mut Option<World>,
    asked: Question<'_>,
) -> Result<String, AllocError> {
    let mut out = Answer::new(alloc);
    if !is_answered(alloc, case, world, asked, &mut out)? {
        out.put("there is no such question");
    }
    out.end()
}

/// Writes the answer, and tells whether there is such a question.
fn is_answered(
    alloc: Global,
    case: &Case,
    world: &mut Option<World>,
    asked: Question<'_>,
    out: &mut Answer,
) -> Result<bool, AllocError> {
    match world {
        None => without_source(alloc, case, asked, out),
        Some(world) => Ok(
            of_world(alloc, world, asked, out)? || of_method(alloc, case, world, asked, out)?,
        ),
    }
}

fn without_source(
    alloc: Global,
    case: &Case,
    asked: Question<'_>,
    out: &mut Answer,
) -> Result<bool, AllocError> {
    match case.text("graph") {
        None => sets::answer(alloc, asked, out),
        Some(graph) => graphs::answer(alloc, graph, asked, out),
    }
}

/// The answer to a question on the program of a source, by the first subject that has such a question. A further
/// subject has its own file and its line here.
fn of_world(
    alloc: Global,
    world: &mut World,
    asked: Question<'_>,
    out: &mut Answer,
) -> Result<bool, AllocError> {
    if tables::answer(alloc, world, asked, out)? {
        return Ok(true);
    }
    if members::answer(alloc, world, asked, out)? {
        return Ok(true);
    }
    if bounds::answer(alloc, world, asked, out)? {
        return Ok(true);
    }
    if names::answer(alloc, world, asked, out) {
        return Ok(true);
    }
    slots::answer(alloc, world, asked, out)
}

/// The answer to a question on the method of a case.
fn of_method(
    alloc: Global,
    case: &Case,
    world: &mut World,
    asked: Question<'_>,
    out: &mut Answer,
) -> Result<bool, AllocError> {
    let method = match case.text("method") {
        None => return Ok(false),
        Some(method) => method,
    };
    let written = case.text("types") == Some("as written");
    let (program, masks) = (&world.program, world.masks.as_slice());
    match setting_of(alloc, program, masks, method, case.text("class"), written)? {
        None => {
            out.put("there is no such method");
            Ok(true)
        }
        Some(setting) => Ok(in_setting(alloc, &setting, &mut world.table, asked, out)),
    }
}

fn in_setting(
    alloc: Global,
    setting: &Setting<'_>,
    table: &mut Table,
    asked: Question<'_>,
    out: &mut Answer,
) -> bool {
    names::of_method(alloc, setting, table, asked, out)
        || slots::of_method(alloc, setting, table, asked, out)
        || types::answer(alloc, setting, table, asked, out)
}
