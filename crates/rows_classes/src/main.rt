//! Rows on classes, names, types, groups and slots: reads the files of cases that its words name, asks each question of theirs
//! and compares the answers. Its last lines count the cases and those that differ.
#![tactic(auto)]

mod ask;
mod bounds;
mod fits;
mod graphs;
mod members;
mod names;
mod reading;
mod sets;
mod setting;
mod shown;
mod slots;
mod source;
mod tables;
mod types;
mod typing;
mod world;

use crate::ask::ask_rows;
use jn_cases::{Case, CasesFault, Rows, Tally, run_files};
use std::alloc::Global;

/// The rows of a case, each with its question and its answer.
struct ClassRows;

impl Rows for ClassRows {
    fn run(&self, alloc: Global, case: &Case, tally: &mut Tally) -> Result<(), CasesFault> {
        ask_rows(alloc, tally, case)?;
        Ok(())
    }
}

fn main(rt: HostRuntime) -> anyhow::Result<()> {
    run_files(&rt, &ClassRows)
}
