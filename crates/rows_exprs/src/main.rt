//! Rows on expressions: reads the files of cases that its words name, types each expression of theirs and compares the
//! answers. Its last lines count the cases and those that differ.
#![tactic(auto)]

mod ask;
mod shown;
mod typing;

use crate::ask::ask_rows;
use jn_cases::{Case, CasesFault, Rows, Tally, run_files};
use std::alloc::Global;

/// The rows of a case, each with its expression and its answer.
struct ExprRows;

impl Rows for ExprRows {
    fn run(&self, alloc: Global, case: &Case, tally: &mut Tally) -> Result<(), CasesFault> {
        ask_rows(alloc, tally, case)?;
        Ok(())
    }
}

fn main(rt: HostRuntime) -> anyhow::Result<()> {
    run_files(&rt, &ExprRows)
}
