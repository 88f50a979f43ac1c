//! The rows of what stands in a source: its tokens, its tree, its text, and the line of a refusal.
//!
//! The program reads the files of cases that its words name, and says of each how many of its cases differ. A case has
//! one of these jobs:
//! - `tokens`: the tokens of `source`, or the fault, are `tokens`;
//! - `parse`: `source` is refused by the line `err`, or is a program: the first body's tree is `body`, its text is
//!   `text`, and the text of that text is itself;
//! - `line`: the refusal by `rule` at `line` and `column`, with `class`, `member` and `limit`, is told by `err`.
#![tactic(auto)]

mod lines;
mod parse;
mod tokens;

use jn_cases::{Case, CasesFault, Rows, Tally, run_files};
use std::alloc::Global;

/// What this program does with a case.
struct TextRows;

impl Rows for TextRows {
    fn run(&self, alloc: Global, case: &Case, tally: &mut Tally) -> Result<(), CasesFault> {
        match case.text("job") {
            Some("tokens") => tokens::run(alloc, case, tally),
            Some("parse") => parse::run(alloc, case, tally),
            Some("line") => lines::run(alloc, case, tally),
            _ => Ok(tally.fault("job", "there is none of this name")?),
        }
    }
}

fn main(rt: HostRuntime) -> anyhow::Result<()> {
    run_files(&rt, &TextRows)
}
