//! Going over the files that a program of rows is given.
ghost use Rattle.std.specs.Prelude.{OnOk};
ghost use Rattle.jn_cases.specs.Counts.{Differs};

use crate::{Case, CasesFault, Tally, read_cases};
use std::alloc::{AllocError, Global};
use std::rt::{Env, Files};
use std::{env, fs};

/// What a program of rows does with a case.
pub trait Rows {
    /// Does what the case asks, and tells the tally what was wanted and what came. A fault of the case makes it one
    /// that differs.
    fn run(&self, alloc: Global, case: &Case, tally: &mut Tally) -> Result<(), CasesFault>;
}

/// Runs the cases of each file that the program's words name, and prints what the tally of each says.
pub fn run_files<R: Env + Files + Print + Alloc<A = Global>, W: Rows>(
    rt: &R,
    rows: &W,
) -> anyhow::Result<()> {
    for file in env::args(rt)?.skip(1) {
        let text = fs::read_to_string(rt, file.as_str())?;
        let cases = read_cases(rt.alloc(), text.as_str())?;
        let report = run_cases(rt.alloc(), file.as_str(), cases.as_slice(), rows)?;
        print!(rt; "{report}")?;
    }
    Ok(())
}

/// What the tally says of the cases of a file.
pub fn run_cases<W: Rows>(
    alloc: Global,
    file: &str,
    cases: &[Case],
    rows: &W,
) -> Result<String, AllocError> {
    let mut tally = Tally::new(alloc, file)?;
    for case in cases {
        tally.begin(case)?;
        match rows.run(alloc, case, &mut tally) {
            Ok(()) => {}
            Err(CasesFault::Memory) => return Err(AllocError),
            Err(fault) => tell_fault(alloc, fault, &mut tally)?,
        }
        tally.end()?;
    }
    tally.report()
}

fn tell_fault(alloc: Global, fault: CasesFault, tally: &mut Tally) -> Result<(), AllocError>
    ensures { OnOk result (Differs tally.old tally.new) }
{
    let said = format!(in alloc; "{fault}")?;
    tally.fault("case", said.as_str())
}
