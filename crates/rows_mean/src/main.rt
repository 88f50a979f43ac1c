//! Rows of the meaning: reads the files of cases that its words name, runs the program of each and compares how it ends and what
//! it prints. Its last lines count the cases and those that differ.
//!
//! A case runs `source` with at most `steps` charges, an arena of `arena` cells and `depth` frames, and wants `outcome` and the
//! bytes `out`. With `charges` it runs it with so many charges, and with one fewer, where the outcome has to be More. The output
//! has `room` bytes of room and fails at the puts `out_fails`; where the case has `pieces`, puts of these lengths come.
#![tactic(auto)]

mod noted;
mod outcomes;
mod running;

use crate::noted::Noted;
use crate::outcomes::outcome_text;
use crate::running::{Bounds, run};
use jn_cases::{Case, CasesFault, Rows, Tally, bytes_of, run_files};
use jn_io::MemSink;
use std::alloc::Global;

const KEYS: [&str; 12] = [
    "source",
    "source_parts",
    "charges",
    "steps",
    "arena",
    "depth",
    "outcome",
    "out",
    "out_parts",
    "out_fails",
    "room",
    "pieces",
];

/// The bounds of a run and the room of an output whose case doesn't say them.
const STEPS: i64 = 1_000_000;

const ARENA: i64 = 1_048_576;

const DEPTH: i64 = 1_000;

const ROOM: i64 = 65_536;

struct MeanRows;

impl Rows for MeanRows {
    fn run(&self, alloc: Global, case: &Case, tally: &mut Tally) -> Result<(), CasesFault> {
        tally.keys(case, &KEYS)?;
        let steps = case
            .number("charges")
            .unwrap_or(case.number("steps").unwrap_or(STEPS));
        let wanted = case.text("outcome").unwrap_or("no outcome");
        check_run(alloc, case, steps, wanted, true, tally)?;
        match case.number("charges") {
            None => Ok(()),
            Some(charges) => check_run(
                alloc,
                case,
                charges.saturating_sub(1),
                "More",
                false,
                tally,
            ),
        }
    }
}

fn main(rt: HostRuntime) -> anyhow::Result<()> {
    run_files(&rt, &MeanRows)
}

/// The program of a case ends so with so many charges, and where it is asked for prints what the case says.
fn check_run(
    alloc: Global,
    case: &Case,
    steps: i64,
    wanted: &str,
    prints: bool,
    tally: &mut Tally,
) -> Result<(), CasesFault> {
    let mut out = sink_of(alloc, case)?;
    let source = bytes_of(alloc, case, "source")?.unwrap_or(Vec::new(alloc));
    let came = run(alloc, source.as_slice(), bounds_of(case, steps), &mut out)?;
    let came = outcome_text(alloc, came)?;
    tally.bytes("outcome", wanted.as_bytes(), came.as_str().as_bytes())?;
    if prints {
        check_output(alloc, case, &out, tally)?;
    }
    Ok(())
}

fn bounds_of(case: &Case, steps: i64) -> Bounds {
    Bounds {
        budget: u64::try_from(steps).unwrap_or(0),
        arena: u32::try_from(case.number("arena").unwrap_or(ARENA)).unwrap_or(0),
        depth: u32::try_from(case.number("depth").unwrap_or(DEPTH)).unwrap_or(0),
    }
}

fn sink_of(alloc: Global, case: &Case) -> Result<Noted, CasesFault> {
    let room = usize::try_from(case.number("room").unwrap_or(ROOM)).unwrap_or(0);
    Ok(Noted {
        sink: MemSink::new(alloc, room, case.numbers(alloc, "out_fails")?.as_slice())?,
        sizes: Vec::new(alloc),
    })
}

/// What was taken is what the case wants, in the pieces that it wants.
fn check_output(
    alloc: Global,
    case: &Case,
    out: &Noted,
    tally: &mut Tally,
) -> Result<(), CasesFault> {
    let wanted = bytes_of(alloc, case, "out")?.unwrap_or(Vec::new(alloc));
    tally.bytes("out", wanted.as_slice(), out.sink.bytes())?;
    if case.list("pieces").is_none() {
        return Ok(());
    }
    let wanted = case.numbers(alloc, "pieces")?;
    let wanted = format!(in alloc; "{:?}", wanted.as_slice())?;
    let came = format!(in alloc; "{:?}", out.sizes.as_slice())?;
    Ok(tally.bytes(
        "pieces",
        wanted.as_str().as_bytes(),
        came.as_str().as_bytes(),
    )?)
}
