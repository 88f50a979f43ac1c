//! The run of a source, where it is refused neither as a source nor outside its bodies.

ghost use Rattle.std.specs.Prelude.{◌≡◌, []};
ghost use Rattle.jn_base.specs.Duplicates.{duplicates};
ghost use Rattle.jn_base.specs.WithinLimits.{IsWithinLimits};
ghost use Rattle.jn_rules.specs.Verdict.{HeadersPass};

use jn_base::tree::Program;
use jn_header::{CheckFault, check_headers, check_names};
use jn_intern::Pool;
use jn_io::Sink;
use jn_mean::mean;
use jn_meaning::MeanFault;
use jn_parser::{ParseFault, parse};
use jn_sem::outcome::Outcome;
use jn_table::Table;
use std::alloc::{AllocError, Global};

/// The most bytes that a source may have.
const LONGEST: usize = 1_048_576;

/// How many charges, cells and frames a run may have.
#[derive(Clone, Copy)]
pub struct Bounds {
    pub budget: u64,
    pub arena: u32,
    pub depth: u32,
}

/// How it came out.
#[derive(Clone, Copy)]
pub enum Ended {
    Ran(Outcome),
    WriteFault,
    Refused,
}

/// Runs the program of a source.
pub fn run<O: Sink>(
    alloc: Global,
    source: &[u8],
    bounds: Bounds,
    out: &mut O,
) -> Result<Ended, AllocError> {
    if source.len() > LONGEST {
        return Ok(Ended::Refused);
    }
    match parse(alloc, source) {
        Ok(program) => run_program(alloc, &program, bounds, out),
        Err(ParseFault::Refused(_)) => Ok(Ended::Refused),
        Err(ParseFault::Memory) => Err(AllocError),
    }
}

fn run_program<O: Sink>(
    alloc: Global,
    p: &Program,
    bounds: Bounds,
    out: &mut O,
) -> Result<Ended, AllocError>
    requires { IsWithinLimits p.now }
{
    match check_names(alloc, p) {
        Ok(()) => run_named(alloc, p, bounds, out),
        Err(CheckFault::Refused(_)) => Ok(Ended::Refused),
        Err(CheckFault::Memory) => Err(AllocError),
    }
}

fn run_named<O: Sink>(
    alloc: Global,
    p: &Program,
    bounds: Bounds,
    out: &mut O,
) -> Result<Ended, AllocError>
    requires limits { IsWithinLimits p.now }
    requires once { duplicates p.now ≡ [] }
{
    let mut table = Table::new(alloc, p)?;
    let mut pool = Pool::new(alloc)?;
    match check_headers(alloc, p, &mut table, &mut pool) {
        Ok(_) => run_judged(alloc, p, bounds, out),
        Err(CheckFault::Refused(_)) => Ok(Ended::Refused),
        Err(CheckFault::Memory) => Err(AllocError),
    }
}

fn run_judged<O: Sink>(
    alloc: Global,
    p: &Program,
    bounds: Bounds,
    out: &mut O,
) -> Result<Ended, AllocError>
    requires limits { IsWithinLimits p.now }
    requires once { duplicates p.now ≡ [] }
    requires headers { HeadersPass p.now }
{
    match mean(alloc, p, bounds.budget, bounds.arena, bounds.depth, out) {
        Ok(outcome) => Ok(Ended::Ran(outcome)),
        Err(MeanFault::WriteFault) => Ok(Ended::WriteFault),
        Err(MeanFault::Memory) => Err(AllocError),
    }
}
