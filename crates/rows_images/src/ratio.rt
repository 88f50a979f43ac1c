//! How many instructions an image takes for how many charges.
ghost use Rattle.rows_images.specs.Accepted.{IsAccepted};

use crate::built::{Built, loaded};
use crate::meaning::{Bounds, meant};
use crate::running::{Ran, run_image};
use jn_cases::{CasesFault, Tally};
use std::alloc::{AllocError, Global};

const ARENA: u32 = 1_048_576;

const DEPTH: u32 = 1_000;

/// Which of both is counted.
#[derive(Clone, Copy)]
enum Counted {
    Instructions,
    Charges,
}

fn bounds(steps: u64) -> Bounds {
    Bounds {
        arena: ARENA,
        depth: DEPTH,
        steps,
    }
}

fn run_of(alloc: Global, made: &Built, counted: Counted, steps: u64) -> Result<Ran, AllocError>
    requires { IsAccepted made.now.program }
{
    match counted {
        Counted::Charges => meant(alloc, &made.program, bounds(steps)),
        Counted::Instructions => match loaded(alloc, made.file.as_slice()) {
            Ok(good) => run_image(alloc, good, bounds(steps)),
            Err(_) => Err(AllocError),
        },
    }
}

fn ends_within(
    alloc: Global,
    made: &Built,
    counted: Counted,
    steps: u64,
) -> Result<bool, AllocError>
    requires { IsAccepted made.now.program }
{
    let came = run_of(alloc, made, counted, steps)?;
    Ok(came.end != "Steps")
}

/// A power of two within which the run ends, or one that is too many to try.
fn enough(alloc: Global, made: &Built, counted: Counted) -> Result<u64, AllocError>
    requires { IsAccepted made.now.program }
{
    let mut most: u64 = 1;
    for _ in 0..34 {
        if ends_within(alloc, made, counted, most)? {
            return Ok(most);
        }
        most = most.saturating_mul(2);
    }
    Ok(most)
}

/// The fewest within which the run ends, by halves.
fn fewest(alloc: Global, made: &Built, counted: Counted) -> Result<u64, AllocError>
    requires { IsAccepted made.now.program }
{
    let mut most = enough(alloc, made, counted)?;
    let mut step = most;
    for _ in 0..34 {
        step /= 2;
        let fewer = most.saturating_sub(step);
        if step > 0 && ends_within(alloc, made, counted, fewer)? {
            most = fewer;
        }
    }
    Ok(most)
}

/// Tells how many instructions the run takes, and how many charges.
pub fn tell_ratio(alloc: Global, made: &Built, tally: &mut Tally) -> Result<(), CasesFault>
    requires { IsAccepted made.now.program }
{
    let instructions = fewest(alloc, made, Counted::Instructions)?;
    let charges = fewest(alloc, made, Counted::Charges)?;
    let said = format!(in alloc; "{instructions} instructions, {charges} charges")?;
    Ok(tally.fault("ratio", said.as_str())?)
}
