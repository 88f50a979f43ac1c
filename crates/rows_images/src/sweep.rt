//! Runs with each number of steps.
ghost use Rattle.rows_images.specs.Accepted.{IsAccepted};

use crate::built::Built;
use crate::meaning::{Bounds, check_meaning};
use crate::running::run_file;
use jn_cases::{Case, CasesFault, Tally};
use std::alloc::{AllocError, Global};

fn check_steps(
    alloc: Global,
    made: &Built,
    bounds: Bounds,
    tally: &mut Tally,
) -> Result<(), AllocError>
    requires { IsAccepted made.now.program }
{
    match run_file(alloc, made.file.as_slice(), bounds, tally)? {
        None => Ok(()),
        Some(came) => check_meaning(alloc, &made.program, bounds, &came, tally),
    }
}

/// The arena, the depth, and the most steps.
fn most_of(numbers: &[u64]) -> Option<Bounds> {
    match numbers {
        [arena, depth, steps] => Some(Bounds {
            arena: u32::try_from(*arena).ok()?,
            depth: u32::try_from(*depth).ok()?,
            steps: *steps,
        }),
        _ => None,
    }
}

fn check_each(
    alloc: Global,
    made: &Built,
    most: Bounds,
    tally: &mut Tally,
) -> Result<(), AllocError>
    requires { IsAccepted made.now.program }
{
    for steps in 0..most.steps {
        let bounds = Bounds {
            steps: steps.saturating_add(1),
            ..most
        };
        check_steps(alloc, made, bounds, tally)?;
    }
    Ok(())
}

/// With each number of steps up to the last number of `sweep`, and with the arena and the depth before it, the image
/// does what the program means.
pub fn check_sweep(
    alloc: Global,
    case: &Case,
    made: &Built,
    tally: &mut Tally,
) -> Result<(), CasesFault>
    requires { IsAccepted made.now.program }
{
    let numbers = case.numbers(alloc, "sweep")?;
    match most_of(numbers.as_slice()) {
        None => Ok(()),
        Some(most) => Ok(check_each(alloc, made, most, tally)?),
    }
}
