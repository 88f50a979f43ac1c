//! What a program means, beside a run of its image.
ghost use Rattle.rows_images.specs.Accepted.{IsAccepted};

use crate::running::Ran;
use jn_base::tree::Program;
use jn_cases::Tally;
use jn_io::MemSink;
use jn_mean::mean;
use jn_meaning::MeanFault;
use jn_sem::outcome::Outcome;
use std::alloc::{AllocError, Global};

/// How many bytes an output has room for.
pub const ROOM: usize = 65_536;

/// The arena, the depth, and how many steps or charges.
#[derive(Clone, Copy)]
pub struct Bounds {
    pub arena: u32,
    pub depth: u32,
    pub steps: u64,
}

fn outcome_word(came: Outcome) -> &'static str {
    match came {
        Outcome::Ends => "Done",
        Outcome::Null => "Null",
        Outcome::Zero => "Zero",
        Outcome::Arena => "Arena",
        Outcome::Depth => "Depth",
        Outcome::More => "Steps",
        Outcome::Stuck(_) => "Stuck",
    }
}

/// What so many charges of a program do.
pub fn meant(alloc: Global, p: &Program, bounds: Bounds) -> Result<Ran, AllocError>
    requires { IsAccepted p.now }
{
    let mut out = MemSink::new(alloc, ROOM, &[])?;
    match mean(alloc, p, bounds.steps, bounds.arena, bounds.depth, &mut out) {
        Ok(outcome) => Ok(Ran {
            end: outcome_word(outcome),
            out,
        }),
        Err(MeanFault::WriteFault) => Ok(Ran {
            end: "WriteFault",
            out,
        }),
        Err(MeanFault::Memory) => Err(AllocError),
    }
}

/// The first so many bytes, or all where there are fewer.
pub fn front_of(bytes: &[u8], len: usize) -> &[u8] {
    match bytes.get(..len) {
        Some(front) => front,
        None => bytes,
    }
}

/// The run that took less wrote the first part of what the other wrote; where it ended, both did, with the same
/// output.
fn compare(key: &str, less: &Ran, more: &Ran, tally: &mut Tally) -> Result<(), AllocError> {
    if less.end != "Steps" {
        tally.bytes(key, less.end.as_bytes(), more.end.as_bytes())?;
        return tally.bytes(key, less.out.bytes(), more.out.bytes());
    }
    let wrote = less.out.bytes();
    tally.bytes(key, wrote, front_of(more.out.bytes(), wrote.len()))
}

/// A run of the image goes with the charges: n instructions with n + 1 charges, and b charges with any 32 b + 32
/// instructions.
pub fn check_meaning(
    alloc: Global,
    p: &Program,
    bounds: Bounds,
    ran: &Ran,
    tally: &mut Tally,
) -> Result<(), AllocError>
    requires { IsAccepted p.now }
{
    let n = bounds.steps;
    let after = meant(
        alloc,
        p,
        Bounds {
            steps: n.saturating_add(1),
            ..bounds
        },
    )?;
    compare("instructions and one charge more", ran, &after, tally)?;
    if n < 32 {
        return Ok(());
    }
    let before = meant(
        alloc,
        p,
        Bounds {
            steps: (n - 32) / 32,
            ..bounds
        },
    )?;
    compare("charges and 32 instructions for each", &before, ran, tally)
}
