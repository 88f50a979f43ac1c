//! Runs of an image.
ghost use Rattle.rows_images.specs.Accepted.{IsAccepted};

use crate::built::{Built, loaded, tell_fault};
use crate::meaning::{Bounds, ROOM, check_meaning, front_of};
use jn_cases::{Case, CasesFault, Tally, bytes_of};
use jn_io::MemSink;
use jn_machine::{Halt, Machine};
use jn_verify::Good;
use std::alloc::{AllocError, Global};

/// How a run ended, and its output.
#[derive(Drop)]
pub struct Ran {
    pub end: &'static str,
    pub out: MemSink,
}

/// A run and what it is to do: its end, and how many lines it prints.
#[derive(Clone, Copy)]
struct Wanted<'a> {
    bounds: Bounds,
    end: &'a str,
    lines: usize,
}

fn halt_word(halt: Halt) -> &'static str {
    match halt {
        Halt::Done => "Done",
        Halt::Null => "Null",
        Halt::Zero => "Zero",
        Halt::Arena => "Arena",
        Halt::Depth => "Depth",
        Halt::Steps => "Steps",
        Halt::WriteFault => "WriteFault",
    }
}

/// What an image does within bounds.
pub fn run_image(alloc: Global, good: Good, bounds: Bounds) -> Result<Ran, AllocError> {
    let mut out = MemSink::new(alloc, ROOM, &[])?;
    let mut machine = Machine::make(alloc, good, bounds.arena, bounds.depth)?;
    let end = halt_word(machine.run(bounds.steps, &mut out));
    Ok(Ran { end, out })
}

/// The bytes with their first so many lines.
fn front_lines(bytes: &[u8], lines: usize) -> &[u8] {
    let mut left = lines;
    for (k, byte) in bytes.iter().enumerate() {
        if left == 0 {
            return front_of(bytes, k);
        }
        if *byte == 10 {
            left = left.saturating_sub(1);
        }
    }
    bytes
}

/// `ARENA DEPTH STEPS HALT LINES`.
fn wanted_of(text: &str) -> Option<Wanted<'_>> {
    let (arena, rest) = text.split_once(' ')?;
    let (depth, rest) = rest.split_once(' ')?;
    let (steps, rest) = rest.split_once(' ')?;
    let (end, lines) = rest.split_once(' ')?;
    let bounds = Bounds {
        arena: arena.parse().ok()?,
        depth: depth.parse().ok()?,
        steps: steps.parse().ok()?,
    };
    Some(Wanted {
        bounds,
        end,
        lines: lines.parse().ok()?,
    })
}

/// The run ends as wanted with the first so many lines of the output, and the meaning agrees.
fn compare(
    alloc: Global,
    made: &Built,
    wanted: &Wanted<'_>,
    out: &[u8],
    came: &Ran,
    tally: &mut Tally,
) -> Result<(), AllocError>
    requires { IsAccepted made.now.program }
{
    tally.bytes("halt", wanted.end.as_bytes(), came.end.as_bytes())?;
    tally.bytes("out", front_lines(out, wanted.lines), came.out.bytes())?;
    check_meaning(alloc, &made.program, wanted.bounds, came, tally)
}

/// What the image in a file does within bounds, none where it is no image: then that is told.
pub fn run_file(
    alloc: Global,
    file: &[u8],
    bounds: Bounds,
    tally: &mut Tally,
) -> Result<Option<Ran>, AllocError> {
    match loaded(alloc, file) {
        Ok(good) => Ok(Some(run_image(alloc, good, bounds)?)),
        Err(fault) => {
            tell_fault(alloc, fault, tally)?;
            Ok(None)
        }
    }
}

fn check_run(
    alloc: Global,
    made: &Built,
    wanted: &Wanted<'_>,
    out: &[u8],
    tally: &mut Tally,
) -> Result<(), AllocError>
    requires { IsAccepted made.now.program }
{
    match run_file(alloc, made.file.as_slice(), wanted.bounds, tally)? {
        None => Ok(()),
        Some(came) => compare(alloc, made, wanted, out, &came, tally),
    }
}

/// Each run of a case does what the case wants, and what the program means.
pub fn check_runs(
    alloc: Global,
    case: &Case,
    made: &Built,
    tally: &mut Tally,
) -> Result<(), CasesFault>
    requires { IsAccepted made.now.program }
{
    let out = bytes_of(alloc, case, "out")?.unwrap_or(Vec::new(alloc));
    for text in case.texts(alloc, "runs")?.as_slice() {
        match wanted_of(text.as_str()) {
            None => tally.fault("this is no run", text.as_str())?,
            Some(wanted) => check_run(alloc, made, &wanted, out.as_slice(), tally)?,
        }
    }
    Ok(())
}
