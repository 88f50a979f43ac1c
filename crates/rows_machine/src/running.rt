//! Runs, with their bounds and their output.

use crate::answers::fault_text;
use jn_cases::{Case, CasesFault, Tally, bytes_of};
use jn_imagefile::read_image;
use jn_io::MemSink;
use jn_machine::{Halt, Machine};
use jn_verify::{Good, verify};
use std::alloc::{AllocError, Global};

fn name_of(halt: Halt) -> &'static str {
    match halt {
        Halt::Done => "Done",
        Halt::Null => "Null",
        Halt::Zero => "Zero",
        Halt::Arena => "Arena",
        Halt::Depth => "Depth",
        Halt::Steps => "Steps",
        Halt::WriteFault => "WriteFault",
    }
}

/// A number that the case gives, or else this one.
fn bound(case: &Case, key: &str, otherwise: u32) -> u32 {
    match case.number(key) {
        None => otherwise,
        Some(n) => u32::try_from(n).unwrap_or(0),
    }
}

/// How the run ends: with 9 cells, a depth of 2 and 100 steps, where the case says no others.
fn halt_of(alloc: Global, case: &Case, good: Good, sink: &mut MemSink) -> Result<Halt, AllocError> {
    let arena = bound(case, "arena", 9);
    let depth = bound(case, "depth", 2);
    let steps = bound(case, "steps", 100);
    let mut machine = Machine::make(alloc, good, arena, depth)?;
    Ok(machine.run(u64::from(steps), sink))
}

/// The answer, and what the sink took.
fn outcome(
    alloc: Global,
    case: &Case,
    bytes: &[u8],
    sink: &mut MemSink,
) -> Result<String, AllocError> {
    let image = match read_image(alloc, bytes) {
        Ok(image) => image,
        Err(fault) => return fault_text(alloc, fault),
    };
    let good = match verify(alloc, image) {
        Ok(good) => good,
        Err(fault) => return fault_text(alloc, fault),
    };
    String::from_str(alloc, name_of(halt_of(alloc, case, good, sink)?))
}

/// The run ends as the case wants, and has put what it wants, on a sink with room for 65,536 bytes, where the case
/// says no other, that fails at the puts that the case names.
pub fn run(alloc: Global, case: &Case, bytes: &[u8], tally: &mut Tally) -> Result<(), CasesFault> {
    let room = bound(case, "room", 65536);
    let fails = case.numbers(alloc, "failing_puts")?;
    let mut sink = MemSink::new(alloc, room as usize, fails.as_slice())?;
    let came = outcome(alloc, case, bytes, &mut sink)?;
    let wanted = case.text("answer").unwrap_or("an answer");
    tally.bytes("answer", wanted.as_bytes(), came.as_str().as_bytes())?;
    match case.number("out_length") {
        Some(length) => Ok(tally.number(
            "out_length",
            length,
            i64::try_from(sink.bytes().len()).unwrap_or(-1),
        )?),
        None => {
            let out = bytes_of(alloc, case, "out")?.unwrap_or(Vec::new(alloc));
            Ok(tally.bytes("out", out.as_slice(), sink.bytes())?)
        }
    }
}
