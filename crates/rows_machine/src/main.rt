//! The rows of images and of the machine, as data.
//!
//! A case has an image: the bytes `image`, or the words `code` as the code that starts in a `world`. It has a `job`:
//! `read`, `write`, `verify` and `run` want the `answer`, which is a fault, a halt, or `none` where nothing is wrong,
//! and `run` also the bytes `out`, or so many as `out_length` says; `fronts`, `altered` and `each` read what is like
//! the image.
#![tactic(auto)]

mod altered;
mod answers;
mod code;
mod running;
mod world;

use crate::altered::{altered, each, fronts};
use crate::answers::{read_answer, verify_answer, write};
use crate::running::run;
use crate::world::image_bytes;
use jn_cases::{Case, CasesFault, Rows, Tally, run_files};
use std::alloc::Global;

const KEYS: [&str; 19] = [
    "job",
    "image_hex",
    "image_hex_parts",
    "world",
    "code",
    "row_hex",
    "start",
    "arena",
    "depth",
    "steps",
    "room",
    "failing_puts",
    "answer",
    "out",
    "out_hex",
    "out_length",
    "starts",
    "byte",
    "altered",
];

struct MachineRows;

impl Rows for MachineRows {
    fn run(&self, alloc: Global, case: &Case, tally: &mut Tally) -> Result<(), CasesFault> {
        tally.keys(case, &KEYS)?;
        let bytes = image_bytes(alloc, case)?;
        do_job(alloc, case, bytes.as_slice(), tally)
    }
}

fn do_job(alloc: Global, case: &Case, bytes: &[u8], tally: &mut Tally) -> Result<(), CasesFault> {
    match case.text("job").unwrap_or("none") {
        "read" => wants(case, read_answer(alloc, bytes)?.as_str(), tally),
        "verify" => wants(case, verify_answer(alloc, bytes)?.as_str(), tally),
        "write" => write(alloc, bytes, tally),
        "run" => run(alloc, case, bytes, tally),
        "fronts" => fronts(alloc, case, bytes, tally),
        "altered" => altered(alloc, case, bytes, tally),
        "each" => each(alloc, case, bytes, tally),
        job => Ok(tally.fault("job", job)?),
    }
}

/// The answer is the one that the case wants.
fn wants(case: &Case, came: &str, tally: &mut Tally) -> Result<(), CasesFault> {
    let wanted = case.text("answer").unwrap_or("an answer");
    Ok(tally.bytes("answer", wanted.as_bytes(), came.as_bytes())?)
}

fn main(rt: HostRuntime) -> anyhow::Result<()> {
    run_files(&rt, &MachineRows)
}
