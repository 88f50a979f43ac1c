//! The rows of the top call: words, a file, and the faults of the store and of the two outputs, against the status, what
//! the outputs took, and how the first was put.
//!
//! A case calls `top` with `words`, on a store that holds `source` as the file `f` and fails at the calls `fails`, and on
//! outputs that have `out_room` and `err_room` bytes of room and fail at the puts `out_fails` and `err_fails`. It wants
//! `status`; the bytes `out` and `err`, or so many of them as `out_length` and `err_length` say; where it has `pieces`,
//! puts of these lengths on the first output; and the file as it was. With `by_bytes` it wants the same of a store that
//! hands out one byte a read, and with `again` the same of the file that the first output makes.
//!
//! Where the case has `g`, the store holds that as the file `g`, and `g` is as it was; with `exec` it is one that was saved,
//! and these words give `exec_status`, `exec_out` and `exec_err` on the same store.
#![tactic(auto)]

mod stores;

use crate::stores::{ByBytes, Noted};
use jn_cases::{Case, CasesFault, Rows, Tally, bytes_of, run_files};
use jn_drive::top;
use jn_io::{MemSink, MemStore, Store};
use std::alloc::{AllocError, Global};

const KEYS: [&str; 23] = [
    "words",
    "source",
    "source_hex",
    "source_parts",
    "fails",
    "out_room",
    "err_room",
    "out_fails",
    "err_fails",
    "status",
    "out",
    "out_parts",
    "err",
    "out_length",
    "err_length",
    "pieces",
    "by_bytes",
    "again",
    "g",
    "exec",
    "exec_status",
    "exec_out",
    "exec_err",
];

/// The room of an output whose case doesn't say it.
const ROOM: i64 = 65_536;

/// What the outputs took, and the status.
#[derive(Drop)]
struct Outcome {
    status: i64,
    out: Noted,
    err: MemSink,
}

struct WholeRows;

impl Rows for WholeRows {
    fn run(&self, alloc: Global, case: &Case, tally: &mut Tally) -> Result<(), CasesFault> {
        tally.keys(case, &KEYS)?;
        let source = bytes_of(alloc, case, "source")?.unwrap_or(Vec::new(alloc));
        let mut store = store_of(alloc, case, source.as_slice())?;
        let outcome = outcome_of(alloc, case, "words", &mut store)?;
        compare(alloc, case, &outcome, tally)?;
        tally.bytes(
            "the file f",
            source.as_slice(),
            store.file("f").unwrap_or(b"no file"),
        )?;
        saved(alloc, case, &mut store, tally)?;
        by_bytes(alloc, case, store, tally)?;
        again(alloc, case, &outcome, tally)
    }
}

fn main(rt: HostRuntime) -> anyhow::Result<()> {
    run_files(&rt, &WholeRows)
}

fn store_of(alloc: Global, case: &Case, source: &[u8]) -> Result<MemStore, CasesFault> {
    let mut store = MemStore::new(alloc, case.numbers(alloc, "fails")?.as_slice())?;
    store.add("f", source)?;
    if let Some(g) = bytes_of(alloc, case, "g")? {
        store.add("g", g.as_slice())?;
    }
    Ok(store)
}

fn sink_of(alloc: Global, case: &Case, room: &str, fails: &str) -> Result<MemSink, CasesFault> {
    let room = usize::try_from(case.number(room).unwrap_or(ROOM)).unwrap_or(0);
    Ok(MemSink::new(alloc, room, case.numbers(alloc, fails)?.as_slice())?)
}

fn outcome_of<S: Store>(
    alloc: Global,
    case: &Case,
    key: &str,
    store: &mut S,
) -> Result<Outcome, CasesFault> {
    let words = case.texts(alloc, key)?;
    let mut out = Noted {
        sink: sink_of(alloc, case, "out_room", "out_fails")?,
        sizes: Vec::new(alloc),
    };
    let mut err = sink_of(alloc, case, "err_room", "err_fails")?;
    let status = i64::from(top(alloc, words.as_slice(), store, &mut out, &mut err).number());
    Ok(Outcome { status, out, err })
}

/// The status, the outputs and the puts are those that the case wants.
fn compare(
    alloc: Global,
    case: &Case,
    outcome: &Outcome,
    tally: &mut Tally,
) -> Result<(), CasesFault> {
    tally.number(
        "status",
        case.number("status").unwrap_or(-1),
        outcome.status,
    )?;
    compare_output(
        alloc,
        case,
        ("out", "out_length"),
        outcome.out.sink.bytes(),
        tally,
    )?;
    compare_output(
        alloc,
        case,
        ("err", "err_length"),
        outcome.err.bytes(),
        tally,
    )?;
    if case.list("pieces").is_some() {
        let wanted = case.numbers(alloc, "pieces")?;
        let (wanted, came) = (
            shown(alloc, wanted.as_slice())?,
            shown(alloc, outcome.out.sizes.as_slice())?,
        );
        tally.bytes(
            "pieces",
            wanted.as_str().as_bytes(),
            came.as_str().as_bytes(),
        )?;
    }
    Ok(())
}

fn shown(alloc: Global, numbers: &[u64]) -> Result<String, AllocError> {
    format!(in alloc; "{numbers:?}")
}

/// An output has the bytes of its key, none where the case doesn't say, or so many as the other key says.
fn compare_output(
    alloc: Global,
    case: &Case,
    (key, length): (&str, &str),
    came: &[u8],
    tally: &mut Tally,
) -> Result<(), CasesFault> {
    match case.number(length) {
        Some(wanted) => Ok(tally.number(length, wanted, i64::try_from(came.len()).unwrap_or(-1))?),
        None => {
            let wanted = bytes_of(alloc, case, key)?.unwrap_or(Vec::new(alloc));
            Ok(tally.bytes(key, wanted.as_slice(), came)?)
        }
    }
}

/// The file `g` is as it was, or what `exec` says of it holds.
fn saved(
    alloc: Global,
    case: &Case,
    store: &mut MemStore,
    tally: &mut Tally,
) -> Result<(), CasesFault> {
    if case.list("exec").is_some() {
        return executed(alloc, case, store, tally);
    }
    let none = Vec::from_slice(alloc, b"no file")?;
    let wanted = bytes_of(alloc, case, "g")?.unwrap_or(none);
    tally.bytes(
        "the file g",
        wanted.as_slice(),
        store.file("g").unwrap_or(b"no file"),
    )?;
    Ok(())
}

fn executed(
    alloc: Global,
    case: &Case,
    store: &mut MemStore,
    tally: &mut Tally,
) -> Result<(), CasesFault> {
    let outcome = outcome_of(alloc, case, "exec", store)?;
    let wanted = case.number("exec_status").unwrap_or(-1);
    tally.number("exec_status", wanted, outcome.status)?;
    let out = outcome.out.sink.bytes();
    compare_output(alloc, case, ("exec_out", "exec_out_length"), out, tally)?;
    let err = outcome.err.bytes();
    compare_output(alloc, case, ("exec_err", "exec_err_length"), err, tally)
}

fn by_bytes(
    alloc: Global,
    case: &Case,
    store: MemStore,
    tally: &mut Tally,
) -> Result<(), CasesFault> {
    if !case.is_set("by_bytes") {
        return Ok(());
    }
    let mut store = ByBytes { store };
    let outcome = outcome_of(alloc, case, "words", &mut store)?;
    compare(alloc, case, &outcome, tally)
}

fn again(
    alloc: Global,
    case: &Case,
    outcome: &Outcome,
    tally: &mut Tally,
) -> Result<(), CasesFault> {
    if !case.is_set("again") {
        return Ok(());
    }
    let mut store = store_of(alloc, case, outcome.out.sink.bytes())?;
    let outcome = outcome_of(alloc, case, "words", &mut store)?;
    compare(alloc, case, &outcome, tally)
}
