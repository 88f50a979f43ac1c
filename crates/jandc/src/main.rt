//! The program `jandc`: `top` of the driver, on the process's words, its files, and its standard
//! output and error.
//!
//! It ends with the number of the status. Where the words can't be had it calls nothing, and ends with
//! that of `Memory` where there is no memory for them, and with 13 where the system doesn't give them
//! for another cause, as a word that is not UTF-8.
#![tactic(auto)]

ghost use Rattle.std.specs.Prelude.{◌≡◌, ◌≢◌};
ghost use Rattle.std.specs.declared.io.ErrorKind.TheVariants.{OutOfMemory};

use jn_drive::{Status, top};
use jn_io::{DirStore, StdSink};
use std::alloc::Global;
use std::process::ExitCode;
use std::rt::Env;
use std::{env, io};

/// What the program ends with where the system doesn't give the words. It is no status of `top`.
const NO_WORDS: u8 = 13;

fn main(rt: HostRuntime) -> ExitCode {
    let words = match words(&rt) {
        Ok(words) => words,
        Err(fault) => return ExitCode::from(number_of(fault.kind())),
    };
    let mut store = DirStore::new(&rt);
    let mut out = StdSink::new(rt.stdout());
    let mut err = StdSink::new(rt.stderr());
    let status = top(rt.alloc(), words.as_slice(), &mut store, &mut out, &mut err);
    ExitCode::from(status.number())
}

/// The words behind the program's name.
fn words<R: Env + Alloc<A = Global>>(rt: &R) -> io::Result<Vec<String>> {
    Ok(env::args(rt)?.skip(1).collect(rt.alloc())?)
}

/// What the program ends with where it has no words.
fn number_of(fault: io::ErrorKind) -> u8
    ensures memory { fault ≡ OutOfMemory → result ≡ 11 }
    ensures other { fault ≢ OutOfMemory → result ≡ 13 }
{
    match fault {
        io::ErrorKind::OutOfMemory => Status::Memory.number(),
        _ => NO_WORDS,
    }
}
