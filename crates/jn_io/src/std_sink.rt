//! A sink over a stream.
ghost use Rattle.std.specs.Prelude.{◌≡◌, None, OnOk};
ghost use Rattle.std.specs.Io.KnownBytes.{Appends};

use crate::Failed;
use crate::calls::count_after;
use crate::sink::Sink;
use std::io::{self, Write};
use std::marker::Model;

/// Hands each put on to a writer, and flushes it. It tells no content.
///
/// Its count is a u64 that starts at 0, and is raised where a put answers `Failed`: a write failed, took no byte of a piece
/// that isn't empty, or was not flushed.
#[derive(Drop)]
pub struct StdSink<W: Write + Drop> {
    writer: W,
    faults: u64,
}

impl<W: Write + Drop> Model for StdSink<W> {
    ghost use Rattle.std.specs.Prelude.{ℕ};

    ghost Value = { ℕ };

    ghost view = { λ s. s.faults };
}

impl<W: Write + Drop> StdSink<W> {
    /// A sink whose count of faults is 0.
    pub fn new(writer: W) -> StdSink<W>
        ensures { result ≡ 0 }
    {
        StdSink { writer, faults: 0 }
    }
}

impl<W: Write + Drop> Sink for StdSink<W> {
    ghost taken = { λ _. None };

    ghost faults = { λ s. s };

    fn put(&mut self, bytes: &[u8]) -> Result<(), Failed> {
        let failed = write_whole(&mut self.writer, bytes).is_err();
        self.faults = count_after(failed, self.faults);
        if failed { Err(Failed) } else { Ok(()) }
    }
}

// Writes all the bytes, and has them written through.
fn write_whole<W: Write>(writer: &mut W, bytes: &[u8]) -> io::Result<()>
    ensures { OnOk result (Appends (W.contents writer.old) (W.contents writer.new) bytes.now) }
{
    writer.write_all(bytes)?;
    writer.flush()
}
