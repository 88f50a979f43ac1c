ghost use Rattle.std.specs.Prelude.{◌≡◌, [], ◌∷◌, ◌++◌, IfOk, OnOk, OnErr};
ghost use Rattle.std.specs.Io.KnownBytes.{append_known};
ghost use Rattle.jn_io.specs.Causes.{HasCause};
ghost use Rattle.jn_steps.specs.Numbers.{line_of, number_line, truth_line};
ghost use Rattle.jn_output.specs.Writes.{Wrote, Cut};

use itoa::Buffer;
use jn_io::{Failed, Sink};
use std::alloc::{AllocError, Global};
use std::marker::Model;

/// Bytes that wait until there are 8,192.
#[derive(Drop)]
pub struct Output {
    bytes: Vec<u8>,
}

impl Model for Output {
    ghost use Rattle.std.specs.Prelude.{List, ℕ, ◌<◌, ◌≤◌, vec_len, vec_capacity};

    ghost Value = { List ℕ };

    ghost view = { λ o. o.bytes.items };

    ghost invariant = { λ o. (vec_len o.bytes < 8192) × (8192 ≤ vec_capacity o.bytes) };
}

impl Output {
    /// Nothing waits yet.
    pub fn make(alloc: Global) -> Result<Output, AllocError>
        ensures { IfOk result (λ o. o ≡ []) }
    {
        let bytes = Vec::with_capacity(alloc, 8192)?;
        Ok(Output { bytes })
    }

    /// One more byte; where there are enough now, they are put.
    fn put_byte<K: Sink>(&mut self, b: u8, sink: &mut K) -> Result<(), Failed>
        ensures wrote { OnOk result (Wrote (K.taken sink.old) (K.taken sink.new) self.old self.new (b ∷ [])) }
        ensures cut { OnErr result (Cut (K.taken sink.old) (K.taken sink.new) (self.old ++ b ∷ [])) }
        ensures cause { HasCause (K.faults sink.old) (K.faults sink.new) result }
    {
        match self.bytes.push(b) {
            Ok(()) => {}
            Err(_) => unreachable!(),
        }
        if self.bytes.len() == 8192 {
            let done = sink.put(&self.bytes);
            self.bytes.clear();
            return done;
        }
        Ok(())
    }

    /// Bytes, one after the other.
    fn put_all<K: Sink>(&mut self, bytes: &[u8], sink: &mut K) -> Result<(), Failed>
        ensures wrote { OnOk result (Wrote (K.taken sink.old) (K.taken sink.new) self.old self.new bytes.now) }
        ensures cut { OnErr result (Cut (K.taken sink.old) (K.taken sink.new) (self.old ++ bytes.now)) }
        ensures cause { HasCause (K.faults sink.old) (K.faults sink.new) result }
    {
        for b in bytes {
            self.put_byte(*b, sink)?;
        }
        Ok(())
    }

    /// A text, and a line feed.
    pub fn line<K: Sink>(&mut self, text: &[u8], sink: &mut K) -> Result<(), Failed>
        ensures wrote { OnOk result (Wrote (K.taken sink.old) (K.taken sink.new) self.old self.new (line_of text.now)) }
        ensures cut { OnErr result (Cut (K.taken sink.old) (K.taken sink.new) (self.old ++ line_of text.now)) }
        ensures cause { HasCause (K.faults sink.old) (K.faults sink.new) result }
    {
        self.put_all(text, sink)?;
        self.put_byte(10, sink)
    }

    /// A number in decimal.
    pub fn number<K: Sink>(&mut self, z: i64, sink: &mut K) -> Result<(), Failed>
        ensures wrote { OnOk result (Wrote (K.taken sink.old) (K.taken sink.new) self.old self.new (number_line z)) }
        ensures cut { OnErr result (Cut (K.taken sink.old) (K.taken sink.new) (self.old ++ number_line z)) }
        ensures cause { HasCause (K.faults sink.old) (K.faults sink.new) result }
    {
        let mut buffer = Buffer::new();
        self.line(buffer.format(z).as_bytes(), sink)
    }

    /// `true` or `false`.
    pub fn truth<K: Sink>(&mut self, b: bool, sink: &mut K) -> Result<(), Failed>
        ensures wrote { OnOk result (Wrote (K.taken sink.old) (K.taken sink.new) self.old self.new (truth_line b)) }
        ensures cut { OnErr result (Cut (K.taken sink.old) (K.taken sink.new) (self.old ++ truth_line b)) }
        ensures cause { HasCause (K.faults sink.old) (K.faults sink.new) result }
    {
        if b {
            self.line(b"true", sink)
        } else {
            self.line(b"false", sink)
        }
    }

    /// Puts what waits, where there is something. It is no more than one piece.
    pub fn flush<K: Sink>(&mut self, sink: &mut K) -> Result<(), Failed>
        ensures all { OnOk result (K.taken sink.new ≡ append_known (K.taken sink.old) self.old) }
        ensures cut { OnErr result (Cut (K.taken sink.old) (K.taken sink.new) self.old) }
        ensures empty { self.new ≡ [] }
        ensures cause { HasCause (K.faults sink.old) (K.faults sink.new) result }
    {
        if self.bytes.is_empty() {
            return Ok(());
        }
        let done = sink.put(&self.bytes);
        self.bytes.clear();
        done
    }
}
