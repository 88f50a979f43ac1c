//! A sink in memory, which fails where it is told to.
ghost use Rattle.std.specs.Prelude.{◌≡◌, ℕ, ◌+◌, ◌≤◌, List, [], ◌++◌, not, length, take, Some, is_ok, IfOk};
ghost use Rattle.jn_io.specs.MemSinkState.{MemSinkState, is_refused, after_put};

use crate::Failed;
use crate::calls::{Calls, count_after};
use crate::sink::Sink;
use std::alloc::{AllocError, Global};
use std::marker::Model;

/// Keeps the bytes that are put, up to a room that is taken when it is made, so `put` takes no memory.
///
/// Its puts are numbered from 1, and the number stays at 18,446,744,073,709,551,615. It fails exactly at the puts whose
/// numbers are listed, where it takes nothing, and at one that would pass the room, where it takes what there is room for.
/// A put that fails raises the count of faults, and no other does.
#[derive(Drop)]
pub struct MemSink {
    buf: Vec<u8>,
    len: usize,
    calls: Calls,
    faults: u64,
}

impl Model for MemSink {
    ghost use Rattle.std.specs.Prelude.{◌≤◌, length, take};
    ghost use Rattle.jn_io.specs.MemSinkState.{MemSinkState};

    ghost Value = { MemSinkState };

    ghost view = { λ s. record {
      taken = take s.len s.buf.items;
      room = length s.buf.items;
      fails = s.calls.fails.items;
      calls = s.calls.last;
      faults = s.faults;
    } };

    ghost invariant = { λ s. s.len ≤ length s.buf.items };
}

impl MemSink {
    /// A sink that took nothing yet, and whose count of faults is 0.
    pub fn new(alloc: Global, room: usize, fails: &[u64]) -> Result<MemSink, AllocError>
        ensures { IfOk result (λ sink. sink ≡ record { taken = []; room = room; fails = fails.now; calls = 0; faults = 0 }) }
    {
        let buf = vec![in alloc; 0; room]?;
        let calls = Calls::new(alloc, fails)?;
        Ok(MemSink {
            buf,
            len: 0,
            calls,
            faults: 0,
        })
    }

    /// The bytes taken so far.
    pub fn bytes(&self) -> &[u8]
        ensures { result.now ≡ self.now.taken }
    {
        &self.buf[..self.len]
    }
}

// Writes the bytes behind the first `len`.
fn write_behind(buf: &mut [u8], len: usize, bytes: &[u8])
    requires { len + length bytes.now ≤ length buf.old }
    ensures front { take (len + length bytes.now) buf.new ≡ take len buf.old ++ bytes.now }
    ensures room { length buf.new ≡ length buf.old }
{
    buf[len..len + bytes.len()].copy_from_slice(bytes);
}

impl Sink for MemSink {
    ghost taken = { λ s. Some s.taken };

    ghost faults = { λ s. s.faults };

    fn put(&mut self, bytes: &[u8]) -> Result<(), Failed>
        ensures state { self.new ≡ after_put self.old bytes.now }
        ensures answer { is_ok result ≡ not (is_refused self.old bytes.now) }
    {
        let listed = self.calls.next();
        let left = if listed { 0 } else { self.buf.len() - self.len };
        let fit = bytes.len().min(left);
        write_behind(&mut self.buf, self.len, &bytes[..fit]);
        self.len += fit;
        let refused = listed || fit < bytes.len();
        self.faults = count_after(refused, self.faults);
        if refused { Err(Failed) } else { Ok(()) }
    }
}
