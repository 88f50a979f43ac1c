//! A sink that keeps what it takes.
ghost use Rattle.std.specs.Prelude.{◌≡◌, [], Some};
ghost use Rattle.jn_big.specs.Kept.{KeptState};

use jn_io::{Failed, Sink};
use std::alloc::{AllocError, Global};
use std::marker::Model;

/// Keeps all the bytes in memory. Where there is no more of it a put fails, and raises the count of faults.
#[derive(Drop)]
pub struct Kept {
    bytes: Vec<u8>,
    faults: u64,
}

impl Model for Kept {
    ghost use Rattle.jn_big.specs.Kept.{KeptState};

    ghost Value = { KeptState };

    ghost view = { λ s. record { taken = s.bytes.items; faults = s.faults } };
}

impl Kept {
    /// A sink that took nothing yet, and whose count of faults is 0.
    pub fn new(alloc: Global) -> Kept
        ensures { result ≡ record { taken = []; faults = 0 } }
    {
        Kept {
            bytes: Vec::new(alloc),
            faults: 0,
        }
    }

    /// The bytes taken so far.
    pub fn bytes(&self) -> &[u8]
        ensures { result.now ≡ self.now.taken }
    {
        &self.bytes
    }
}

impl Sink for Kept {
    ghost taken = { λ s. Some s.taken };

    ghost faults = { λ s. s.faults };

    fn put(&mut self, bytes: &[u8]) -> Result<(), Failed> {
        match self.bytes.extend_from_slice(bytes) {
            Ok(()) => Ok(()),
            Err(AllocError) => {
                self.faults = self.faults.saturating_add(1);
                Err(Failed)
            }
        }
    }
}
