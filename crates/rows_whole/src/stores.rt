//! A store that hands out one byte a read, and an output that notes the puts.
ghost use Rattle.std.specs.Prelude.{Some};

use jn_io::{Failed, MemSink, SaveFault, Sink, Store};

/// Hands out one byte a read.
#[derive(Drop)]
pub struct ByBytes<S> {
    pub store: S,
}

impl<S: Store + Drop> Store for ByBytes<S> {
    ghost files = { λ s. S.files s.store };

    ghost rest = { λ s. S.rest s.store };

    ghost read_faults = { λ s. S.read_faults s.store };

    ghost save_faults = { λ s. S.save_faults s.store };

    fn begin(&mut self, name: &str) -> Result<(), Failed> {
        self.store.begin(name)
    }

    fn read(&mut self, buf: &mut [u8]) -> Result<usize, Failed> {
        self.store.read(&mut buf[..1])
    }

    fn save(&mut self, name: &str, bytes: &[u8]) -> Result<(), SaveFault> {
        self.store.save(name, bytes)
    }
}

/// Notes the length of each put, as far as there is memory for it.
#[derive(Drop)]
pub struct Noted {
    pub sink: MemSink,
    pub sizes: Vec<u64>,
}

impl Sink for Noted {
    ghost taken = { λ s. Some s.sink.taken };

    ghost faults = { λ s. s.sink.faults };

    fn put(&mut self, bytes: &[u8]) -> Result<(), Failed> {
        let _ = self.sizes.push(bytes.len() as u64);
        self.sink.put(bytes)
    }
}
