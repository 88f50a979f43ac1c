//! An output that notes the puts.
ghost use Rattle.std.specs.Prelude.{Some};

use jn_io::{Failed, MemSink, Sink};

/// Notes the length of each put, as far as there is memory for it.
#[derive(Drop)]
pub struct Noted {
    pub sink: MemSink,
    pub sizes: Vec<u64>,
}

impl Sink for Noted {
    ghost taken = { λ s. Some s.sink.taken };

    ghost faults = { λ s. s.sink.faults };

    fn put(&mut self, bytes: &[u8]) -> Result<(), Failed> {
        let _ = self.sizes.push(bytes.len() as u64);
        self.sink.put(bytes)
    }
}
