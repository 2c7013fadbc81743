//! A sink that takes a few bytes at a time.
ghost use Rattle.std.specs.Prelude.{Some};

use svsm_outside::{MemorySink, Sink};
use svsm_types::Faulted;

/// A sink in memory of which each write takes at most so many bytes, and one at least.
#[derive(Drop)]
pub struct ShortSink {
    pub most: usize,
    pub sink: MemorySink,
}

impl Sink for ShortSink {
    ghost seen = { λ s. record { written = Some s.sink.written.items; faults = s.sink.faults } };

    fn write(&mut self, bytes: &[u8]) -> Result<usize, Faulted> {
        let count = bytes.len().min(self.most.max(1));
        self.sink.write(&bytes[..count])
    }
}
