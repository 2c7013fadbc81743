//! The streams of the system.
ghost use Rattle.std.specs.Prelude.{◌≡◌};

use crate::Sink;
use std::io::Write;
use svsm_types::Faulted;

/// A writer of std as a sink. It tells what the writer tells, and a write that took nothing has failed.
#[derive(Drop)]
pub struct StreamSink<W: Write> {
    inner: W,
    faults: u64,
}

impl<W: Write> StreamSink<W> {
    /// The stream, to which nothing was written yet.
    pub fn new(inner: W) -> StreamSink<W>
        ensures inner { result.inner ≡ inner }
        ensures faults { result.faults ≡ 0 }
    {
        StreamSink { inner, faults: 0 }
    }
}

impl<W: Write> Sink for StreamSink<W> {
    ghost seen = { λ s. record { written = W.contents s.inner; faults = s.faults } };

    fn write(&mut self, bytes: &[u8]) -> Result<usize, Faulted> {
        match self.inner.write(bytes) {
            Ok(count) if count > 0 => Ok(count),
            _ => {
                self.faults = self.faults.saturating_add(1);
                Err(Faulted)
            }
        }
    }
}
