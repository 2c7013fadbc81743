//! A sink in memory.
ghost use Rattle.std.specs.Prelude.{◌≡◌, ◌+◌, ◌-◌, ◌^◌, ◌<◌, ◌≤◌, ◌↔◌, ◌⊎◌, Some, [], length, min, take, vec_capacity, IfOk, OnOk, OnErr, Contains, IsErrOf, IsErr};
ghost use Rattle.std.specs.Io.KnownBytes.{WriteAppends};
ghost use Rattle.svsm_outside.specs.Outside.{Rose, count_up};

use crate::Sink;
use std::alloc::Global;
use svsm_types::{Faulted, NoMemory};

/// A sink in memory with a fixed room. Writes are numbered from 0.
#[derive(Drop)]
pub struct MemorySink {
    written: Vec<u8>,
    room: usize,
    failing: Vec<u64>,
    writes: u64,
    faults: u64,
    ghost within: { length written.items ≤ room },
    ghost fits: { room ≤ vec_capacity written },
}

impl MemorySink {
    /// An empty sink with room for so many bytes, on which the writes with these numbers fail.
    pub fn new(alloc: Global, room: usize, failing: &[u64]) -> Result<MemorySink, NoMemory>
        ensures empty { IfOk result (λ s. s.written.items ≡ []) }
        ensures room { IfOk result (λ s. s.room ≡ room) }
        ensures failing { IfOk result (λ s. s.failing.items ≡ failing.now) }
        ensures writes { IfOk result (λ s. s.writes ≡ 0) }
        ensures faults { IfOk result (λ s. s.faults ≡ 0) }
    {
        let failing = Vec::from_slice(alloc, failing)?;
        let written = Vec::with_capacity(alloc, room)?;
        Ok(MemorySink {
            written,
            room,
            failing,
            writes: 0,
            faults: 0,
        })
    }

    /// The bytes written.
    pub fn bytes(&self) -> &[u8]
        ensures { result.now ≡ self.now.written.items }
    {
        &self.written
    }
}

impl Sink for MemorySink {
    ghost seen = { λ s. record { written = Some s.written.items; faults = s.faults } };

    /// Fails at a number that is to fail and where there is no room left. Else it takes what fits.
    fn write(&mut self, bytes: &[u8]) -> Result<usize, Faulted>
        requires { 0 < length bytes.now }
        ensures some { IfOk result (λ n. 0 < n) }
        ensures within { IfOk result (λ n. n ≤ length bytes.now) }
        ensures appends { WriteAppends (Some self.old.written.items) (Some self.new.written.items) result bytes.now }
        ensures calm { OnOk result (self.new.faults ≡ self.old.faults) }
        ensures fault { OnErr result (Rose self.old.faults self.new.faults) }
        ensures fails { IsErr result ↔ (Contains self.old.failing.items self.old.writes ⊎ (self.old.room ≡ length self.old.written.items)) }
        ensures most { IfOk result (λ n. n ≡ min (length bytes.now) (self.old.room - length self.old.written.items)) }
        ensures one { OnErr result (self.new.faults ≡ count_up self.old.faults) }
        ensures numbered { self.new.writes ≡ count_up self.old.writes }
        ensures room { self.new.room ≡ self.old.room }
        ensures failing { self.new.failing.items ≡ self.old.failing.items }
    {
        let number = self.writes;
        self.writes = number.saturating_add(1);
        let count = bytes.len().min(self.room - self.written.len());
        if count == 0 || self.failing.contains(&number) {
            self.faults = self.faults.saturating_add(1);
            return Err(Faulted);
        }
        self.written.extend_from_slice(&bytes[..count]).unwrap();
        Ok(count)
    }
}
