//! A shelf in memory.
ghost use Rattle.std.specs.Prelude.{◌≡◌, ◌+◌, ◌-◌, ◌^◌, ◌<◌, ◌≤◌, ◌↔◌, ◌⊎◌, List, ℕ, Some, None, [], length, map, min, IfOk, IfSome, OnOk, OnErr, Contains, is_none};
ghost use Rattle.std.specs.Option.{option_map};
ghost use Rattle.std.specs.String.{string_bytes};
ghost use Rattle.svsm_outside.specs.Outside.{Loads, LoadCause, Asks};
ghost use Rattle.svsm_outside.specs.Memory.{bytes_under, shelf_view, put_under, FailsExactly, CountsLoad, CountsFault};

use crate::{LoadError, Shelf};
use std::alloc::Global;
use std::collections::BTreeMap;
use svsm_types::NoMemory;

/// Files in memory. Loads are numbered from 0.
#[derive(Drop)]
pub struct MemoryShelf {
    alloc: Global,
    files: BTreeMap<String, Vec<u8>>,
    failing: Vec<u64>,
    asked: Vec<String>,
    loads: u64,
    faults: u64,
    failed: Option<String>,
}

impl MemoryShelf {
    /// A shelf without files, on which the loads with these numbers fail.
    pub fn new(alloc: Global, failing: &[u64]) -> Result<MemoryShelf, NoMemory>
        ensures empty { IfOk result (λ s. (name : List ℕ) → bytes_under s name ≡ None) }
        ensures failing { IfOk result (λ s. s.failing.items ≡ failing.now) }
        ensures asked { IfOk result (λ s. s.asked.items ≡ []) }
        ensures loads { IfOk result (λ s. s.loads ≡ 0) }
        ensures faults { IfOk result (λ s. s.faults ≡ 0) }
        ensures failed { IfOk result (λ s. s.failed ≡ None) }
    {
        let failing = Vec::from_slice(alloc, failing)?;
        Ok(MemoryShelf {
            alloc,
            files: BTreeMap::new(alloc),
            failing,
            asked: Vec::new(alloc),
            loads: 0,
            faults: 0,
            failed: None,
        })
    }

    /// Puts the bytes under the name, in place of what stood there.
    pub fn put_file(&mut self, name: &str, bytes: &[u8]) -> Result<(), NoMemory>
        ensures ok { OnOk result ((other : List ℕ) → bytes_under self.new other ≡ put_under name.now bytes.now (bytes_under self.old) other) }
        ensures err { OnErr result ((other : List ℕ) → bytes_under self.new other ≡ bytes_under self.old other) }
        ensures failing { self.new.failing.items ≡ self.old.failing.items }
        ensures asked { self.new.asked.items ≡ self.old.asked.items }
        ensures loads { self.new.loads ≡ self.old.loads }
        ensures faults { self.new.faults ≡ self.old.faults }
        ensures failed { self.new.failed ≡ self.old.failed }
    {
        let name = String::from_str(self.alloc, name)?;
        let bytes = Vec::from_slice(self.alloc, bytes)?;
        self.files.insert(name, bytes)?;
        Ok(())
    }
}

impl Shelf for MemoryShelf {
    ghost seen = { shelf_view };

    /// Fails at a number that is to fail and where the name has no file.
    fn load(&mut self, alloc: Global, name: &str, limit: u64) -> Result<Vec<u8>, LoadError>
        ensures same { bytes_under self.new ≡ bytes_under self.old }
        ensures fits { IfOk result (λ v. length v.items ≤ limit) }
        ensures bytes { IfSome (bytes_under self.old name.now) (λ told. Loads (λ v. v.items) told limit result) }
        ensures cause { LoadCause name.now (shelf_view self.old) (shelf_view self.new) result }
        ensures asked { Asks name.now (shelf_view self.old) (shelf_view self.new) result }
        ensures fails { FailsExactly (Contains self.old.failing.items self.old.loads ⊎ (bytes_under self.old name.now ≡ None)) result }
        ensures one { CountsFault self.old.faults self.new.faults result }
        ensures numbered { CountsLoad self.old.loads self.new.loads result }
        ensures failing { self.new.failing.items ≡ self.old.failing.items }
    {
        let kept = String::from_str(self.alloc, name)?;
        self.asked.push(String::from_str(self.alloc, name)?)?;
        let number = self.loads;
        match self.files.get(name) {
            Some(bytes) if !self.failing.contains(&number) => {
                if bytes.len() as u64 > limit {
                    self.loads = number.saturating_add(1);
                    return Err(LoadError::TooLong);
                }
                let copy = Vec::from_slice(alloc, bytes)?;
                self.loads = number.saturating_add(1);
                Ok(copy)
            }
            _ => {
                self.loads = number.saturating_add(1);
                self.faults = self.faults.saturating_add(1);
                self.failed = Some(kept);
                Err(LoadError::Failed)
            }
        }
    }
}
