//! The files of the system.
ghost use Rattle.std.specs.Prelude.{◌≡◌, ◌≤◌, ◌⊎◌, ◌↔◌, None, [], length, map, option_map, string_bytes, IfOk, IfSome};
ghost use Rattle.std.specs.IoError.{error_kind};
ghost use Rattle.svsm_outside.specs.Outside.{Loads};

use crate::{LoadError, Shelf};
use std::alloc::Global;
use std::fs;
use std::io::{self, ErrorKind, Read};
use std::rt::Files;

/// The files of the system, by their paths. It tells no bytes.
#[derive(Drop)]
pub struct FileShelf<'a, R: Files> {
    rt: &'a R,
    asked: Vec<String>,
    faults: u64,
    failed: Option<String>,
}

impl<'a, R: Files> FileShelf<'a, R> {
    /// The files, of which none was loaded yet.
    pub fn new(rt: &'a R, alloc: Global) -> FileShelf<'a, R>
        ensures asked { result.asked.items ≡ [] }
        ensures faults { result.faults ≡ 0 }
        ensures failed { result.failed ≡ None }
    {
        FileShelf {
            rt,
            asked: Vec::new(alloc),
            faults: 0,
            failed: None,
        }
    }
}

// Want of memory is no failure of the file.
fn cause_of(error: &io::Error) -> LoadError
    ensures memory { (result ≡ LoadError.NoMemory) ↔ (error_kind error.now ≡ ErrorKind.OutOfMemory) }
    ensures failed { (result ≡ LoadError.NoMemory) ⊎ (result ≡ LoadError.Failed) }
{
    match error.kind() {
        ErrorKind::OutOfMemory => LoadError::NoMemory,
        _ => LoadError::Failed,
    }
}

// The bytes that a reader has left, where they are at most so many.
fn read_all<F: Read>(file: &mut F, alloc: Global, limit: u64) -> Result<Vec<u8>, LoadError>
    ensures fits { IfOk result (λ v. length v.items ≤ limit) }
    ensures bytes { IfSome (F.remaining file.old) (λ left. Loads (λ v. v.items) left limit result) }
{
    let mut bytes = Vec::new(alloc);
    let mut part = [0u8; 4096];
    'reads: loop {
        let count = match file.read(&mut part) {
            Ok(count) => count,
            Err(error) => return Err(cause_of(&error)),
        };
        if count == 0 {
            return Ok(bytes);
        }
        if count as u64 > limit - bytes.len() as u64 {
            return Err(LoadError::TooLong);
        }
        bytes.extend_from_slice(&part[..count])?;
    }
}

// The bytes of a file, where they are at most so many.
fn read_file<R: Files>(rt: &R, alloc: Global, name: &str, limit: u64) -> Result<Vec<u8>, LoadError>
    ensures { IfOk result (λ v. length v.items ≤ limit) }
{
    match fs::open(rt, name) {
        Ok(mut file) => read_all(&mut file, alloc, limit),
        Err(error) => Err(cause_of(&error)),
    }
}

impl<R: Files> Shelf for FileShelf<'_, R> {
    ghost seen = { λ s. record {
      told = λ _. None;
      asked = map string_bytes s.asked.items;
      faults = s.faults;
      failed = option_map string_bytes s.failed;
    } };

    fn load(&mut self, alloc: Global, name: &str, limit: u64) -> Result<Vec<u8>, LoadError> {
        let kept = String::from_str(alloc, name)?;
        self.asked.push(String::from_str(alloc, name)?)?;
        let loaded = read_file(self.rt, alloc, name, limit);
        if let Err(LoadError::Failed) = loaded {
            self.faults = self.faults.saturating_add(1);
            self.failed = Some(kept);
        }
        loaded
    }
}
