//! A case: one run of the program, and what it has to answer.
use anyhow::Result;
use std::alloc::Global;

/// A file under its name.
#[derive(Drop)]
pub struct File {
    pub name: String,
    pub bytes: Vec<u8>,
}

/// What the program has to answer.
#[derive(Drop)]
pub struct Wanted {
    pub status: u8,
    /// The whole output, where it is given.
    pub out: Option<Vec<u8>>,
    /// Texts that stand in the output, in this order.
    pub parts: Vec<String>,
    /// The whole standard error.
    pub err: Vec<u8>,
}

/// The room of the sinks, and what fails.
#[derive(Drop)]
pub struct Limits {
    /// The room of the output, in bytes.
    pub room: usize,
    /// The room of the standard error, in bytes.
    pub err_room: usize,
    /// A write to the output takes at most so many bytes.
    pub most: usize,
    pub failing_loads: Vec<u64>,
    pub failing_writes: Vec<u64>,
    /// Besides, the same run is cut off at many rooms, and at each of many writes.
    pub each: bool,
}

/// One run of the program.
#[derive(Drop)]
pub struct Case {
    pub name: String,
    pub words: Vec<String>,
    pub files: Vec<File>,
    pub limits: Limits,
    pub wanted: Wanted,
}

const ROOM: usize = 0x4_0000;

fn copy_of_files(alloc: Global, files: &[File]) -> Result<Vec<File>> {
    let mut copies = Vec::new(alloc);
    for file in files {
        copies.push(File {
            name: file.name.clone()?,
            bytes: file.bytes.clone()?,
        })?;
    }
    Ok(copies)
}

impl Case {
    /// A case of this name on these files, of which nothing else is said.
    pub fn on(alloc: Global, name: &str, files: &[File]) -> Result<Case> {
        Ok(Case {
            name: String::from_str(alloc, name)?,
            words: Vec::new(alloc),
            files: copy_of_files(alloc, files)?,
            limits: Limits {
                room: ROOM,
                err_room: ROOM,
                most: ROOM,
                failing_loads: Vec::new(alloc),
                failing_writes: Vec::new(alloc),
                each: false,
            },
            wanted: Wanted {
                status: 0,
                out: None,
                parts: Vec::new(alloc),
                err: Vec::new(alloc),
            },
        })
    }

    /// The bytes of the file of this name, which is made where it is not there.
    pub fn bytes_of(&mut self, alloc: Global, name: &str) -> Result<&mut Vec<u8>> {
        let place = match self
            .files
            .iter()
            .position(|file| file.name.as_str() == name)
        {
            Some(place) => place,
            None => {
                self.files.push(File {
                    name: String::from_str(alloc, name)?,
                    bytes: Vec::new(alloc),
                })?;
                self.files.len() - 1
            }
        };
        Ok(&mut self.files[place].bytes)
    }
}
