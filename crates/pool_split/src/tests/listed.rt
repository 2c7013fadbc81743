//! The pool as a plain list of its blocks.
use std::alloc::Global;
use svsm_types::{NoMemory, Page, Size};

/// The blocks in the order of pushing.
#[derive(Drop)]
pub(crate) struct Listed {
    blocks: Vec<(Page, Size)>,
}

// The index of the last block of a size, or the number of blocks where there is none.
fn last_of(blocks: &[(Page, Size)], size: Size) -> usize {
    let mut found = blocks.len();
    for (at, block) in blocks.iter().enumerate() {
        if block.1 == size {
            found = at;
        }
    }
    found
}

impl Listed {
    pub(crate) fn new(alloc: Global) -> Listed {
        Listed {
            blocks: Vec::new(alloc),
        }
    }

    pub(crate) fn left(&self) -> u64 {
        self.blocks.len() as u64
    }

    pub(crate) fn push(&mut self, page: u64, size: Size) -> Result<(), NoMemory> {
        self.blocks.push((Page(page), size))?;
        Ok(())
    }

    fn split(&mut self) -> Result<(), NoMemory> {
        let Some((page, _)) = self.blocks.pop() else {
            return Ok(());
        };
        for index in 0..512_u64 {
            self.push(page.0.wrapping_add(511 - index), Size::Small)?;
        }
        Ok(())
    }

    pub(crate) fn pop(&mut self, size: Size) -> Result<Option<Page>, NoMemory> {
        if size == Size::Small && last_of(&self.blocks, size) == self.blocks.len() {
            self.split()?;
        }
        let at = last_of(&self.blocks, size);
        if at >= self.blocks.len() {
            return Ok(None);
        }
        let (page, _) = self.blocks.remove(at);
        Ok(Some(page))
    }
}
