//! The 4K blocks of a pool that splits.
ghost use Rattle.std.specs.Prelude.{◌≡◌, ◌≤◌, ◌<◌, ◌+◌, ◌^◌, ◌++◌, ◌∷◌, [], length, IfOk, OnOk, OnErr, MatchOption};
ghost use Rattle.pool_split.specs.Rest.{rest_of};

use std::alloc::Global;
use std::marker::Model;
use svsm_types::{NoMemory, Page};

/// What is left of the 2M block that was split last, and above it the blocks that were pushed.
#[derive(Drop)]
pub struct SmallBlocks {
    /// The first page of that 2M block.
    split: Page,
    /// How many of its last pages are left.
    left: usize,
    pushed: Vec<Page>,
}

impl Model for SmallBlocks {
    ghost use Rattle.std.specs.Prelude.{◌≤◌, ◌<◌, ◌+◌, ◌-◌, ◌^◌, ◌++◌, length, vec_len, vec_capacity};
    ghost use Rattle.pool_split.specs.SmallValue.{SmallValue};
    ghost use Rattle.pool_split.specs.Rest.{rest_of};

    ghost Value = { SmallValue };

    ghost view = { λ s. record {
      pages = rest_of s.split s.left ++ s.pushed.items;
      room = vec_capacity s.pushed - vec_len s.pushed;
    } };

    ghost invariant = { λ s. (s.left ≤ 511) × (s.split.0 + 511 < 2 ^ 64) × (length s.pushed.items < 2 ^ 61) };
}

impl SmallBlocks {
    /// No blocks. It takes no memory yet.
    pub fn new(alloc: Global) -> SmallBlocks
        ensures { result.pages ≡ [] }
    {
        SmallBlocks {
            split: Page(0),
            left: 0,
            pushed: Vec::new(alloc),
        }
    }

    /// Makes room for one more block.
    pub fn reserve(&mut self) -> Result<(), NoMemory>
        ensures pages { self.new.pages ≡ self.old.pages }
        ensures room { self.old.room ≤ self.new.room }
        ensures ok { OnOk result (0 < self.new.room) }
    {
        self.pushed.reserve(1)?;
        Ok(())
    }

    /// Adds a block.
    pub fn push(&mut self, page: Page)
        requires room { 0 < self.old.room }
        ensures pages { self.new.pages ≡ self.old.pages ++ page ∷ [] }
        ensures few { length self.new.pages < 2 ^ 62 }
    {
        self.pushed.push_reserved(page);
    }

    /// Takes the last block away.
    pub fn pop(&mut self) -> Option<Page>
        ensures page { MatchOption result ((self.old.pages ≡ []) × (self.new.pages ≡ [])) (λ page. self.old.pages ≡ self.new.pages ++ page ∷ []) }
        ensures room { self.old.room ≤ self.new.room }
    {
        if let Some(page) = self.pushed.pop() {
            return Some(page);
        }
        if self.left == 0 {
            return None;
        }
        let page = Page(self.split.0 + (512 - self.left as u64));
        self.left -= 1;
        Some(page)
    }

    /// Takes in all pages of a 2M block but its first. There were none.
    pub fn split(&mut self, page: Page)
        requires empty { self.old.pages ≡ [] }
        requires page { page.0 + 511 < 2 ^ 64 }
        ensures pages { self.new.pages ≡ rest_of page 511 }
        ensures room { self.new.room ≡ self.old.room }
    {
        self.split = page;
        self.left = 511;
    }

    /// How many there are.
    pub fn len(&self) -> usize
        ensures len { result ≡ length self.now.pages }
        ensures few { result < 2 ^ 62 }
    {
        self.left + self.pushed.len()
    }
    /// The pages, from the first that was pushed.
    pub fn to_vec(&self, alloc: Global) -> Result<Vec<Page>, NoMemory>
        ensures { IfOk result (λ pages. pages.items ≡ self.now.pages) }
    {
        let mut pages = Vec::new(alloc);
        'rest: for k in 0..self.left as u64 {
            pages.push(Page(self.split.0 + 511 - k))?;
        }
        pages.extend_from_slice(&self.pushed)?;
        Ok(pages)
    }
}
