//! What is tried of the listed blocks of the pool.
ghost use Rattle.std.specs.Prelude.{◌≡◌, ℕ, ◌+◌, ◌*◌, ◌≤◌, ◌<◌, ◌==◌, ◌&&◌, nat_le, nat_lt, if◌then◌else◌, true, false, not, [], length, slice_index_or, IfOk};
ghost use Rattle.std.specs.List.{list_all};
ghost use Rattle.svsm_steps.specs.Words.{as_bit};
ghost use Rattle.svsm_steps.specs.Image.{is_pools};
ghost use Rattle.svsm_steps.specs.Sound.{is_sound_block};
ghost use Rattle.image_grammar.specs.Grammar.{is_any_page};
ghost use Rattle.image_grammar.specs.End.{are_listed, has_blocks};
ghost use Rattle.image_reader.specs.Blocks.{AreHeld, count_of, listed};
ghost use Rattle.image_reader.specs.Draft.{IsDraft};

use crate::draft::Draft;
use crate::end::owner_in;
use crate::tables::mark;
use std::alloc::Global;
use svsm_types::{NoMemory, Owner, Page, Size, in_map, region_of};

const PAGES: u64 = 512;

// How many pages a block has.
fn count_of(size: Size) -> u64
    ensures { result ≡ count_of size }
{
    match size {
        Size::Small => 1,
        Size::Large => PAGES,
    }
}

// Whether one of so many pages from the first on is marked.
fn is_any_marked(held: &[bool], first: u64, count: u64) -> bool
    requires { first + count ≤ length held.now }
    ensures { result ≡ is_any_page (λ page. slice_index_or held.now page false) first count }
{
    let first = first as usize;
    let end = first + count as usize;
    held[first..end].iter().any(|page| *page)
}

// Marks so many pages from the first on, unless one of them is marked.
fn hold(held: &mut [bool], first: u64, count: u64) -> bool
    requires { first + count ≤ length held.old }
    ensures free { result ≡ not (is_any_page (λ page. slice_index_or held.old page false) first count) }
    ensures size { length held.new ≡ length held.old }
    ensures marked { result ≡ true → (page : ℕ) → page < length held.old → slice_index_or held.new page false
        ≡ (if nat_le first page && nat_lt page (first + count) then true else slice_index_or held.old page false) }
{
    if is_any_marked(held, first, count) {
        return false;
    }
    mark(held, first, count);
    true
}

impl Draft {
    // Whether a block is in the map, and if it is of 2M begins a region that is held as 2M.
    fn is_sound_block(&self, block: (Page, Size)) -> bool
        requires { IsDraft self.now }
        ensures { result ≡ is_sound_block self.now.image block }
    {
        let (page, size) = block;
        if !in_map(self.image.regions, page) {
            return false;
        }
        match size {
            Size::Small => true,
            Size::Large => page.0.is_multiple_of(PAGES) && self.is_large(region_of(page)),
        }
    }

    // Marks the pages of all blocks. False where a block is not sound, or a page stands in two.
    fn hold_all(&self, held: &mut [bool]) -> bool
        requires whole { IsDraft self.now }
        requires size { length held.old ≡ 512 * self.now.image.regions }
        requires none { (page : ℕ) → page < length held.old → slice_index_or held.old page false ≡ false }
        ensures size { length held.new ≡ length held.old }
        ensures sound { result ≡ true → list_all (is_sound_block self.now.image) self.now.image.blocks ≡ true }
        ensures held { result ≡ true → AreHeld self.now.image.blocks held.new [] }
        ensures failed { result ≡ false → list_all (is_sound_block self.now.image) self.now.image.blocks && are_listed self.now.image ≡ false }
    {
        let mut left = self.image.blocks.as_slice();
        'lines: while let Some((block, after)) = left.split_first() {
            if !self.is_sound_block(*block) {
                return false;
            }
            let (page, size) = *block;
            if !hold(held, page.0, count_of(size)) {
                return false;
            }
            left = after;
        }
        true
    }

    // Whether a page is of the pool.
    fn is_pools(&self, page: u64) -> bool
        requires whole { IsDraft self.now }
        requires within { page < 512 * self.now.image.regions }
        ensures { result ≡ is_pools self.now.image page }
    {
        owner_in(self.range_at(page)) == Owner::Pool
    }

    // Whether a page is marked just where it is the pool's.
    fn is_right_page(&self, held: &[bool], page: u64) -> bool
        requires whole { IsDraft self.now }
        requires size { length held.now ≡ 512 * self.now.image.regions }
        requires held { AreHeld self.now.image.blocks held.now [] }
        requires within { page < 512 * self.now.image.regions }
        ensures { result ≡ (listed self.now.image.blocks page == as_bit (is_pools self.now.image page)) }
    {
        held[page as usize] == self.is_pools(page)
    }

    // Whether just the pages of the pool are marked.
    fn are_listed(&self, held: &[bool]) -> bool
        requires whole { IsDraft self.now }
        requires size { length held.now ≡ 512 * self.now.image.regions }
        requires held { AreHeld self.now.image.blocks held.now [] }
        ensures { result ≡ are_listed self.now.image }
    {
        'pages: for page in 0..512 * self.image.regions {
            if !self.is_right_page(held, page) {
                return false;
            }
        }
        true
    }

    /// Whether the listed blocks, where there are any, are sound and have just the pages of the pool, each once.
    pub fn has_blocks(&self, alloc: Global) -> Result<bool, NoMemory>
        requires { IsDraft self.now }
        ensures { IfOk result (λ has. has ≡ has_blocks self.now.image) }
    {
        if self.image.blocks.len() == 0 {
            return Ok(true);
        }
        let mut held = Vec::new(alloc);
        held.resize((PAGES * self.image.regions) as usize, false)?;
        Ok(self.hold_all(&mut held) && self.are_listed(&held))
    }
}
