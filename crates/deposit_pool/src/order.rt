//! The order in which blocks of two sizes were pushed.
ghost use Rattle.std.specs.Prelude.{◌≡◌, ◌≤◌, ◌<◌, ◌+◌, ◌^◌, ◌++◌, ◌∷◌, [], length, map, take, drop, IfOk, OnOk, OnErr};
ghost use Rattle.deposit_pool.specs.Sizes.{count_of, TakesLast, SplitsLast};
ghost use Rattle.deposit_pool.specs.PoolValue.{blocks_in};
ghost use Rattle.deposit_pool.specs.Pairs.{pair_of, pairs_with};

use std::alloc::Global;
use std::marker::Model;
use svsm_types::{NoMemory, Page, Size};

/// So many 4K blocks, and after them so many 2M blocks.
#[derive(Clone, Copy)]
pub struct Run {
    pub small: usize,
    pub large: usize,
}

/// The sizes of the blocks, in the order of pushing, as runs: only the first may lack 4K blocks, only the last 2M blocks.
#[derive(Drop)]
pub struct Order {
    /// The runs below the last.
    below: Vec<Run>,
    last: Run,
}

impl Model for Order {
    ghost use Rattle.std.specs.Prelude.{◌-◌, ◌++◌, vec_len, vec_capacity};
    ghost use Rattle.deposit_pool.specs.OrderValue.{OrderValue};
    ghost use Rattle.deposit_pool.specs.Runs.{sizes_in, sizes_of, IsCompact};

    ghost Value = { OrderValue };

    ghost view = { λ o. record {
      sizes = sizes_in o.below.items ++ sizes_of o.last;
      room = vec_capacity o.below - vec_len o.below;
      capacity = vec_capacity o.below;
    } };

    ghost invariant = { λ o. IsCompact o.below.items o.last };
}

fn push_all(blocks: &mut Vec<(Page, Size)>, pages: &[Page], size: Size) -> Result<(), NoMemory>
    ensures { OnOk result (blocks.new.items ≡ blocks.old.items ++ pairs_with size pages.now) }
{
    'pages: for page in pages {
        blocks.push((*page, size))?;
    }
    Ok(())
}

// The blocks of a run, from the first pages that are not laid out yet.
fn push_run(
    blocks: &mut Vec<(Page, Size)>,
    run: Run,
    done: Run,
    small: &[Page],
    large: &[Page],
) -> Result<(), NoMemory>
    requires small { done.small + run.small ≤ length small.now }
    requires large { done.large + run.large ≤ length large.now }
    ensures { OnOk result (blocks.new.items ≡ blocks.old.items ++ (pairs_with Size.Small (take run.small (drop done.small small.now))
        ++ pairs_with Size.Large (take run.large (drop done.large large.now)))) }
{
    let small = &small[done.small..done.small + run.small];
    let large = &large[done.large..done.large + run.large];
    push_all(blocks, small, Size::Small)?;
    push_all(blocks, large, Size::Large)
}

impl Order {
    /// No sizes. It takes no memory yet.
    pub fn new(alloc: Global) -> Order
        ensures { result.sizes ≡ [] }
    {
        Order {
            below: Vec::new(alloc),
            last: Run { small: 0, large: 0 },
        }
    }

    /// Makes room for so many more runs.
    pub fn reserve(&mut self, runs: usize) -> Result<(), NoMemory>
        ensures sizes { self.new.sizes ≡ self.old.sizes }
        ensures room { self.old.room ≤ self.new.room }
        ensures capacity { self.old.capacity ≤ self.new.capacity }
        ensures ok { OnOk result (runs ≤ self.new.room) }
        ensures ok_capacity { OnOk result (runs ≤ self.new.capacity) }
    {
        self.below.reserve(runs)?;
        Ok(())
    }

    /// Adds a size at the end.
    pub fn push(&mut self, size: Size)
        requires room { 0 < self.old.room }
        requires few { count_of size self.old.sizes + 1 < 2 ^ 64 }
        ensures sizes { self.new.sizes ≡ self.old.sizes ++ size ∷ [] }
        ensures capacity { self.new.capacity ≡ self.old.capacity }
    {
        match size {
            Size::Large => self.last.large += 1,
            Size::Small if self.last.large == 0 => self.last.small += 1,
            Size::Small => {
                self.below.push_reserved(self.last);
                self.last = Run { small: 1, large: 0 };
            }
        }
    }

    /// Takes the last of a size away.
    pub fn remove_last(&mut self, size: Size)
        requires some { 0 < count_of size self.old.sizes }
        requires few { (other : Size) → count_of other self.old.sizes < 2 ^ 64 }
        ensures sizes { TakesLast size self.old.sizes self.new.sizes }
        ensures room { self.old.room ≤ self.new.room }
        ensures capacity { self.new.capacity ≡ self.old.capacity }
    {
        match size {
            Size::Small => self.remove_small(),
            Size::Large => self.remove_large(),
        }
    }

    /// So many 4K blocks stand in the place of the last block. All blocks are of 2M.
    pub fn split_last(&mut self, count: usize)
        requires some { 0 < count_of Size.Large self.old.sizes }
        requires few { count_of Size.Large self.old.sizes < 2 ^ 64 }
        requires large { count_of Size.Small self.old.sizes ≡ 0 }
        requires count { 0 < count }
        requires capacity { 0 < self.old.capacity }
        ensures sizes { SplitsLast count self.old.sizes self.new.sizes }
        ensures room { self.old.capacity ≤ self.new.room + 1 }
        ensures capacity { self.new.capacity ≡ self.old.capacity }
    {
        self.last.large -= 1;
        if self.last.large > 0 {
            self.below.push_reserved(self.last);
        }
        self.last = Run {
            small: count,
            large: 0,
        };
    }

    /// The blocks, each with the next page of its size, in time linear in their number.
    pub fn lay_out(
        &self,
        alloc: Global,
        small: &[Page],
        large: &[Page],
    ) -> Result<Vec<(Page, Size)>, NoMemory>
        requires small { count_of Size.Small self.now.sizes ≡ length small.now }
        requires large { count_of Size.Large self.now.sizes ≡ length large.now }
        ensures { IfOk result (λ blocks. blocks.items ≡ map pair_of (blocks_in self.now.sizes small.now large.now)) }
    {
        let mut blocks = Vec::new(alloc);
        let mut done = Run { small: 0, large: 0 };
        'runs: for run in &self.below {
            push_run(&mut blocks, *run, done, small, large)?;
            done = Run {
                small: done.small + run.small,
                large: done.large + run.large,
            };
        }
        push_run(&mut blocks, self.last, done, small, large)?;
        Ok(blocks)
    }

    fn remove_small(&mut self)
        requires some { 0 < count_of Size.Small self.old.sizes }
        requires few { count_of Size.Large self.old.sizes < 2 ^ 64 }
        ensures sizes { TakesLast Size.Small self.old.sizes self.new.sizes }
        ensures room { self.old.room ≤ self.new.room }
        ensures capacity { self.new.capacity ≡ self.old.capacity }
    {
        self.last.small -= 1;
        if self.last.small > 0 {
            return;
        }
        if let Some(run) = self.below.pop() {
            self.last = Run {
                small: run.small,
                large: run.large + self.last.large,
            };
        }
    }

    fn remove_large(&mut self)
        requires some { 0 < count_of Size.Large self.old.sizes }
        requires few { count_of Size.Small self.old.sizes < 2 ^ 64 }
        ensures sizes { TakesLast Size.Large self.old.sizes self.new.sizes }
        ensures room { self.old.room ≤ self.new.room }
        ensures capacity { self.new.capacity ≡ self.old.capacity }
    {
        if self.last.large > 0 {
            self.last.large -= 1;
            return;
        }
        if let Some(run) = self.below.pop() {
            let large = run.large - 1;
            if large > 0 {
                self.below.push_reserved(Run { large, ..run });
            } else {
                self.last.small += run.small;
            }
        }
    }
}
