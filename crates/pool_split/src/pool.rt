//! The pool.
ghost use Rattle.std.specs.Prelude.{◌≡◌, ◌≤◌, ◌<◌, ◌+◌, ◌^◌, ◌++◌, ◌∷◌, ◌↔◌, [], length, map, IfOk, OnOk, OnErr, None, true, false};
ghost use Rattle.svsm_types.specs.declared.platform.Size.TheVariants.{Small, Large};
ghost use Rattle.svsm_steps.specs.declared.step.Step.TheVariants.{PoolPush, PoolPop};
ghost use Rattle.svsm_steps.specs.Pool.{opened, pool_answer, pool_after};
ghost use Rattle.deposit_pool.specs.Pairs.{pair_of};
ghost use Rattle.deposit_pool.specs.Popped.{popped_answer, PopsAs};
ghost use Rattle.pool_split.specs.Pops.{IsWanting, Begins};

use crate::small::SmallBlocks;
use deposit_pool::Order;
use std::alloc::Global;
use std::marker::Model;
use svsm_types::{NoMemory, Page, Size};

/// The blocks that lie in the pool, in the order of pushing. Where a 4K block is wanted and none stands, the last 2M block is split.
///
/// It has a spare place where `reserve` made room for one more block and no push came since. A push and a pop take no memory
/// and do not search the pool.
#[derive(Drop)]
pub struct SplitPool {
    small: SmallBlocks,
    /// The 2M blocks, by their first pages.
    large: Vec<Page>,
    order: Order,
    spare: bool,
}

impl Model for SplitPool {
    ghost use Rattle.std.specs.Prelude.{◌≡◌, ◌<◌, ◌^◌, true, length};
    ghost use Rattle.svsm_types.specs.declared.platform.Size.TheVariants.{Small, Large};
    ghost use Rattle.deposit_pool.specs.Sizes.{count_of};
    ghost use Rattle.deposit_pool.specs.PoolValue.{PoolValue, blocks_in};
    ghost use Rattle.pool_split.specs.PoolLayout.{AreWhole, HasSpare};

    ghost Value = { PoolValue };

    ghost view = { λ p. record { blocks = blocks_in p.order.sizes p.small.pages p.large.items; spare = p.spare } };

    ghost invariant = { λ p. (count_of Small p.order.sizes ≡ length p.small.pages)
        × (count_of Large p.order.sizes ≡ length p.large.items)
        × (length p.small.pages < 2 ^ 62)
        × AreWhole p.large.items
        × (0 < length p.large.items → 0 < p.order.capacity)
        × (p.spare ≡ true → HasSpare p.small p.large p.order) };
}

impl SplitPool {
    /// An empty pool. It takes no memory yet.
    pub fn new(alloc: Global) -> SplitPool
        ensures { result ≡ record { blocks = []; spare = false } }
    {
        SplitPool {
            small: SmallBlocks::new(alloc),
            large: Vec::new(alloc),
            order: Order::new(alloc),
            spare: false,
        }
    }

    /// Makes room for one more block, of either size.
    pub fn reserve(&mut self) -> Result<(), NoMemory>
        ensures ok { OnOk result (self.new ≡ record self.old { spare = true }) }
        ensures err { OnErr result (self.new ≡ self.old) }
    {
        self.small.reserve()?;
        self.large.reserve(1)?;
        self.order.reserve(2)?;
        self.spare = true;
        Ok(())
    }

    /// Adds a block, and answers how many are held after it. The spare place is gone.
    pub fn push(&mut self, page: Page, size: Size) -> u64
        requires spare { self.old.spare ≡ true }
        requires begins { Begins size page }
        ensures held { result ≡ length self.old.blocks + 1 }
        ensures after { self.new ≡ record { blocks = pool_after true self.old.blocks (PoolPush page size); spare = false } }
    {
        self.order.push(size);
        match size {
            Size::Small => self.small.push(page),
            Size::Large => self.large.push_reserved(page),
        }
        self.spare = false;
        self.left()
    }

    /// Takes the block of a size that was pushed last, or where a 4K block is wanted and none stands the first page of the last
    /// 2M block. None where there is neither.
    pub fn pop(&mut self, size: Size) -> Option<Page>
        ensures none { (result ≡ None) ↔ IsWanting size self.old.blocks }
        ensures answer { popped_answer result (length self.new.blocks) ≡ pool_answer true self.old.blocks (PoolPop size) }
        ensures after { self.new ≡ record self.old { blocks = pool_after true self.old.blocks (PoolPop size) } }
    {
        match size {
            Size::Small => self.pop_small(),
            Size::Large => self.pop_large(),
        }
    }

    fn pop_large(&mut self) -> Option<Page>
        ensures page { PopsAs Large (opened true Large self.old.blocks) self.new.blocks result }
        ensures spare { self.new.spare ≡ self.old.spare }
    {
        let page = self.large.pop()?;
        self.order.remove_last(Size::Large);
        Some(page)
    }

    fn pop_small(&mut self) -> Option<Page>
        ensures page { PopsAs Small (opened true Small self.old.blocks) self.new.blocks result }
        ensures spare { self.new.spare ≡ self.old.spare }
    {
        if let Some(page) = self.small.pop() {
            self.order.remove_last(Size::Small);
            return Some(page);
        }
        let page = self.large.pop()?;
        self.order.split_last(511);
        self.small.split(page);
        Some(page)
    }

    /// How many blocks are held.
    pub fn left(&self) -> u64
        ensures { result ≡ length self.now.blocks }
    {
        self.small.len() as u64 + self.large.len() as u64
    }
    /// The blocks, from the first that was pushed: where a block was split, what is left of it, and above it those pushed since.
    pub fn blocks(&self, alloc: Global) -> Result<Vec<(Page, Size)>, NoMemory>
        ensures { IfOk result (λ blocks. blocks.items ≡ map pair_of self.now.blocks) }
    {
        let small = self.small.to_vec(alloc)?;
        self.order.lay_out(alloc, &small, &self.large)
    }
}
