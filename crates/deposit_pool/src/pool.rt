//! The pool.
ghost use Rattle.std.specs.Prelude.{◌≡◌, ◌≤◌, ◌<◌, ◌+◌, ◌^◌, ◌++◌, ◌∷◌, [], length, map, IfOk, OnOk, OnErr, MatchOption, None, Some, true, false, vec_len, vec_capacity};
ghost use Rattle.svsm_steps.specs.declared.step.Step.TheVariants.{PoolPush, PoolPop};
ghost use Rattle.svsm_steps.specs.Pool.{last_block, pool_answer, pool_after};
ghost use Rattle.deposit_pool.specs.Sizes.{count_of};
ghost use Rattle.deposit_pool.specs.Pairs.{pair_of};
ghost use Rattle.deposit_pool.specs.Popped.{popped_answer, TakesPage};

use crate::order::Order;
use std::alloc::Global;
use std::marker::Model;
use svsm_types::{NoMemory, Page, Size};

/// The blocks that lie in the pool, in the order of pushing.
///
/// It has a spare place where `reserve` made room for one more block and no push came since. A push and a pop take no memory
/// and do not search the pool.
#[derive(Drop)]
pub struct Pool {
    /// The 4K blocks.
    small: Vec<Page>,
    /// The 2M blocks, by their first pages.
    large: Vec<Page>,
    order: Order,
    spare: bool,
}

impl Model for Pool {
    ghost use Rattle.std.specs.Prelude.{◌≡◌, true, length};
    ghost use Rattle.svsm_types.specs.declared.platform.Size.TheVariants.{Small, Large};
    ghost use Rattle.deposit_pool.specs.Sizes.{count_of};
    ghost use Rattle.deposit_pool.specs.PoolValue.{PoolValue, blocks_in, HasSpare};

    ghost Value = { PoolValue };

    ghost view = { λ p. record { blocks = blocks_in p.order.sizes p.small.items p.large.items; spare = p.spare } };

    ghost invariant = { λ p. (count_of Small p.order.sizes ≡ length p.small.items)
        × (count_of Large p.order.sizes ≡ length p.large.items)
        × (p.spare ≡ true → HasSpare p.small p.large p.order) };
}

// The page that was pushed last goes, and so does the last of its size.
fn take_last(pages: &mut Vec<Page>, order: &mut Order, size: Size) -> Option<Page>
    requires count { count_of size order.old.sizes ≡ length pages.old.items }
    requires few { (other : Size) → count_of other order.old.sizes < 2 ^ 64 }
    ensures page { TakesPage size pages.old.items pages.new.items order.old.sizes order.new.sizes result }
    ensures len { vec_len pages.new ≤ vec_len pages.old }
    ensures capacity { vec_capacity pages.new ≡ vec_capacity pages.old }
    ensures room { order.old.room ≤ order.new.room }
{
    let page = pages.pop()?;
    order.remove_last(size);
    Some(page)
}

impl Pool {
    /// An empty pool. It takes no memory yet.
    pub fn new(alloc: Global) -> Pool
        ensures { result ≡ record { blocks = []; spare = false } }
    {
        Pool {
            small: Vec::new(alloc),
            large: Vec::new(alloc),
            order: Order::new(alloc),
            spare: false,
        }
    }

    /// Makes room for one more block, of either size.
    pub fn reserve(&mut self) -> Result<(), NoMemory>
        ensures ok { OnOk result (self.new ≡ record self.old { spare = true }) }
        ensures err { OnErr result (self.new ≡ self.old) }
    {
        self.small.reserve(1)?;
        self.large.reserve(1)?;
        self.order.reserve(1)?;
        self.spare = true;
        Ok(())
    }

    /// Adds a block, and answers how many are held after it. The spare place is gone.
    pub fn push(&mut self, page: Page, size: Size) -> u64
        requires { self.old.spare ≡ true }
        ensures held { result ≡ length self.old.blocks + 1 }
        ensures after { self.new ≡ record { blocks = pool_after false self.old.blocks (PoolPush page size); spare = false } }
    {
        self.order.push(size);
        match size {
            Size::Small => self.small.push_reserved(page),
            Size::Large => self.large.push_reserved(page),
        }
        self.spare = false;
        self.left()
    }

    /// Takes the block of a size that was pushed last. None where there is none of this size.
    pub fn pop(&mut self, size: Size) -> Option<Page>
        ensures page { MatchOption result (last_block size self.old.blocks ≡ None)
            (λ page. last_block size self.old.blocks ≡ Some (record { page = page; size = size })) }
        ensures answer { popped_answer result (length self.new.blocks) ≡ pool_answer false self.old.blocks (PoolPop size) }
        ensures after { self.new ≡ record self.old { blocks = pool_after false self.old.blocks (PoolPop size) } }
    {
        match size {
            Size::Small => take_last(&mut self.small, &mut self.order, Size::Small),
            Size::Large => take_last(&mut self.large, &mut self.order, Size::Large),
        }
    }

    /// How many blocks are held.
    pub fn left(&self) -> u64
        ensures { result ≡ length self.now.blocks }
    {
        self.small.len() as u64 + self.large.len() as u64
    }
    /// The blocks, from the first that was pushed.
    pub fn blocks(&self, alloc: Global) -> Result<Vec<(Page, Size)>, NoMemory>
        ensures { IfOk result (λ blocks. blocks.items ≡ map pair_of self.now.blocks) }
    {
        self.order.lay_out(alloc, &self.small, &self.large)
    }
}
