//! A pool: one block of slots.

ghost use Rattle.std.specs.Prelude.{◌≡◌, suc, ◌≤◌, ◌<◌, [], length, IfOk, MatchResult};
ghost use Rattle.cand_pool.specs.Pools.{seen, candidate, spare, KeepsOthers};

use crate::ends::NONE;
use crate::numbers::{BLANK, Numbers};
use std::alloc::Global;
use std::marker::Model;
use vg_num::Memory;

/// Lists and bags in one block of slots. Contracts see the block.
#[derive(Drop)]
pub struct Pool {
    pub(crate) links: Vec<u32>,
    pub(crate) candidates: Vec<Numbers>,
    pub(crate) free: u32,
    /// So many slots are known to be free, so that they need not be counted.
    pub(crate) sure: usize,
}

impl Model for Pool {
    ghost use Rattle.cand_pool.specs.Pools.{Block, IsSurePool};

    ghost Value = { Block };

    ghost view = { λ p. record { links = p.links.items; candidates = p.candidates.items; free = p.free } };

    ghost invariant = { λ p.
        IsSurePool (record { links = p.links.items; candidates = p.candidates.items; free = p.free }) p.sure };
}

impl Pool {
    /// A pool without slots.
    pub fn new(alloc: Global) -> Pool
        ensures { spare result ≡ 0 }
    {
        Pool {
            links: Vec::new(alloc),
            candidates: Vec::new(alloc),
            free: NONE,
            sure: 0,
        }
    }

    /// The candidate of a slot.
    pub(crate) fn candidate(&self, slot: u32) -> &Numbers
        requires there { slot < length self.now.links }
        ensures { seen result.now ≡ candidate self.now slot }
    {
        &self.candidates[slot as usize]
    }

    /// Adds a free slot.
    fn grow(&mut self) -> Result<(), Memory>
        ensures others { KeepsOthers self.old [] self.new [] }
        ensures spare { MatchResult result (λ _. spare self.new ≡ suc (spare self.old)) (λ _.
            spare self.new ≡ spare self.old) }
    {
        if self.links.len() >= 4_294_967_295 {
            return Err(Memory);
        }
        let slot = self.links.len() as u32;
        self.candidates.push(BLANK)?;
        self.links.push(NONE)?;
        self.give(slot);
        Ok(())
    }

    /// How many slots are free, counted up to `most`.
    fn count_spare(&self, most: usize) -> usize
        ensures low { result ≤ spare self.now }
        ensures most { result ≤ most }
    {
        let mut count = 0;
        let mut slot = self.free;
        'free: while count < most && slot != NONE {
            slot = self.links[slot as usize];
            count += 1;
        }
        count
    }

    /// Counts so many free slots, and adds those that lack.
    fn make_sure(&mut self, n: usize) -> Result<(), Memory>
        ensures others { KeepsOthers self.old [] self.new [] }
        ensures room { IfOk result (λ _. n ≤ spare self.new) }
        ensures more { spare self.old ≤ spare self.new }
    {
        let there = self.count_spare(n);
        'slots: for at in there..n {
            self.grow()?;
        }
        self.sure = n;
        Ok(())
    }

    /// Makes room for `n` candidates, with new slots where there are too few: then for twice as many, so that the next
    /// calls need not count. All lists and bags stay, also when out of memory.
    pub fn reserve(&mut self, n: usize) -> Result<(), Memory>
        ensures others { KeepsOthers self.old [] self.new [] }
        ensures room { IfOk result (λ _. n ≤ spare self.new) }
        ensures more { spare self.old ≤ spare self.new }
    {
        if n <= self.sure {
            return Ok(());
        }
        self.make_sure(n.saturating_mul(2))
    }
}
