//! A load beside a list.

ghost use Rattle.std.specs.Prelude.{◌≡◌, suc, ◌+◌, ◌^◌, ◌≤◌, ◌<◌, [], ◌∷◌, length, map};
ghost use Rattle.cand_pool.specs.Links.{link};
ghost use Rattle.cand_pool.specs.Candidates.{Candidates, AreModest, loaded};
ghost use Rattle.cand_pool.specs.Pools.{candidate, spare, IsPool, Holds, IsLive, items_of, KeepsOthers, name};
ghost use Rattle.cand_pool.specs.Moves.{loaded_at};

use crate::ends::{List, NONE};
use crate::pool::Pool;
use crate::steps::Steps;
use std::sync::ledger::Ledger;

impl Pool {
    /// The first slot of a list, of a pool that is in order.
    fn first_slot(&self, list: &List) -> u32
        ensures slot { result ≡ name list.now }
        ensures pool { IsPool self.now }
    {
        let _ = &self.links;
        list.ends.first
    }

    /// Adds a load to the candidate of a slot. Answers the slot after it.
    fn load_slot<L: Ledger>(&mut self, slot: u32, c: u64, steps: &mut Steps<L>) -> u32
        requires there { slot < length self.old.links }
        requires room { let x = candidate self.old slot in x.c + c ≤ 10 ^ 11 }
        ensures loaded { self.new ≡ loaded_at c self.old slot }
        ensures after { result ≡ link self.old.links slot }
        ensures step { steps.new ≡ suc steps.old }
    {
        steps.tick();
        self.candidates[slot as usize].c += c;
        self.links[slot as usize]
    }

    /// Adds a load to each candidate of a list.
    pub fn load<L: Ledger>(&mut self, list: &mut List, c: u64, steps: &mut Steps<L>)
        requires live { IsLive self.old list.old }
        requires modest { AreModest (map (loaded c) (items_of self.old list.old)) }
        ensures list { (xs : Candidates) → Holds self.old list.old xs → Holds self.new list.new (map (loaded c) xs) }
        ensures same { list.new ≡ list.old }
        ensures others { KeepsOthers self.old (name list.old ∷ []) self.new (name list.new ∷ []) }
        ensures spare { spare self.new ≡ spare self.old }
        ensures steps { (xs : Candidates) → Holds self.old list.old xs → steps.new ≡ steps.old + length xs }
    {
        let mut slot = self.first_slot(list);
        'slots: while slot != NONE {
            slot = self.load_slot(slot, c, steps);
        }
    }
}
