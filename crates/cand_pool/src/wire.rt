//! A list above a wire, with a load beside it.

ghost use Rattle.std.specs.Prelude.{◌≡◌, ◌≢◌, ℕ, suc, ◌+◌, ◌*◌, ◌^◌, ◌<◌, ◌≤◌, [], ◌∷◌, length, map, ℤ, pos, negsuc, ◌-ℤ◌, ◌≤ℤ◌};
ghost use Rattle.cand_pool.specs.Candidates.{Candidates, IsModest, AreModest, wired_to};
ghost use Rattle.cand_pool.specs.Pools.{Block, candidate, items, spare, Holds, HoldsBag, IsLive, items_of, KeepsOthers, Differ, name, bag_name};
ghost use Rattle.cand_pool.specs.Sieves.{Sifts, IsWiring};
ghost use Rattle.cand_pool.specs.declared.ends.Ends.{Ends};
ghost use Rattle.cand_pool.specs.Sequences.{undominated, dominated};

use crate::ends::{Bag, EMPTY, List, NONE};
use crate::pool::Pool;
use crate::sieve::Sieve;
use crate::steps::Steps;
use std::sync::ledger::Ledger;

/// What a wire of this resistance costs at this load.
fn charge(r: u64, c: u64) -> i128
    requires { c ≤ 10 ^ 11 }
    ensures value { result ≡ pos (r * c) }
    ensures small { r * c ≤ 2 ^ 64 * 10 ^ 11 }
{
    i128::from(r) * i128::from(c)
}

/// The q of a candidate above a wire.
fn charged(q: i128, r: u64, c: u64) -> i128
    requires low { negsuc (10 ^ 25) ≤ℤ q }
    requires high { q ≤ℤ pos (10 ^ 25) }
    requires load { c ≤ 10 ^ 11 }
    ensures { result ≡ q -ℤ pos (r * c) }
{
    q - charge(r, c)
}

impl Pool {
    /// The q and the c of a slot above a wire, with a load beside it.
    fn after_wire(&self, slot: u32, r: u64, c: u64) -> (i128, u64)
        requires there { slot < length self.now.links }
        requires modest { IsModest (candidate self.now slot) }
        requires load { c ≤ 10 ^ 11 }
        ensures q { let x = candidate self.now slot in result.0 ≡ (wired_to r c x).q }
        ensures c { let x = candidate self.now slot in result.1 ≡ (wired_to r c x).c }
    {
        let x = self.candidate(slot);
        (charged(x.q, r, x.c), x.c + c)
    }

    /// One turn of a wire with a load at its upper end, at the first of the rest.
    fn wire_turn<L: Ledger>(&mut self, at: &mut Sieve, r: u64, c: u64, steps: &mut Steps<L>)
        requires three { Sifts self.old at.old (items self.old at.old.rest.first) (items self.old at.old.kept.first)
            (items self.old at.old.dropped.first) }
        requires some { at.old.rest.first ≢ NONE }
        requires modest { IsModest (candidate self.old at.old.rest.first) }
        requires load { c ≤ 10 ^ 11 }
        ensures wiring { (s : Block) (list : Ends) (all : Candidates) → IsWiring r c s list all self.old at.old
            → IsWiring r c s list all self.new at.new }
        ensures fewer { suc (length (items self.new at.new.rest.first)) ≡ length (items self.old at.old.rest.first) }
        ensures step { steps.new ≡ suc steps.old }
    {
        steps.tick();
        let (q, load) = self.after_wire(at.rest.first, r, c);
        self.turn(at, q, load);
    }

    /// Charges a wire to each candidate of a list, adds a load beside the upper end of the wire, and moves those that
    /// are then dominated to a bag.
    pub fn wire<L: Ledger>(&mut self, list: &mut List, r: u64, c: u64, steps: &mut Steps<L>) -> Bag
        requires live { IsLive self.old list.old }
        requires modest { AreModest (items_of self.old list.old) }
        requires load { c ≤ 10 ^ 11 }
        ensures list { (xs : Candidates) → Holds self.old list.old xs
            → Holds self.new list.new (undominated (map (wired_to r c) xs)) }
        ensures bag { (xs : Candidates) → Holds self.old list.old xs
            → HoldsBag self.new result (dominated (map (wired_to r c) xs)) }
        ensures differ { Differ (name list.new) (bag_name result) }
        ensures others { KeepsOthers self.old (name list.old ∷ []) self.new (name list.new ∷ bag_name result ∷ []) }
        ensures spare { spare self.new ≡ spare self.old }
        ensures steps { (xs : Candidates) → Holds self.old list.old xs → steps.new ≡ steps.old + length xs }
    {
        let mut at = Sieve {
            rest: list.ends,
            kept: EMPTY,
            dropped: EMPTY,
            best: i128::MIN,
        };
        'turns: while at.rest.first != NONE {
            self.wire_turn(&mut at, r, c, steps);
        }
        list.ends = at.kept;
        Bag { ends: at.dropped }
    }
}
