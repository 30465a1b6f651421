//! Lists and bags: made, filled, put together and given up.

ghost use Rattle.std.specs.Prelude.{◌≡◌, ℕ, suc, ◌<◌, [], ◌∷◌, ◌++◌, length, IsNone, MatchOption};
ghost use Rattle.cand_pool.specs.Candidates.{Candidate, Candidates};
ghost use Rattle.cand_pool.specs.Pools.{spare, Holds, HoldsBag, IsLive, IsLiveBag, KeepsOthers, Differ, name, bag_name};

use crate::ends::{Bag, EMPTY, Ends, List, NONE};
use crate::pool::Pool;

impl Pool {
    /// A list of one candidate.
    pub fn one(&mut self, q: i128, c: u64, tag: u64) -> List
        requires { 0 < spare self.old }
        ensures list { Holds self.new result (record { q = q; c = c; tag = tag } ∷ []) }
        ensures others { KeepsOthers self.old [] self.new (name result ∷ []) }
        ensures spare { spare self.old ≡ suc (spare self.new) }
    {
        let slot = self.draw();
        self.write(slot, q, c, tag);
        List {
            ends: Ends {
                first: slot,
                last: slot,
            },
        }
    }

    /// The empty list.
    pub fn none(&mut self) -> List
        ensures list { Holds self.new result [] }
        ensures same { self.new ≡ self.old }
    {
        let _ = &self.links;
        List { ends: EMPTY }
    }

    /// Puts a candidate at the end of a list.
    pub fn push(&mut self, list: &mut List, q: i128, c: u64, tag: u64)
        requires live { IsLive self.old list.old }
        requires room { 0 < spare self.old }
        ensures list { (xs : Candidates) → Holds self.old list.old xs
            → Holds self.new list.new (xs ++ record { q = q; c = c; tag = tag } ∷ []) }
        ensures others { KeepsOthers self.old (name list.old ∷ []) self.new (name list.new ∷ []) }
        ensures spare { spare self.old ≡ suc (spare self.new) }
    {
        let List { ends } = self.one(q, c, tag);
        list.ends = self.put_after(list.ends, ends);
    }

    /// The bag of a list that is given up.
    pub fn discard(&mut self, list: List) -> Bag
        ensures bag { bag_name result ≡ name list }
        ensures held { (xs : Candidates) → Holds self.old list xs → HoldsBag self.new result xs }
        ensures same { self.new ≡ self.old }
    {
        let List { ends } = list;
        Bag { ends }
    }

    /// Puts a bag after the end of another one.
    pub fn append(&mut self, bag: &mut Bag, other: Bag)
        requires live { IsLiveBag self.old bag.old }
        requires other { IsLiveBag self.old other }
        requires differ { Differ (bag_name bag.old) (bag_name other) }
        ensures bag { (xs ys : Candidates) → HoldsBag self.old bag.old xs → HoldsBag self.old other ys
            → HoldsBag self.new bag.new (xs ++ ys) }
        ensures others { KeepsOthers self.old (bag_name bag.old ∷ bag_name other ∷ []) self.new
            (bag_name bag.new ∷ []) }
        ensures spare { spare self.new ≡ spare self.old }
    {
        let Bag { ends } = other;
        bag.ends = self.put_after(bag.ends, ends);
    }

    /// How many candidates a list has.
    pub fn len(&self, list: &List) -> usize
        requires { IsLive self.now list.now }
        ensures { (xs : Candidates) → Holds self.now list.now xs → result ≡ length xs }
    {
        let mut count = 0;
        let mut slot = list.ends.first;
        'links: while slot != NONE {
            slot = self.links[slot as usize];
            count += 1;
        }
        count
    }

    /// Ends an empty bag.
    pub fn close(&mut self, bag: Bag)
        requires { HoldsBag self.old bag [] }
        ensures { self.new ≡ self.old }
    {
        let Bag { ends: _ } = bag;
    }

    /// Takes the first tag out of a bag. `None`: it is empty.
    pub fn take(&mut self, bag: &mut Bag) -> Option<u64>
        requires { IsLiveBag self.old bag.old }
        ensures empty { HoldsBag self.old bag.old [] → IsNone result }
        ensures none { IsNone result → HoldsBag self.old bag.old [] × (self.new ≡ self.old) × (bag.new ≡ bag.old) }
        ensures some { (tag : ℕ) → result ≡ Some tag → (x : Candidate) (xs : Candidates)
            → HoldsBag self.old bag.old (x ∷ xs)
            → (tag ≡ x.tag) × HoldsBag self.new bag.new xs }
        ensures others { KeepsOthers self.old (bag_name bag.old ∷ []) self.new (bag_name bag.new ∷ []) }
        ensures spare { MatchOption result (spare self.new ≡ spare self.old) (λ _.
            spare self.new ≡ suc (spare self.old)) }
    {
        if bag.ends.first == NONE {
            return None;
        }
        let (tag, rest) = self.free_first(bag.ends);
        bag.ends = rest;
        Some(tag)
    }
}
