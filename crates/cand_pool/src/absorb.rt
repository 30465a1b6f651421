//! Two lists as one.

ghost use Rattle.std.specs.Prelude.{◌≡◌, ◌≢◌, ℕ, suc, ◌+◌, ◌*◌, ◌≤◌, ◌<◌, ◌⊎◌, [], ◌∷◌, length};
ghost use Rattle.cand_pool.specs.Candidates.{Candidates};
ghost use Rattle.cand_pool.specs.Pools.{Block, candidate, items, spare, Holds, HoldsBag, IsLive, items_of, KeepsOthers, Differ, name, bag_name};
ghost use Rattle.cand_pool.specs.Laws.{RisesOver, RisesInTime};
ghost use Rattle.cand_pool.specs.Sieves.{Sifts, IsSiftedTo};
ghost use Rattle.cand_pool.specs.Sequences.{undominated, dominated, union, comes_first};
ghost use Rattle.cand_pool.specs.Unions.{AreLeft, IsUniting, IsEnding};

use crate::ends::{Bag, EMPTY, Ends, List, NONE};
use crate::pool::Pool;
use crate::sieve::Sieve;
use crate::steps::Steps;
use std::sync::ledger::Ledger;

/// A sieve of the first list, and what is left of the second one.
#[derive(Clone, Copy)]
struct Union {
    sieve: Sieve,
    other: Ends,
}

impl Union {
    /// A sieve of what is left when one of both lists is used up.
    fn left(self) -> Sieve
        requires { (self.sieve.rest.first ≡ NONE) ⊎ (self.other.first ≡ NONE) }
        ensures ending { (s : Block) (one two : ℕ) (all : Candidates) (t : Block) → IsUniting s one two all t self
            → IsEnding s one two all t result }
        ensures rest { (result.rest ≡ self.sieve.rest) ⊎ (result.rest ≡ self.other) }
    {
        if self.other.first == NONE {
            return self.sieve;
        }
        Sieve {
            rest: self.other,
            ..self.sieve
        }
    }
}

impl Pool {
    /// Whether candidate y comes before candidate x in a union where x is of the first list.
    fn comes_first(&self, y: u32, x: u32) -> bool
        requires y { y < length self.now.links }
        requires x { x < length self.now.links }
        ensures { result ≡ comes_first (candidate self.now y) (candidate self.now x) }
    {
        let (x, y) = (self.candidate(x), self.candidate(y));
        y.c < x.c || y.c == x.c && x.q < y.q
    }

    /// One turn of a union, at the first of both lists together, of which none is used up.
    fn union_turn<L: Ledger>(&mut self, at: &mut Union, steps: &mut Steps<L>)
        requires left { AreLeft self.old at.old (items self.old at.old.sieve.rest.first)
            (items self.old at.old.other.first) }
        requires one { at.old.sieve.rest.first ≢ NONE }
        requires two { at.old.other.first ≢ NONE }
        ensures uniting { (s : Block) (one two : ℕ) (all : Candidates) → IsUniting s one two all self.old at.old
            → IsUniting s one two all self.new at.new }
        ensures fewer { length (items self.new at.new.sieve.rest.first) + length (items self.new at.new.other.first) + 1
            ≡ length (items self.old at.old.sieve.rest.first) + length (items self.old at.old.other.first) }
        ensures steps { steps.new ≤ steps.old + 2 }
    {
        steps.tick();
        let rest = at.sieve.rest;
        if self.comes_first(at.other.first, rest.first) {
            let x = self.look(at.other.first, steps);
            at.sieve.rest = at.other;
            self.pass(&mut at.sieve, x.q);
            at.other = at.sieve.rest;
            at.sieve.rest = rest;
        } else {
            let x = self.look(rest.first, steps);
            self.pass(&mut at.sieve, x.q);
        }
    }

    /// Drops the first candidates of the rest, up to one whose q is over the best.
    fn drop_dominated<L: Ledger>(&mut self, at: &mut Sieve, steps: &mut Steps<L>)
        requires three { Sifts self.old at.old (items self.old at.old.rest.first) (items self.old at.old.kept.first)
            (items self.old at.old.dropped.first) }
        requires rises { RisesInTime (items self.old at.old.rest.first) }
        ensures sifted { IsSiftedTo self.old self.new at.old at.new (items self.new at.new.rest.first) }
        ensures over { RisesOver at.new.best (items self.new at.new.rest.first) }
        ensures steps { steps.new ≤ steps.old + length (items self.old at.old.rest.first) }
    {
        'drops: while at.rest.first != NONE {
            let x = self.look(at.rest.first, steps);
            if x.q > at.best {
                break;
            }
            self.pass(at, x.q);
        }
    }

    /// Takes all candidates of another list into a list, and moves those that are then dominated to a bag. The time of
    /// both lists rises, so where one of them is used up and a candidate of the other is kept, so are all after it, and
    /// stay linked.
    pub fn absorb<L: Ledger>(&mut self, list: &mut List, other: List, steps: &mut Steps<L>) -> Bag
        requires live { IsLive self.old list.old }
        requires other { IsLive self.old other }
        requires rises_list { RisesInTime (items_of self.old list.old) }
        requires rises_other { RisesInTime (items_of self.old other) }
        requires differ { Differ (name list.old) (name other) }
        ensures list { (xs ys : Candidates) → Holds self.old list.old xs → Holds self.old other ys
            → Holds self.new list.new (undominated (union xs ys)) }
        ensures bag { (xs ys : Candidates) → Holds self.old list.old xs → Holds self.old other ys
            → HoldsBag self.new result (dominated (union xs ys)) }
        ensures differ { Differ (name list.new) (bag_name result) }
        ensures others { KeepsOthers self.old (name list.old ∷ name other ∷ []) self.new
            (name list.new ∷ bag_name result ∷ []) }
        ensures spare { spare self.new ≡ spare self.old }
        ensures steps { (xs ys : Candidates) → Holds self.old list.old xs → Holds self.old other ys
            → steps.new ≤ steps.old + 2 * (length xs + length ys) }
    {
        let List { ends } = other;
        let mut at = Union {
            sieve: Sieve {
                rest: list.ends,
                kept: EMPTY,
                dropped: EMPTY,
                best: i128::MIN,
            },
            other: ends,
        };
        'turns: while at.sieve.rest.first != NONE && at.other.first != NONE {
            self.union_turn(&mut at, steps);
        }
        let mut sieve = at.left();
        self.drop_dominated(&mut sieve, steps);
        list.ends = self.put_after(sieve.kept, sieve.rest);
        Bag {
            ends: sieve.dropped,
        }
    }
}
