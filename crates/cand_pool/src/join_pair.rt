//! The first candidates of two branches, joined.

ghost use Rattle.std.specs.Prelude.{◌≡◌, ◌≢◌, ℕ, ◌+◌, ◌≤◌, ◌<◌, ◌⊎◌, [], ◌∷◌, ◌++◌, length, IsNone};
ghost use Rattle.cand_pool.specs.Candidates.{Candidate, Candidates, IsModest, AreModest, formed};
ghost use Rattle.cand_pool.specs.Pools.{candidate, items, spare, Holds, IsLive, items_of, KeepsOthers, Differ, name};
ghost use Rattle.cand_pool.specs.Sequences.{left_of, taken_of, spare_after};
ghost use Rattle.cand_pool.specs.Branches.{AreBranches, AreJoined};

use crate::ends::{Ends, List, NONE};
use crate::numbers::Numbers;
use crate::pool::Pool;
use crate::steps::Steps;
use std::sync::ledger::Ledger;

/// The tags of the candidates that were taken off two lists.
#[derive(Clone, Copy)]
pub struct Taken {
    pub a: Option<u64>,
    pub b: Option<u64>,
}

/// The list that is made, and what is left of two others.
#[derive(Clone, Copy)]
struct Branches {
    list: Ends,
    a: Ends,
    b: Ends,
}

impl Pool {
    /// Looks at the candidate of a slot.
    pub(crate) fn look<L: Ledger>(&self, slot: u32, steps: &mut Steps<L>) -> Numbers
        requires there { slot < length self.now.links }
        ensures q { let x = candidate self.now slot in result.q ≡ x.q }
        ensures c { let x = candidate self.now slot in result.c ≡ x.c }
        ensures tag { let x = candidate self.now slot in result.tag ≡ x.tag }
        ensures step { steps.new ≡ steps.old + 1 }
    {
        steps.tick();
        *self.candidate(slot)
    }

    /// Joins the first candidates of two lists, which are not empty.
    fn join<L: Ledger>(&mut self, at: Branches, tag: u64, steps: &mut Steps<L>) -> (Branches, Taken)
        requires three { AreBranches self.old at (items self.old at.list.first) (items self.old at.a.first)
            (items self.old at.b.first) }
        requires some_a { at.a.first ≢ NONE }
        requires some_b { at.b.first ≢ NONE }
        requires modest_a { IsModest (candidate self.old at.a.first) }
        requires modest_b { IsModest (candidate self.old at.b.first) }
        ensures joined { (x y : Candidate) (zs xs ys : Candidates) → AreBranches self.old at zs (x ∷ xs) (y ∷ ys)
            → AreJoined self.old self.new at result.0 x y zs xs ys tag }
        ensures a { let x = candidate self.old at.a.first in let y =
            candidate self.old at.b.first in result.1.a ≡ taken_of x y }
        ensures b { let x = candidate self.old at.a.first in let y =
            candidate self.old at.b.first in result.1.b ≡ taken_of y x }
        ensures steps { steps.new ≡ steps.old + 2 }
    {
        let x = self.look(at.a.first, steps);
        let y = self.look(at.b.first, steps);
        let c = x.c + y.c;
        if y.q < x.q {
            let moved = self.move_formed(at.b, at.list, y.q, c, tag);
            let left = Branches {
                list: moved.to,
                b: moved.rest,
                ..at
            };
            let taken = Taken {
                a: None,
                b: Some(y.tag),
            };
            return (left, taken);
        }
        let moved = self.move_formed(at.a, at.list, x.q, c, tag);
        let left = Branches {
            list: moved.to,
            a: moved.rest,
            ..at
        };
        let taken = Taken {
            a: Some(x.tag),
            b: None,
        };
        if x.q < y.q {
            return (left, taken);
        }
        let (_, b) = self.free_first(at.b);
        let taken = Taken {
            b: Some(y.tag),
            ..taken
        };
        (Branches { b, ..left }, taken)
    }

    /// Joins the first candidates of two lists, at the end of a third: the lesser q, and the sum of c. Each of the two
    /// whose q is the lesser is taken off its list, both where they are equal. `None`: one of the two lists is empty.
    pub fn join_pair<L: Ledger>(
        &mut self,
        list: &mut List,
        a: &mut List,
        b: &mut List,
        tag: u64,
        steps: &mut Steps<L>,
    ) -> Option<Taken>
        requires live { IsLive self.old list.old × IsLive self.old a.old × IsLive self.old b.old }
        requires a_list { Differ (name a.old) (name list.old) }
        requires a_b { Differ (name a.old) (name b.old) }
        requires list_b { Differ (name list.old) (name b.old) }
        requires modest_a { AreModest (items_of self.old a.old) }
        requires modest_b { AreModest (items_of self.old b.old) }
        ensures empty { Holds self.old a.old [] ⊎ Holds self.old b.old [] → IsNone result }
        ensures none { IsNone result → (Holds self.old a.old [] ⊎ Holds self.old b.old [])
            × (self.new ≡ self.old) × (list.new ≡ list.old) × (a.new ≡ a.old) × (b.new ≡ b.old) }
        ensures joined { (x y : Candidate) (zs xs ys : Candidates) → Holds self.old list.old zs
            → Holds self.old a.old (x ∷ xs)
            → Holds self.old b.old (y ∷ ys) → Holds self.new list.new (zs ++ formed x y tag ∷ [])
            × Holds self.new a.new (left_of x y xs)
            × Holds self.new b.new (left_of y x ys) × (spare self.new ≡ spare_after x y (spare self.old))
            × (result ≡ Some (record { a = taken_of x y; b = taken_of y x })) }
        ensures differ { Differ (name a.new) (name list.new) × Differ (name a.new) (name b.new)
            × Differ (name list.new) (name b.new) }
        ensures others { KeepsOthers self.old (name list.old ∷ name a.old ∷ name b.old ∷ [])
            self.new (name list.new ∷ name a.new ∷ name b.new ∷ []) }
        ensures steps { steps.new ≤ steps.old + 2 }
    {
        if a.ends.first == NONE || b.ends.first == NONE {
            return None;
        }
        let at = Branches {
            list: list.ends,
            a: a.ends,
            b: b.ends,
        };
        let (left, taken) = self.join(at, tag, steps);
        list.ends = left.list;
        a.ends = left.a;
        b.ends = left.b;
        Some(taken)
    }
}
