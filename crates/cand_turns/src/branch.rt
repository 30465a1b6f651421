//! The lists of a branch of a net.

ghost use Rattle.std.specs.Prelude.{◌≡◌, ◌+◌, ◌*◌, ◌^◌, ◌<◌, ◌≤◌, Bool, true, [], map, ◌++◌, length, IfOk, MatchResult};
ghost use Rattle.elmore.specs.Problems.{is_live};
ghost use Rattle.elmore.specs.Trees.{parent_of};
ghost use Rattle.sol_arena.specs.Arenas.{made_of};
ghost use Rattle.cand_pool.specs.Candidates.{AreModest, loaded};
ghost use Rattle.cand_pool.specs.Pools.{spare};
ghost use Rattle.cand_uses.specs.Pairs.{pairs_of};
ghost use Rattle.cand_turns.specs.Swaps.{Slots, AreHeld, IsSwap, IsTurn, search, at_slots};
ghost use Rattle.cand_turns.specs.Branches.{classes_in, lists_of};
ghost use Rattle.cand_turns.specs.Solved.{CanWiden, sink_classes, IsOpenAt, IsClosedAt, IsCarriedAt};

use crate::carry::carry;
use cand_pool::{List, Pool, Steps};
use cand_uses::end_list;
use elmore::{Problem, Sink};
use sol_arena::Arena;
use std::sync::ledger::Ledger;
use vg_convex::Made;
use vg_merge::merge;
use vg_num::Memory;
use wire_widths::Width;

/// The candidates of a branch at its node: a list for a signal that is not inverted there, and one for a signal that is
/// (Lillis, Cheng and Lin 1996).
#[derive(Drop)]
pub struct Branch {
    pub even: List,
    pub odd: List,
}

impl Branch {
    /// The branch of a sink alone, at a node of this capacitance (aF): one candidate, for the signal that the sink
    /// wants.
    pub(crate) fn of_sink(pool: &mut Pool, arena: &Arena, sink: Sink, c: u64) -> Branch
        requires room { 0 < spare pool.old }
        ensures classes { (odd : Bool) → classes_in pool.new result odd ≡ sink_classes sink c odd }
        ensures turn { (slots : Slots)
            → IsTurn (at_slots pool.old slots) [] (at_slots pool.new slots) (lists_of result) }
    {
        let list = pool.one(sink.required, c, arena.empty().0);
        let none = pool.none();
        if sink.inverted {
            Branch {
                even: none,
                odd: list,
            }
        } else {
            Branch {
                even: list,
                odd: none,
            }
        }
    }

    /// Gives up both lists, with the uses of their solutions.
    pub fn give_up(self, pool: &mut Pool, arena: &mut Arena)
        requires held { AreHeld (search pool.old arena.old) (lists_of self) }
        ensures swap { IsSwap (search pool.old arena.old) (lists_of self) (search pool.new arena.new) [] }
    {
        let Branch { even, odd } = self;
        end_list(pool, arena, even);
        end_list(pool, arena, odd);
    }

    /// Charges the wire of the branch's node, under each width that it may have, to both lists, adds a load (aF) beside
    /// its upper end, and gives up what is then dominated. Answers `Memory` where there is no room; the branch is given
    /// up then.
    pub fn carry<L: Ledger>(
        self,
        pool: &mut Pool,
        arena: &mut Arena,
        p: &Problem,
        widths: &[Width],
        node: usize,
        c: u64,
        chosen: &mut Vec<Made>,
        steps: &mut Steps<L>,
    ) -> Result<Branch, Memory>
        requires node { node < length p.now.tree.nodes }
        requires below_root { 0 < node }
        requires live { is_live p.now.tree.nodes p.now.sinks node ≡ true }
        requires widths { CanWiden p.now widths.now }
        requires load { c ≤ 10 ^ 11 }
        requires held { AreHeld (search pool.old arena.old) (lists_of self) }
        requires closed { IsClosedAt p.now widths.now node (made_of arena.old) (classes_in pool.old self) }
        ensures turn { MatchResult result
            (λ branch. IsTurn (search pool.old arena.old) (lists_of self) (search pool.new arena.new) (lists_of branch))
            (λ _. IsSwap (search pool.old arena.old) (lists_of self) (search pool.new arena.new) []) }
        ensures carried { IfOk result (λ branch.
            IsCarriedAt p.now widths.now node c (made_of arena.new) (classes_in pool.new branch)) }
        ensures few { IfOk result (λ branch. (odd : Bool)
            → length (classes_in pool.new branch odd) ≤ length widths.now * length (classes_in pool.old self odd)) }
    {
        let Branch { even, odd } = self;
        let even = match carry(pool, arena, p, widths, node, c, even, chosen, steps) {
            Ok(even) => even,
            Err(memory) => {
                end_list(pool, arena, odd);
                return Err(memory);
            }
        };
        match carry(pool, arena, p, widths, node, c, odd, chosen, steps) {
            Ok(odd) => Ok(Branch { even, odd }),
            Err(memory) => {
                end_list(pool, arena, even);
                Err(memory)
            }
        }
    }

    /// Adds a load (aF) beside the branch to each candidate of both lists.
    pub fn load<L: Ledger>(&mut self, pool: &mut Pool, c: u64, steps: &mut Steps<L>)
        requires held { (slots : Slots) × AreHeld (at_slots pool.old slots) (lists_of self.old) }
        requires modest { (odd : Bool) → AreModest (map (loaded c) (classes_in pool.old self.old odd)) }
        ensures classes { (odd : Bool)
            → classes_in pool.new self.new odd ≡ map (loaded c) (classes_in pool.old self.old odd) }
        ensures turn { (slots : Slots) → AreHeld (at_slots pool.old slots) (lists_of self.old)
            → IsTurn (at_slots pool.old slots) (lists_of self.old) (at_slots pool.new slots) (lists_of self.new) }
    {
        pool.load(&mut self.even, c, steps);
        pool.load(&mut self.odd, c, steps);
    }

    /// The candidates of this branch and of the one below `node`, a child of this branch's node, together, where those
    /// of the other are above the wire of `node`. Answers `Memory` where there is no room; both branches are given up
    /// then.
    pub fn meet<L: Ledger>(
        self,
        pool: &mut Pool,
        arena: &mut Arena,
        p: &Problem,
        widths: &[Width],
        node: usize,
        lower: Branch,
        steps: &mut Steps<L>,
    ) -> Result<Branch, Memory>
        requires below_root { 0 < node }
        requires node { node < length p.now.tree.nodes }
        requires live { is_live p.now.tree.nodes p.now.sinks node ≡ true }
        requires held { AreHeld (search pool.old arena.old) (lists_of self ++ lists_of lower) }
        requires widths { CanWiden p.now widths.now }
        requires upper { IsOpenAt p.now widths.now (node + 1) (parent_of p.now.tree.nodes node) (made_of arena.old)
            (classes_in pool.old self) }
        requires lower { IsCarriedAt p.now widths.now node 0 (made_of arena.old) (classes_in pool.old lower) }
        ensures turn { MatchResult result
            (λ branch.
            IsTurn (search pool.old arena.old) (lists_of self ++ lists_of lower)
            (search pool.new arena.new) (lists_of branch))
            (λ _. IsSwap (search pool.old arena.old) (lists_of self ++ lists_of lower) (search pool.new arena.new) []) }
        ensures open { IfOk result (λ branch.
            IsOpenAt p.now widths.now node (parent_of p.now.tree.nodes node) (made_of arena.new)
            (classes_in pool.new branch)) }
        ensures few { IfOk result (λ branch. (odd : Bool)
            → length (classes_in pool.new branch odd)
            ≤ length (classes_in pool.old self odd) + length (classes_in pool.old lower odd)) }
    {
        let _ = p;
        let _ = widths;
        let Branch { even, odd } = self;
        let lower_odd = lower.odd;
        let even = match merge(pool, arena, even, lower.even, steps) {
            Ok(even) => even,
            Err(memory) => {
                end_list(pool, arena, odd);
                end_list(pool, arena, lower_odd);
                return Err(memory);
            }
        };
        match merge(pool, arena, odd, lower_odd, steps) {
            Ok(odd) => Ok(Branch { even, odd }),
            Err(memory) => {
                end_list(pool, arena, even);
                Err(memory)
            }
        }
    }
}
