//! The part of a node, to which its children come in.

ghost use Rattle.std.specs.Prelude.{◌≡◌, ◌+◌, ◌<◌, ◌≤◌, ◌^◌, Bool, true, false, [], ◌++◌, length, IfOk, MatchResult};
ghost use Rattle.elmore.specs.Problems.{is_live, is_sink, sink_of};
ghost use Rattle.elmore.specs.Trees.{parent_of, capacitance};
ghost use Rattle.elmore.specs.Wire.{downstream_in};
ghost use Rattle.sol_arena.specs.Arenas.{made_of};
ghost use Rattle.sol_arena.specs.Uses.{one_if};
ghost use Rattle.cand_pool.specs.Pools.{spare};
ghost use Rattle.cand_turns.specs.Swaps.{Slots, AreHeld, IsSwap, IsTurn, search, at_slots};
ghost use Rattle.cand_turns.specs.Branches.{classes_in, lists_of};
ghost use Rattle.cand_turns.specs.Solved.{CanWiden, IsCarriedAt, IsClosedAt};
ghost use Rattle.cand_turns.specs.Parts.{lists_in, size_in, load_beside, HasNoMore, IsPart, Solutions};
ghost use Rattle.cand_turns.specs.Tooled.{AreToolsOf};

use crate::branch::Branch;
use crate::tools::Tools;
use cand_pool::{Pool, Steps};
use elmore::{Problem, Sink};
use sol_arena::Arena;
use std::sync::ledger::Ledger;
use vg_num::Memory;
use wire_widths::Width;

/// What is known of a node while the nodes below come in, from the last to the first (van Ginneken 1990).
#[derive(Drop)]
pub enum Part {
    /// No sink is at the node nor below a child that came in: the capacitance (aF) of the node and of all that came in.
    Dead(u64),
    /// The candidates of the node with all that came in.
    Live(Branch),
}

/// The capacitance (aF) at a node, which is within the limits of a problem.
fn capacitance_of(p: &Problem, node: usize) -> u64
    requires { node < length p.now.tree.nodes }
    ensures { result ≡ capacitance p.now.tree.nodes node }
{
    p.tree.nodes.as_slice()[node].c as u64
}

/// The sink at a node, if there is one.
fn sink_at(p: &Problem, node: usize) -> Option<Sink>
    requires { node < length p.now.tree.nodes }
    ensures { result ≡ sink_of p.now.sinks node }
{
    p.sinks.as_slice()[node]
}

impl Part {
    /// The part of a node to which no child came in yet: the candidate of its sink, without a cell, or its capacitance.
    pub fn start(pool: &mut Pool, arena: &Arena, p: &Problem, widths: &[Width], node: usize) -> Part
        requires node { node < length p.now.tree.nodes }
        requires widths { CanWiden p.now widths.now }
        requires room { 0 < spare pool.old }
        ensures part { IsPart p.now widths.now (length p.now.tree.nodes) node (made_of arena.now) pool.new result }
        ensures turn { (slots : Slots)
            → IsTurn (at_slots pool.old slots) [] (at_slots pool.new slots) (lists_in result) }
        ensures few { (odd : Bool) → size_in pool.new result odd ≤ one_if (is_sink p.now.sinks node) }
    {
        let _ = widths;
        let c = capacitance_of(p, node);
        match sink_at(p, node) {
            None => Part::Dead(c),
            Some(sink) => {
                let branch = Branch::of_sink(pool, arena, sink, c);
                Part::Live(branch)
            }
        }
    }

    /// The load (aF) beside a branch that comes in: all that came in before, where no sink is there.
    fn load_beside(&self) -> u64
        ensures { result ≡ load_beside self.now }
    {
        match self {
            Part::Dead(c) => *c,
            Part::Live(_) => 0,
        }
    }

    /// Gives up the lists of a part, with the uses of their solutions.
    pub fn give_up(self, pool: &mut Pool, arena: &mut Arena)
        requires held { AreHeld (search pool.old arena.old) (lists_in self) }
        ensures swap { IsSwap (search pool.old arena.old) (lists_in self) (search pool.new arena.new) [] }
    {
        match self {
            Part::Dead(_) => {}
            Part::Live(branch) => branch.give_up(pool, arena),
        }
    }

    /// The part with the candidates of a live node more, which stand above its wire, with what this part loads beside
    /// its upper end. Answers `Memory` where there is no room; the part and the branch are given up then.
    fn meet<L: Ledger>(
        self,
        pool: &mut Pool,
        arena: &mut Arena,
        p: &Problem,
        widths: &[Width],
        node: usize,
        branch: Branch,
        steps: &mut Steps<L>,
    ) -> Result<Part, Memory>
        requires below_root { 0 < node }
        requires node { node < length p.now.tree.nodes }
        requires live { is_live p.now.tree.nodes p.now.sinks node ≡ true }
        requires widths { CanWiden p.now widths.now }
        requires held { AreHeld (search pool.old arena.old) (lists_in self ++ lists_of branch) }
        requires part { IsPart p.now widths.now (node + 1) (parent_of p.now.tree.nodes node) (made_of arena.old)
            pool.old self }
        requires carried { IsCarriedAt p.now widths.now node (load_beside self) (made_of arena.old)
            (classes_in pool.old branch) }
        ensures turn { MatchResult result
            (λ part. IsTurn (search pool.old arena.old) (lists_in self ++ lists_of branch)
            (search pool.new arena.new) (lists_in part))
            (λ _.
            IsSwap (search pool.old arena.old) (lists_in self ++ lists_of branch) (search pool.new arena.new) []) }
        ensures part { IfOk result (λ part.
            IsPart p.now widths.now node (parent_of p.now.tree.nodes node) (made_of arena.new) pool.new part) }
        ensures few { IfOk result (λ part. HasNoMore 1 pool.old self branch pool.new part) }
    {
        match self {
            Part::Dead(_) => Ok(Part::Live(branch)),
            Part::Live(above) => {
                let both = above.meet(pool, arena, p, widths, node, branch, steps)?;
                Ok(Part::Live(both))
            }
        }
    }

    /// A live node comes in to its parent, whose part this is: with the candidates that it has, above its wire. Answers
    /// `Memory` where there is no room; the part and the branch are given up then.
    pub fn take_live<L: Ledger>(
        self,
        pool: &mut Pool,
        arena: &mut Arena,
        p: &Problem,
        widths: &[Width],
        node: usize,
        branch: Branch,
        tools: &mut Tools,
        steps: &mut Steps<L>,
    ) -> Result<Part, Memory>
        requires below_root { 0 < node }
        requires node { node < length p.now.tree.nodes }
        requires live { is_live p.now.tree.nodes p.now.sinks node ≡ true }
        requires widths { CanWiden p.now widths.now }
        requires tools { AreToolsOf p.now tools.old }
        requires held { AreHeld (search pool.old arena.old) (lists_in self ++ lists_of branch) }
        requires part { IsPart p.now widths.now (node + 1) (parent_of p.now.tree.nodes node) (made_of arena.old)
            pool.old self }
        requires closed { IsClosedAt p.now widths.now node (made_of arena.old) (classes_in pool.old branch) }
        ensures tools { AreToolsOf p.now tools.new }
        ensures turn { MatchResult result
            (λ part. IsTurn (search pool.old arena.old) (lists_in self ++ lists_of branch)
            (search pool.new arena.new) (lists_in part))
            (λ _.
            IsSwap (search pool.old arena.old) (lists_in self ++ lists_of branch) (search pool.new arena.new) []) }
        ensures part { IfOk result (λ part.
            IsPart p.now widths.now node (parent_of p.now.tree.nodes node) (made_of arena.new) pool.new part) }
        ensures few { IfOk result (λ part. HasNoMore (length widths.now) pool.old self branch pool.new part) }
    {
        let load = self.load_beside();
        match branch.carry(pool, arena, p, widths, node, load, &mut tools.chosen, steps) {
            Ok(carried) => {
                let part = self.meet(pool, arena, p, widths, node, carried, steps)?;
                Ok(part)
            }
            Err(memory) => {
                self.give_up(pool, arena);
                Err(memory)
            }
        }
    }

    /// A node without a sink at it or below comes in to its parent, whose part this is: with the capacitance (aF) of
    /// all below.
    pub fn take_dead<L: Ledger>(
        self,
        pool: &mut Pool,
        p: &Problem,
        widths: &[Width],
        node: usize,
        c: u64,
        steps: &mut Steps<L>,
    ) -> Part
        requires below_root { 0 < node }
        requires node { node < length p.now.tree.nodes }
        requires dead { is_live p.now.tree.nodes p.now.sinks node ≡ false }
        requires load { c ≡ downstream_in p.now.tree.nodes node }
        requires held { (slots : Slots) × AreHeld (at_slots pool.old slots) (lists_in self) }
        requires widths { CanWiden p.now widths.now }
        requires part { (ms : Solutions)
            × IsPart p.now widths.now (node + 1) (parent_of p.now.tree.nodes node) ms pool.old self }
        ensures turn { (slots : Slots) → AreHeld (at_slots pool.old slots) (lists_in self)
            → IsTurn (at_slots pool.old slots) (lists_in self) (at_slots pool.new slots) (lists_in result) }
        ensures part { (ms : Solutions)
            → IsPart p.now widths.now (node + 1) (parent_of p.now.tree.nodes node) ms pool.old self
            → IsPart p.now widths.now node (parent_of p.now.tree.nodes node) ms pool.new result }
        ensures same { (odd : Bool) → size_in pool.new result odd ≡ size_in pool.old self odd }
    {
        let _ = widths;
        match self {
            Part::Dead(own) => Part::Dead(own + c),
            Part::Live(branch) => {
                let mut branch = branch;
                branch.load(pool, c, steps);
                Part::Live(branch)
            }
        }
    }
}
