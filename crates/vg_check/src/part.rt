//! The part of a node, to which its children come in.

ghost use Rattle.std.specs.Prelude.{◌≡◌, ℕ, ◌+◌, ◌^◌, ◌<◌, ◌≤◌, Bool, true, false, length, IfOk};
ghost use Rattle.elmore.specs.Problems.{is_live, sink_of};
ghost use Rattle.elmore.specs.Trees.{parent_of, capacitance, resistance};
ghost use Rattle.elmore.specs.Wire.{downstream_in};
ghost use Rattle.elmore.specs.Pairs.{IsUndominated};
ghost use Rattle.cand_pairs.specs.Candidates.{NodeLists as NodeListsSpec};
ghost use Rattle.cand_pairs.specs.Merging.{Meets, Raises, Wires};
ghost use Rattle.cand_pairs.specs.Parts.{list_of};
ghost use Rattle.vg_cert.specs.Fits.{IsList, list_of as entries_of, lists_in};
ghost use Rattle.vg_check.specs.Covers.{AreWorked};
ghost use Rattle.vg_check.specs.Parts.{AreLists, IsPart, alone};

use cand_pairs::{Classes, meet_all, raise, through_wire};
use elmore::{Pair, Problem, Sink};
use std::alloc::Global;
use std::mem::drop;
use vg_cert::NodeLists;
use vg_num::Memory;

/// What is known of a node while the nodes below come in, from the last to the first (van Ginneken 1990).
#[derive(Drop)]
pub(crate) enum Part {
    /// No sink is at the node nor below a child that came in: the capacitance (aF) of the node and of all that came in.
    Dead(u64),
    /// The undominated pairs of the node with all that came in.
    Live(Classes),
}

/// The capacitance (aF) at a node, which is within the limits of a problem.
fn capacitance_of(p: &Problem, node: usize) -> u64
    requires { node < length p.now.tree.nodes }
    ensures { result ≡ capacitance p.now.tree.nodes node }
{
    p.tree.nodes.as_slice()[node].c as u64
}

/// The resistance (mΩ) of the wire to a node from its parent.
fn resistance_of(p: &Problem, node: usize) -> u64
    requires { node < length p.now.tree.nodes }
    ensures { result ≡ resistance p.now.tree.nodes node }
{
    p.tree.nodes.as_slice()[node].r
}

/// The sink at a node, if there is one.
fn sink_at(p: &Problem, node: usize) -> Option<Sink>
    requires { node < length p.now.tree.nodes }
    ensures { result ≡ sink_of p.now.sinks node }
{
    p.sinks.as_slice()[node]
}

/// The pairs of a sink alone, at a node of this capacitance (aF): one, for the signal that the sink wants.
fn of_sink(alloc: Global, sink: Sink, c: u64) -> Result<Classes, Memory>
    ensures { IfOk result (λ classes. (odd : Bool) → list_of classes odd ≡ alone sink c odd) }
{
    let mut evens = Vec::new(alloc);
    let mut odds = Vec::new(alloc);
    let pair = Pair {
        q: sink.required,
        c,
    };
    if sink.inverted {
        odds.push(pair)?;
    } else {
        evens.push(pair)?;
    }
    Ok(Classes { evens, odds })
}

/// What a wire makes of the lists of a node.
fn above_wire(alloc: Global, r: u64, lists: &NodeLists) -> Result<Classes, Memory>
    requires r { r ≤ 10 ^ 12 }
    requires lists { (odd : Bool) → IsList (entries_of lists.now odd) }
    ensures { IfOk result (λ above. (odd : Bool)
        → IsUndominated (Wires r (entries_of lists.now odd)) (list_of above odd)) }
{
    let evens = through_wire(alloc, r, &lists.even)?;
    let odds = through_wire(alloc, r, &lists.odd)?;
    Ok(Classes { evens, odds })
}

/// The pairs of two branches together, class by class.
fn meet(alloc: Global, xs: &Classes, ys: &Classes) -> Result<Classes, Memory>
    requires xs { AreWorked (list_of xs.now) }
    requires ys { AreWorked (list_of ys.now) }
    ensures { IfOk result (λ both. (odd : Bool)
        → IsUndominated (Meets (list_of xs.now odd) (list_of ys.now odd)) (list_of both odd)) }
{
    let evens = meet_all(alloc, &xs.evens, &ys.evens)?;
    let odds = meet_all(alloc, &xs.odds, &ys.odds)?;
    Ok(Classes { evens, odds })
}

/// Adds a load (aF) beside a branch to each of its pairs.
fn load(c: u64, classes: &mut Classes)
    requires load { c ≤ 10 ^ 18 }
    requires classes { AreWorked (list_of classes.old) }
    ensures { (odd : Bool) → IsUndominated (Raises c (list_of classes.old odd)) (list_of classes.new odd) }
{
    raise(c, &mut classes.evens);
    raise(c, &mut classes.odds);
}

impl Part {
    /// The part of a node to which no child came in yet: the pair of its sink, without a cell, or its capacitance.
    /// Answers `Memory` where there is no room.
    pub fn start(alloc: Global, p: &Problem, node: usize) -> Result<Part, Memory>
        requires node { node < length p.now.tree.nodes }
        ensures { IfOk result (λ part. (lists : NodeListsSpec)
            → IsPart p.now lists (length p.now.tree.nodes) node part) }
    {
        let c = capacitance_of(p, node);
        match sink_at(p, node) {
            None => Ok(Part::Dead(c)),
            Some(sink) => {
                let pairs = of_sink(alloc, sink, c)?;
                Ok(Part::Live(pairs))
            }
        }
    }

    /// A node without a sink at it or below comes in to its parent, whose part this is: with the capacitance (aF) of
    /// all below.
    fn take_dead(self, p: &Problem, node: usize, c: u64) -> Part
        requires below_root { 0 < node }
        requires node { node < length p.now.tree.nodes }
        requires dead { is_live p.now.tree.nodes p.now.sinks node ≡ false }
        requires load { c ≡ downstream_in p.now.tree.nodes node }
        requires upper { (lists : NodeListsSpec) × AreLists lists
            × IsPart p.now lists (node + 1) (parent_of p.now.tree.nodes node) self }
        ensures { (lists : NodeListsSpec) → IsPart p.now lists (node + 1) (parent_of p.now.tree.nodes node) self
            → IsPart p.now lists node (parent_of p.now.tree.nodes node) result }
    {
        match self {
            Part::Dead(own) => Part::Dead(own + c),
            Part::Live(joins) => {
                let mut joins = joins;
                load(c, &mut joins);
                Part::Live(joins)
            }
        }
    }

    /// A live node comes in to its parent, whose part this is: with the pairs of its lists, above its wire.
    fn take_live(
        self,
        alloc: Global,
        p: &Problem,
        node: usize,
        lists: &[NodeLists],
    ) -> Result<Part, Memory>
        requires below_root { 0 < node }
        requires node { node < length p.now.tree.nodes }
        requires live { is_live p.now.tree.nodes p.now.sinks node ≡ true }
        requires one_each { length lists.now ≡ length p.now.tree.nodes }
        requires lists { AreLists (lists_in lists.now) }
        requires upper { IsPart p.now (lists_in lists.now) (node + 1) (parent_of p.now.tree.nodes node) self }
        ensures { IfOk result (IsPart p.now (lists_in lists.now) node (parent_of p.now.tree.nodes node)) }
    {
        let mut above = above_wire(alloc, resistance_of(p, node), &lists[node])?;
        match self {
            Part::Dead(c) => {
                load(c, &mut above);
                Ok(Part::Live(above))
            }
            Part::Live(joins) => {
                let both = meet(alloc, &joins, &above)?;
                Ok(Part::Live(both))
            }
        }
    }

    /// A node to which all its children came in comes in to its parent, whose part this is. Its own part is given up,
    /// and its lists stand for it. Answers `Memory` where there is no room.
    pub fn take(
        self,
        alloc: Global,
        p: &Problem,
        node: usize,
        part: Part,
        lists: &[NodeLists],
    ) -> Result<Part, Memory>
        requires below_root { 0 < node }
        requires node { node < length p.now.tree.nodes }
        requires one_each { length lists.now ≡ length p.now.tree.nodes }
        requires lists { AreLists (lists_in lists.now) }
        requires whole { IsPart p.now (lists_in lists.now) (node + 1) node part }
        requires upper { IsPart p.now (lists_in lists.now) (node + 1) (parent_of p.now.tree.nodes node) self }
        ensures { IfOk result (IsPart p.now (lists_in lists.now) node (parent_of p.now.tree.nodes node)) }
    {
        match part {
            Part::Dead(c) => Ok(self.take_dead(p, node, c)),
            Part::Live(joins) => {
                drop(joins);
                let taken = self.take_live(alloc, p, node, lists)?;
                Ok(taken)
            }
        }
    }
}
