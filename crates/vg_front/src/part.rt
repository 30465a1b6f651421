//! The part of a node, to which its children come in.

ghost use Rattle.std.specs.Prelude.{◌≡◌, ℕ, ◌+◌, ◌^◌, ◌<◌, ◌≤◌, Bool, List, map, true, false, [], ◌++◌, length, IfOk, MatchResult, Option};
ghost use Rattle.elmore.specs.Problems.{is_live, sink_of};
ghost use Rattle.elmore.specs.Trees.{parent_of, capacitance, resistance};
ghost use Rattle.elmore.specs.Wire.{downstream_in};
ghost use Rattle.sol_arena.specs.Arenas.{slots_of, made_of};
ghost use Rattle.sol_arena.specs.declared.slot.Made.{Made};
ghost use Rattle.sol_arena.specs.declared.slot.Slot.{Slot};
ghost use Rattle.vg_front.specs.Branches.{list_of, all_of};
ghost use Rattle.vg_front.specs.Fronts.{IsClosedAt};
ghost use Rattle.vg_front.specs.Held.{AreBounded, AreHeld, IsGiven, carried_by};
ghost use Rattle.vg_front.specs.Parts.{held_in, IsPart};
ghost use Rattle.vg_front.specs.Sinks.{offer_of, IsSinkAlone, load_beside};

use crate::branch::Branch;
use crate::list::carry;
use crate::offer::{Candidate, Offer};
use crate::propose::Desk;
use elmore::{Problem, Sink};
use sol_arena::Arena;
use std::alloc::Global;
use vg_num::Memory;

/// What is known of a node while the nodes below come in, from the last to the first (van Ginneken 1990).
#[derive(Drop)]
pub(crate) enum Part {
    /// No sink is at the node nor below a child that came in: the capacitance (aF) of the node and of all that came in.
    Dead(u64),
    /// The candidates of the node with all that came in.
    Live(Branch),
}

/// The capacitance (aF) at a node, which is within the limits of a problem.
fn capacitance_of(p: &Problem, node: usize) -> u64
    requires { node < length p.now.tree.nodes }
    ensures { result ≡ capacitance p.now.tree.nodes node }
{
    p.tree.nodes.as_slice()[node].c as u64
}

/// The resistance (mΩ) of the wire to a node from its parent.
fn resistance_of(p: &Problem, node: usize) -> u64
    requires { node < length p.now.tree.nodes }
    ensures { result ≡ resistance p.now.tree.nodes node }
{
    p.tree.nodes.as_slice()[node].r
}

/// The sink at a node, if there is one.
fn sink_at(p: &Problem, node: usize) -> Option<Sink>
    requires { node < length p.now.tree.nodes }
    ensures { result ≡ sink_of p.now.sinks node }
{
    p.sinks.as_slice()[node]
}

/// What a sink alone comes to at a node of this capacitance (aF), without a cell.
fn sink_offer(sink: Sink, c: u64) -> Offer
    ensures { result ≡ offer_of sink c }
{
    Offer {
        cost: 0,
        q: sink.required,
        c,
    }
}

impl Branch {
    /// The branch of a sink alone, at a node of this capacitance (aF): one candidate, for the signal that the sink
    /// wants.
    fn of_sink(alloc: Global, arena: &Arena, sink: Sink, c: u64) -> Result<Branch, Memory>
        ensures alone { IfOk result (λ branch. (odd : Bool) → IsSinkAlone sink c odd (list_of branch odd)) }
        ensures given { IfOk result (λ branch. (slots : List Slot) → IsGiven slots [] slots (all_of branch)) }
    {
        let mut even = Vec::new(alloc);
        let mut odd = Vec::new(alloc);
        let x = Candidate {
            offer: sink_offer(sink, c),
            sol: arena.empty(),
        };
        if sink.inverted {
            odd.push(x)?;
        } else {
            even.push(x)?;
        }
        Ok(Branch { even, odd })
    }

    /// Charges the wire of the branch's node to both lists, adds a load (aF) beside its upper end.
    fn carry(&mut self, r: u64, c: u64)
        requires resistance { r ≤ 10 ^ 12 }
        requires load { c ≤ 10 ^ 11 }
        requires bounded { (odd : Bool) → AreBounded (list_of self.old odd) }
        ensures { (odd : Bool) → list_of self.new odd ≡ map (carried_by r c) (list_of self.old odd) }
    {
        carry(&mut self.even, r, c);
        carry(&mut self.odd, r, c);
    }

    /// Adds a load (aF) beside the branch to each candidate.
    fn load(&mut self, c: u64)
        requires load { c ≤ 10 ^ 11 }
        requires bounded { (odd : Bool) → AreBounded (list_of self.old odd) }
        ensures { (odd : Bool) → list_of self.new odd ≡ map (carried_by 0 c) (list_of self.old odd) }
    {
        self.carry(0, c);
    }
}

impl Part {
    /// The part of a node to which no child came in yet: the candidate of its sink, without a cell, or its capacitance.
    /// Answers `Memory` where there is no room.
    pub fn start(alloc: Global, arena: &Arena, p: &Problem, node: usize) -> Result<Part, Memory>
        requires node { node < length p.now.tree.nodes }
        ensures part { IfOk result (λ part. (cap : Option ℕ)
            → IsPart p.now cap (length p.now.tree.nodes) node (made_of arena.now) part) }
        ensures given { IfOk result (λ part. (slots : List Slot) → IsGiven slots [] slots (held_in part)) }
    {
        let c = capacitance_of(p, node);
        match sink_at(p, node) {
            None => Ok(Part::Dead(c)),
            Some(sink) => {
                let branch = Branch::of_sink(alloc, arena, sink, c)?;
                Ok(Part::Live(branch))
            }
        }
    }

    /// The load (aF) beside a branch that comes in: all that came in before, where no sink is there.
    fn load_beside(&self) -> u64
        ensures { result ≡ load_beside self.now }
    {
        match self {
            Part::Dead(c) => *c,
            Part::Live(_) => 0,
        }
    }

    /// A live node comes in to its parent, whose part this is: with the candidates that it has, above its wire. Answers
    /// `Memory` where there is no room; the part and the branch are given up then.
    pub fn take_live(
        self,
        alloc: Global,
        arena: &mut Arena,
        p: &Problem,
        node: usize,
        branch: Branch,
        cap: Option<u64>,
        desk: &mut Desk,
    ) -> Result<Part, Memory>
        requires below_root { 0 < node }
        requires node { node < length p.now.tree.nodes }
        requires live { is_live p.now.tree.nodes p.now.sinks node ≡ true }
        requires held { AreHeld (slots_of arena.old) (held_in self ++ all_of branch) }
        requires upper { IsPart p.now cap (node + 1) (parent_of p.now.tree.nodes node) (made_of arena.old) self }
        requires closed { IsClosedAt p.now cap node (made_of arena.old) (list_of branch) }
        ensures given { MatchResult result (λ taken.
            IsGiven (slots_of arena.old) (held_in self ++ all_of branch) (slots_of arena.new) (held_in taken))
            (λ _. IsGiven (slots_of arena.old) (held_in self ++ all_of branch) (slots_of arena.new) []) }
        ensures part { IfOk result (λ taken.
            IsPart p.now cap node (parent_of p.now.tree.nodes node) (made_of arena.new) taken) }
    {
        let mut branch = branch;
        branch.carry(resistance_of(p, node), self.load_beside());
        match self {
            Part::Dead(_) => Ok(Part::Live(branch)),
            Part::Live(above) => {
                let both = above.meet(alloc, arena, p, node, branch, cap, desk)?;
                Ok(Part::Live(both))
            }
        }
    }

    /// A node without a sink at it or below comes in to its parent, whose part this is: with the capacitance (aF) of
    /// all below.
    pub fn take_dead(self, p: &Problem, node: usize, c: u64) -> Part
        requires below_root { 0 < node }
        requires node { node < length p.now.tree.nodes }
        requires dead { is_live p.now.tree.nodes p.now.sinks node ≡ false }
        requires load { c ≡ downstream_in p.now.tree.nodes node }
        requires upper { (ms : List Made) × (cap : Option ℕ)
            × IsPart p.now cap (node + 1) (parent_of p.now.tree.nodes node) ms self }
        ensures given { (slots : List Slot) → AreHeld slots (held_in self)
            → IsGiven slots (held_in self) slots (held_in result) }
        ensures part { (ms : List Made) (cap : Option ℕ)
            → IsPart p.now cap (node + 1) (parent_of p.now.tree.nodes node) ms self
            → IsPart p.now cap node (parent_of p.now.tree.nodes node) ms result }
    {
        match self {
            Part::Dead(own) => Part::Dead(own + c),
            Part::Live(branch) => {
                let mut branch = branch;
                branch.load(c);
                Part::Live(branch)
            }
        }
    }

    /// Gives up the lists of a part, with the uses of their solutions.
    pub fn give_up(self, arena: &mut Arena)
        requires held { AreHeld (slots_of arena.old) (held_in self) }
        ensures given { IsGiven (slots_of arena.old) (held_in self) (slots_of arena.new) [] }
    {
        match self {
            Part::Dead(_) => {}
            Part::Live(branch) => branch.give_up(arena),
        }
    }
}
