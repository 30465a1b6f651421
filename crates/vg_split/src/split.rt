//! A net that cells split into stages.

ghost use Rattle.std.specs.Prelude.{◌≡◌, ◌==◌, ℕ, ◌++◌, ◌<◌, true, false, length, drop, slice_index, MatchOption, OnErr, OnOk};
ghost use Rattle.elmore.specs.Trees.{parent_of, resistance};
ghost use Rattle.vg_split.specs.Splits.{forest, head, is_celled, is_end, net_of, number_of, old_conn, repeater_at, stage_from};
ghost use Rattle.vg_split.specs.Stages.{heads, members, IsInStage};
ghost use Rattle.spef_write.specs.Sections.{total_at};

use crate::Stages;
use crate::names::push_net_name;
use elmore::Problem;
use lib_linear::Repeater;
use spef_net::{ParConn, ParNet};
use std::marker::Model;
use vg_num::Memory;

/// A net with cells at nodes of its tree, split into stages: that of the root and, in tree order, those of the cells.
/// The cells are numbered from `first` on. One stage keeps the net's name, and each other gets a new net.
#[derive(Drop)]
pub struct Split<'a> {
    pub par: &'a ParNet,
    /// For each node of the tree its number in the net.
    pub order: &'a [u32],
    pub problem: &'a Problem,
    /// For each node of the tree the number of the repeater that is put there, if one is.
    pub cells: &'a [Option<u32>],
    pub repeaters: &'a [Repeater],
    pub stages: &'a Stages,
    /// The capacitance of each node of the net (aF).
    pub sums: &'a [u64],
    /// What the names of new cells and nets begin with.
    pub prefix: &'a [u8],
    /// The number of the first cell.
    pub first: u64,
    /// The stage that keeps the net's name.
    pub keeper: u32,
}

impl<'a> Model for Split<'a> {
    ghost use Rattle.std.specs.Prelude.{length};
    ghost use Rattle.cut_laws.specs.CutNets.{forest_of};
    ghost use Rattle.vg_split.specs.Conditions.{IsSplit};
    ghost use Rattle.vg_split.specs.Splits.{Split as SplitSpec};
    ghost use Rattle.vg_split.specs.Stages.{AreStages};
    ghost use Rattle.spef_write.specs.Charges.{AreSums};

    ghost Value = { SplitSpec };

    ghost view = { λ x. record {
      par = x.par.now;
      order = x.order.now;
      problem = x.problem.now;
      cells = x.cells.now;
      repeaters = x.repeaters.now;
      prefix = x.prefix.now;
      first = x.first;
      keeper = x.keeper;
    } };

    ghost invariant = { λ x. IsSplit (record {
      par = x.par.now;
      order = x.order.now;
      problem = x.problem.now;
      cells = x.cells.now;
      repeaters = x.repeaters.now;
      prefix = x.prefix.now;
      first = x.first;
      keeper = x.keeper;
    }) × AreStages (forest_of x.problem.now x.cells.now) x.stages.now
        × AreSums (length x.par.now.nodes) x.par.now.caps x.sums.now };
}

impl<'a> Split<'a> {
    /// The number of a node of the tree in the net.
    pub fn old(&self, node: usize) -> usize
        requires { node < length self.now.problem.tree.nodes }
        ensures is { result ≡ slice_index self.now.order node }
        ensures within { result < length self.now.par.nodes }
        ensures few { result < length self.now.problem.tree.nodes }
    {
        self.order[node] as usize
    }

    /// Whether a cell is put at a node of the tree.
    pub fn has_cell(&self, node: usize) -> bool
        requires { node < length self.now.problem.tree.nodes }
        ensures { result ≡ is_celled self.now node }
    {
        self.cells[node].is_some()
    }

    /// Whether a node of the tree is a connection of its stages: a cell is there, or a pin or port of the net.
    pub fn is_end(&self, node: usize) -> bool
        requires { node < length self.now.problem.tree.nodes }
        ensures { result ≡ is_end self.now node }
    {
        self.has_cell(node) || !self.par.nodes.is_inner(self.old(node))
    }

    /// The connection of the net at a node of the tree.
    pub(crate) fn conn(&self, node: usize) -> ParConn
        requires node { node < length self.now.problem.tree.nodes }
        requires end { is_end self.now node ≡ true }
        requires bare { is_celled self.now node ≡ false }
        ensures { result ≡ old_conn self.now node }
    {
        self.par.conns.as_slice()[self.old(node)]
    }

    /// The capacitance at a node of the tree.
    pub(crate) fn charge(&self, node: usize) -> u64
        requires { node < length self.now.problem.tree.nodes }
        ensures { result ≡ total_at self.now.par.caps (slice_index self.now.order node) }
    {
        self.sums[self.old(node)]
    }

    /// The node above a node of the tree, and the resistance between them.
    pub fn above(&self, node: usize) -> (usize, u64)
        requires { node < length self.now.problem.tree.nodes }
        ensures parent { result.0 ≡ parent_of self.now.problem.tree.nodes node }
        ensures within { result.0 < length self.now.problem.tree.nodes }
        ensures r { result.1 ≡ resistance self.now.problem.tree.nodes node }
    {
        let at = self.problem.tree.nodes.as_slice()[node];
        (at.parent as usize, at.r)
    }

    /// The repeater that is put at a node of the tree, if one is.
    pub fn repeater_at(&self, node: usize) -> Option<&Repeater>
        requires { node < length self.now.problem.tree.nodes }
        ensures some { MatchOption result (is_celled self.now node ≡ false)
            (λ repeater. (is_celled self.now node ≡ true) × (repeater.now ≡ repeater_at self.now node)) }
    {
        let number = self.cells[node]?;
        Some(&self.repeaters[number as usize])
    }

    /// The nodes of a stage, and those whose cells end it, in tree order.
    pub fn members(&self, stage: usize) -> &[u32]
        requires { stage < length (heads (forest self.now)) }
        ensures are { result.now ≡ members (forest self.now) (head self.now stage) }
        ensures within { (i : ℕ) → i < length result.now
            → slice_index result.now i < length self.now.problem.tree.nodes }
    {
        self.stages.nodes[stage].as_slice()
    }

    /// The nodes of a stage below the first.
    pub(crate) fn below(&self, stage: usize) -> &[u32]
        requires { stage < length (heads (forest self.now)) }
        ensures are { result.now ≡ drop 1 (members (forest self.now) (head self.now stage)) }
        ensures within { (i : ℕ) → i < length result.now
            → slice_index result.now i < length self.now.problem.tree.nodes }
    {
        let members = self.members(stage);
        &members[1..]
    }

    /// Whether a stage begins at a node.
    pub(crate) fn is_head(&self, stage: usize, node: usize) -> bool
        requires { stage < length (heads (forest self.now)) }
        ensures { result ≡ (node == head self.now stage) }
    {
        self.members(stage)[0] as usize == node
    }

    /// The number of the cell at a node.
    pub fn number_at(&self, node: usize) -> u64
        requires node { node < length self.now.problem.tree.nodes }
        requires cell { is_celled self.now node ≡ true }
        ensures { result ≡ number_of self.now (stage_from self.now node) }
    {
        self.first + u64::from(self.stages.stage_of[node] - 1)
    }

    /// How many stages there are.
    pub fn count(&self) -> usize
        ensures { result ≡ length (heads (forest self.now)) }
    {
        self.stages.nodes.len()
    }

    /// The repeater at which a stage begins.
    pub fn repeater_of(&self, stage: usize) -> &Repeater
        requires some { 0 < stage }
        requires stage { stage < length (heads (forest self.now)) }
        ensures { result.now ≡ repeater_at self.now (head self.now stage) }
    {
        let head = self.members(stage)[0] as usize;
        let Some(repeater) = self.repeater_at(head) else {
            unreachable!()
        };
        repeater
    }

    /// The number of the stage that a node of the tree is in; where it has a cell, of the cell's own.
    pub fn stage_of(&self, node: usize) -> usize
        requires { node < length self.now.problem.tree.nodes }
        ensures { IsInStage (forest self.now) (heads (forest self.now)) result node }
    {
        self.stages.stage_of[node] as usize
    }

    /// Puts the name of the net of a stage behind a text. Answers `Memory` where there is no room, and then `to` is as
    /// before.
    pub fn push_net(&self, stage: usize, to: &mut Vec<u8>) -> Result<(), Memory>
        requires { stage < length (heads (forest self.now)) }
        ensures pushed { OnOk result (to.new.items ≡ to.old.items ++ net_of self.now stage) }
        ensures unchanged { OnErr result (to.new.items ≡ to.old.items) }
    {
        let keeper = self.keeper as usize;
        if stage == keeper {
            to.extend_from_slice(self.par.name.as_bytes())?;
            return Ok(());
        }
        let cell = if stage == 0 { keeper } else { stage };
        push_net_name(self.prefix, self.first + (cell - 1) as u64, to)
    }
}
