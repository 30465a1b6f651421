//! The rows of nodes.

ghost use Rattle.std.specs.Prelude.{◌≡◌, ◌≢◌, ℕ, ◌-◌, ◌<◌, ◌^◌, ◌++◌, [], ◌∷◌, List, Some, length, IfOk, OnErr, OnOk};
ghost use Rattle.std.specs.List.{slice_get};
ghost use Rattle.vg_scan.specs.declared.name.NodeName.{NodeName};
ghost use Rattle.name_tables.specs.Chains.{buckets_of, outside, rows_of, AreChains};
ghost use Rattle.spef_nodes.specs.Members.{node_named};
ghost use Rattle.spef_nodes.specs.NodeTables.{node_hash, AreRows};
ghost use Rattle.spef_nodes.specs.OrderedNodes.{HavePlaces};

use crate::ordered_nodes::OrderedNodes;
use name_tables::Chains;
use std::alloc::Global;
use vg_num::Memory;

/// The rows of nodes: in chains by their hashes, and where a chain is full in order by the nodes.
#[derive(Drop)]
pub(crate) struct NodeRows {
    pub(crate) chains: Chains,
    pub(crate) ordered: OrderedNodes,
}

impl NodeRows {
    /// No rows, in so many buckets. Answers `Memory` where there is no room.
    pub(crate) fn new(alloc: Global, buckets: usize) -> Result<NodeRows, Memory>
        ensures rows { IfOk result (λ rows. AreRows [] rows) }
        ensures buckets { IfOk result (λ rows. buckets_of rows.chains ≡ buckets) }
    {
        let chains = Chains::new(alloc, buckets)?;
        let ordered = OrderedNodes::new(alloc);
        Ok(NodeRows { chains, ordered })
    }

    /// Puts the row of a new node of this hash last. Answers `Memory` where there is no room; nothing changes then.
    pub(crate) fn push(&mut self, owner: &[u8], leaf: &[u8], hash: u32) -> Result<(), Memory>
        requires some { 0 < buckets_of self.old.chains }
        requires chains { AreChains self.old.chains }
        requires few { length (rows_of self.old.chains) < outside }
        requires places { HavePlaces self.old.ordered }
        requires hash { hash ≡ node_hash (node_named owner.now leaf.now) }
        ensures last { (nodes : List NodeName) → AreRows nodes self.old
            → ((row : ℕ) → slice_get nodes row ≢ Some (node_named owner.now leaf.now))
            → OnOk result (AreRows (nodes ++ node_named owner.now leaf.now ∷ []) self.new) }
        ensures unchanged { (nodes : List NodeName) → AreRows nodes self.old → OnErr result (AreRows nodes self.new) }
        ensures buckets { buckets_of self.new.chains ≡ buckets_of self.old.chains }
    {
        if !self.chains.is_full(hash) {
            return self.chains.push(hash);
        }
        let row = self.chains.len() as u32;
        self.chains.reserve()?;
        self.ordered.add(owner, leaf, row)?;
        self.chains.push_outside()
    }
}
