//! Nodes whose rows are kept in order.

ghost use Rattle.std.specs.Prelude.{◌≡◌, None, Some, if◌then◌else◌, OnOk, OnErr};
ghost use Rattle.name_tables.specs.OrderedRows.{row_kept};
ghost use Rattle.vg_scan.specs.Nodes.{same_node};
ghost use Rattle.vg_scan.specs.declared.name.NodeName.{NodeName};
ghost use Rattle.spef_nodes.specs.Members.{node_named};
ghost use Rattle.spef_nodes.specs.OrderedNodes.{node_row, HavePlaces};

use name_tables::OrderedRows;
use std::alloc::Global;
use vg_num::Memory;

/// Rows by their nodes: the owners are kept in order, and for each of them its leaves. A look-up compares about as many
/// texts as the logarithm of how many there are, whatever they are.
#[derive(Drop)]
pub(crate) struct OrderedNodes {
    alloc: Global,
    /// For each owner the place of its leaves.
    pub(crate) owners: OrderedRows,
    /// At each place the rows of an owner's leaves.
    pub(crate) leaves: Vec<OrderedRows>,
}

impl OrderedNodes {
    /// No rows.
    pub(crate) fn new(alloc: Global) -> OrderedNodes
        ensures places { HavePlaces result }
        ensures empty { (node : NodeName) → node_row result node ≡ None }
    {
        OrderedNodes {
            alloc,
            owners: OrderedRows::new(alloc),
            leaves: Vec::new(alloc),
        }
    }

    /// The row of a node. `None`: it is not there.
    pub(crate) fn find(&self, owner: &[u8], leaf: &[u8]) -> Option<u32>
        requires { HavePlaces self.now }
        ensures { result ≡ node_row self.now (node_named owner.now leaf.now) }
    {
        let place = self.owners.find(owner)?;
        self.leaves[place as usize].find(leaf)
    }

    /// Keeps a row by its node. Answers `Memory` where there is no room.
    pub(crate) fn add(&mut self, owner: &[u8], leaf: &[u8], row: u32) -> Result<(), Memory>
        requires { HavePlaces self.old }
        ensures places { HavePlaces self.new }
        ensures added { OnOk result ((other : NodeName) → node_row self.new other
            ≡ (if same_node (node_named owner.now leaf.now) other then Some row else node_row self.old other)) }
        ensures unchanged { OnErr result ((other : NodeName) → node_row self.new other ≡ node_row self.old other) }
    {
        match self.owners.find(owner) {
            Some(place) => self.leaves[place as usize].add(leaf, row),
            None => self.add_owner(owner, leaf, row),
        }
    }

    /// Keeps a row by a node of a new owner. Answers `Memory` where there is no room.
    fn add_owner(&mut self, owner: &[u8], leaf: &[u8], row: u32) -> Result<(), Memory>
        requires places { HavePlaces self.old }
        requires new { row_kept self.old.owners owner.now ≡ None }
        ensures places { HavePlaces self.new }
        ensures added { OnOk result ((other : NodeName) → node_row self.new other
            ≡ (if same_node (node_named owner.now leaf.now) other then Some row else node_row self.old other)) }
        ensures unchanged { OnErr result ((other : NodeName) → node_row self.new other ≡ node_row self.old other) }
    {
        let place = self.leaves.len();
        if place > 0xFFFF_FFFF {
            return Err(Memory);
        }
        let mut rows = OrderedRows::new(self.alloc);
        rows.add(leaf, row)?;
        let Ok(()) = self.leaves.push(rows) else {
            return Err(Memory);
        };
        self.owners.add(owner, place as u32)
    }
}
