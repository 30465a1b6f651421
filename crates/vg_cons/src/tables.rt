//! The tables of the rows: a look-up takes no memory, and no walk over all rows.

ghost use Rattle.std.specs.Prelude.{◌≡◌, ◌<◌, ◌≤◌, ◌^◌, ℕ, List, [], ◌∷◌, ◌++◌, not, is_some, true, false, IfOk, OnErr, option_copied};
ghost use Rattle.vg_scan.specs.Nodes.{node_value, has_node};
ghost use Rattle.vg_scan.specs.declared.name.NodeName.{NodeName};
ghost use Rattle.vg_cons.specs.Named.{named};
ghost use Rattle.vg_cons.specs.Names.{port_node, port_value};

use crate::node::NodeRef;
use spef_nodes::NodeTable;
use std::alloc::Global;
use std::marker::Model;
use vg_num::Memory;
use vg_scan::{Name, NodeName};

/// How many buckets there are in a table of the rows of a text of so many bytes: a power of two.
pub(crate) fn buckets_for(bytes: usize) -> usize
    ensures { (0 < result) × (result ≤ 2 ^ 32) }
{
    // A row has a word, a name, a number and what parts them: 16 bytes and more.
    let mut buckets = 4usize;
    'double: while buckets < bytes / 16 && buckets < 1 << 20 {
        buckets *= 2;
    }
    buckets
}

/// A value for each of some pins or nodes, in the order in which they came. Their names stand in one buffer.
pub(crate) struct NodeRows<V> {
    nodes: NodeTable,
    values: Vec<V>,
}

impl<V: Drop> Drop for NodeRows<V> {
    // Written out, so that it is one step in the proof of whoever drops it.
    fn drop(self) {
        let NodeRows {
            nodes: _nodes,
            values: _values,
        } = self;
    }
}

impl<V> Model for NodeRows<V> {
    ghost use Rattle.std.specs.Prelude.{◌≡◌, List, length, zip};
    ghost use Rattle.spef_nodes.specs.Members.{AreApart};
    ghost use Rattle.vg_scan.specs.declared.name.NodeName.{NodeName};

    ghost Value = { List (NodeName × V) };

    ghost view = { λ table. zip table.nodes table.values.items };

    ghost invariant = { λ table. AreApart table.nodes × (length table.values.items ≡ length table.nodes) };
}

impl<V> NodeRows<V> {
    /// No values, in a table of so many buckets. Answers `Memory` where there is no room.
    pub fn new(alloc: Global, buckets: usize) -> Result<NodeRows<V>, Memory>
        requires some { 0 < buckets }
        requires fit { buckets ≤ 2 ^ 32 }
        ensures { IfOk result (λ table. table ≡ []) }
    {
        let nodes = NodeTable::new(alloc, buckets)?;
        Ok(NodeRows {
            nodes,
            values: Vec::new(alloc),
        })
    }

    /// Puts a value last where its node is new, and says whether it was. Answers `Memory` where there is no room;
    /// nothing changes then.
    pub fn insert(&mut self, node: NodeRef<'_>, value: V) -> Result<bool, Memory>
    where
        V: Drop,
        ensures fresh { IfOk result (λ fresh. fresh ≡ not (is_some (node_value self.old (named node.entry)))) }
        ensures last { IfOk result (λ fresh. fresh ≡ true → self.new ≡ self.old ++ (named node.entry, value) ∷ []) }
        ensures there { IfOk result (λ fresh. fresh ≡ false → self.new ≡ self.old) }
        ensures unchanged { OnErr result (self.new ≡ self.old) }
    {
        let count = self.values.len();
        self.values.push(value)?;
        let Ok(id) = self.nodes.intern(node.owner, node.leaf) else {
            self.values.truncate(count);
            return Err(Memory);
        };
        if id as usize == count {
            return Ok(true);
        }
        self.values.truncate(count);
        Ok(false)
    }

    /// The value of a node.
    pub fn get(&self, node: NodeRef<'_>) -> Option<&V>
        ensures { option_copied result ≡ node_value self.now (named node.entry) }
    {
        // No hash is made where no row is there to be found.
        if self.values.is_empty() {
            return None;
        }
        match self.nodes.find(node.owner, node.leaf) {
            None => None,
            Some(id) => Some(&self.values[id as usize]),
        }
    }
}

/// A value for each of some ports, in the order in which they came.
pub(crate) struct PortRows<V> {
    rows: NodeRows<V>,
}

impl<V: Drop> Drop for PortRows<V> {
    // Written out, so that it is one step in the proof of whoever drops it.
    fn drop(self) {
        let PortRows { rows: _rows } = self;
    }
}

impl<V> Model for PortRows<V> {
    ghost use Rattle.std.specs.Prelude.{ℕ, List};
    ghost use Rattle.vg_cons.specs.Names.{AreOfPorts, by_ports};

    ghost Value = { List (List ℕ × V) };

    ghost view = { λ table. by_ports table.rows };

    ghost invariant = { λ table. AreOfPorts table.rows };
}

/// The node that a port is.
fn node_of(port: &Name) -> NodeRef<'_>
    ensures { named result ≡ port_node port.now }
{
    NodeRef {
        owner: port.as_bytes(),
        leaf: b"",
    }
}

impl<V> PortRows<V> {
    /// No values, in a table of so many buckets. Answers `Memory` where there is no room.
    pub fn new(alloc: Global, buckets: usize) -> Result<PortRows<V>, Memory>
        requires some { 0 < buckets }
        requires fit { buckets ≤ 2 ^ 32 }
        ensures { IfOk result (λ table. table ≡ []) }
    {
        let rows = NodeRows::new(alloc, buckets)?;
        Ok(PortRows { rows })
    }

    /// Puts a value last where its port is new, and says whether it was. Answers `Memory` where there is no room;
    /// nothing changes then.
    pub fn insert(&mut self, port: &Name, value: V) -> Result<bool, Memory>
    where
        V: Drop,
        ensures fresh { IfOk result (λ fresh. fresh ≡ not (is_some (port_value self.old port.now))) }
        ensures last { IfOk result (λ fresh. fresh ≡ true → self.new ≡ self.old ++ (port.now, value) ∷ []) }
        ensures there { IfOk result (λ fresh. fresh ≡ false → self.new ≡ self.old) }
        ensures unchanged { OnErr result (self.new ≡ self.old) }
    {
        let fresh = self.rows.insert(node_of(port), value)?;
        Ok(fresh)
    }

    /// The value of a port.
    pub fn get(&self, port: &Name) -> Option<&V>
        ensures { option_copied result ≡ port_value self.now port.now }
    {
        self.rows.get(node_of(port))
    }
}

/// Some pins or nodes, in the order in which they came. Their names stand in one buffer.
pub(crate) struct NodeSet {
    nodes: NodeTable,
    count: usize,
}

impl Drop for NodeSet {
    // Written out, so that it is one step in the proof of whoever drops it.
    fn drop(self) {
        let NodeSet {
            nodes: _nodes,
            count: _count,
        } = self;
    }
}

impl Model for NodeSet {
    ghost use Rattle.std.specs.Prelude.{◌≡◌, List, length};
    ghost use Rattle.vg_scan.specs.declared.name.NodeName.{NodeName};

    ghost Value = { List NodeName };

    ghost view = { λ set. set.nodes };

    ghost invariant = { λ set. set.count ≡ length set.nodes };
}

impl NodeSet {
    /// No nodes, in a table of so many buckets. Answers `Memory` where there is no room.
    pub fn new(alloc: Global, buckets: usize) -> Result<NodeSet, Memory>
        requires some { 0 < buckets }
        requires fit { buckets ≤ 2 ^ 32 }
        ensures { IfOk result (λ set. set ≡ []) }
    {
        let nodes = NodeTable::new(alloc, buckets)?;
        Ok(NodeSet { nodes, count: 0 })
    }

    /// Puts a node last where it is new, and says whether it was. Answers `Memory` where there is no room; nothing
    /// changes then.
    pub fn insert(&mut self, node: NodeRef<'_>) -> Result<bool, Memory>
        ensures fresh { IfOk result (λ fresh. fresh ≡ not (has_node self.old (named node.entry))) }
        ensures last { IfOk result (λ fresh. fresh ≡ true → self.new ≡ self.old ++ named node.entry ∷ []) }
        ensures there { IfOk result (λ fresh. fresh ≡ false → self.new ≡ self.old) }
        ensures unchanged { OnErr result (self.new ≡ self.old) }
    {
        let id = self.nodes.intern(node.owner, node.leaf)?;
        if id as usize != self.count {
            return Ok(false);
        }
        self.count += 1;
        Ok(true)
    }

    /// Whether the node is one of them.
    pub fn contains(&self, node: NodeRef<'_>) -> bool
        ensures { result ≡ has_node self.now (named node.entry) }
    {
        // No hash is made where no row is there to be found.
        self.count > 0 && self.nodes.find(node.owner, node.leaf).is_some()
    }
}
