//! The names of the nodes of a tree.

ghost use Rattle.std.specs.Prelude.{◌≡◌, ◌<◌, length, slice_index_or, IfOk};
ghost use Rattle.vg_scan.specs.declared.name.NodeName.{NodeName};

use spef_nodes::Nodes;
use std::alloc::Global;
use std::marker::Model;
use vg_num::{Memory, Row};
use vg_scan::NodeName;

/// The names of the nodes of a tree, in tree order. Contracts see the list of them. They stand in few buffers, so that
/// no name takes memory of its own.
pub struct TreeNames {
    pub(crate) nodes: Nodes,
    /// For each node of the tree its number in the net.
    pub(crate) order: Row<u32>,
}

impl Drop for TreeNames {
    // Written out, so that it is one step in the proof of whoever drops it.
    fn drop(self) {
        let TreeNames {
            nodes: _nodes,
            order: _order,
        } = self;
    }
}

impl Model for TreeNames {
    ghost use Rattle.std.specs.Prelude.{◌<◌, List, length, map};
    ghost use Rattle.std.specs.List.{All};
    ghost use Rattle.vg_scan.specs.declared.name.NodeName.{NodeName};
    ghost use Rattle.vg_design.specs.Designs.{node_name};

    ghost Value = { List NodeName };

    ghost view = { λ names. map (node_name names.nodes) names.order };

    ghost invariant = { λ names. All (λ v. v < length names.nodes) names.order };
}

impl TreeNames {
    /// How many nodes there are.
    pub fn len(&self) -> usize
        ensures { result ≡ length self.now }
    {
        self.order.len()
    }

    /// The owner in the name of a node of the tree.
    pub fn owner(&self, at: usize) -> &[u8]
        requires { at < length self.now }
        ensures { (other : NodeName) → result.now ≡ (slice_index_or self.now at other).owner }
    {
        self.nodes.owner(self.order.as_slice()[at] as usize)
    }

    /// The leaf in the name of a node of the tree; a port's is empty.
    pub fn leaf(&self, at: usize) -> &[u8]
        requires { at < length self.now }
        ensures { (other : NodeName) → result.now ≡ (slice_index_or self.now at other).leaf }
    {
        self.nodes.leaf(self.order.as_slice()[at] as usize)
    }

    /// The name of a node of the tree, in memory of its own. Answers `Memory` where there is no room.
    pub fn name(&self, alloc: Global, at: usize) -> Result<NodeName, Memory>
        requires { at < length self.now }
        ensures { IfOk result (λ name. (other : NodeName) → name ≡ slice_index_or self.now at other) }
    {
        let name = self.nodes.name(alloc, self.order.as_slice()[at] as usize)?;
        Ok(name)
    }
}
