//! The nodes of a net.

ghost use Rattle.std.specs.Prelude.{◌≡◌, ◌==◌, ◌<◌, not, length, slice_index_or, IfOk};
ghost use Rattle.spef_nodes.specs.Nodes.{ParNode, noted_all};
ghost use Rattle.spef_nodes.specs.NodeTables.{nodes_in};

use crate::notes::Notes;
use name_tables::Texts;
use std::alloc::Global;
use std::marker::Model;
use vg_num::Memory;
use vg_scan::{Name, NodeName};

/// The nodes of a net, numbered from 0, each with its name, whether it is no connection, and its note: the text after
/// the direction of its connection, or after the node of its first `*N` line, without blanks and carriage returns at
/// its ends; empty where there is none. They stand in few buffers, so that no node takes memory of its own. Contracts
/// see the list.
#[derive(Drop)]
pub struct Nodes {
    owners: Texts,
    leaves: Texts,
    notes: Notes,
}

impl Model for Nodes {
    ghost use Rattle.std.specs.Prelude.{List};
    ghost use Rattle.spef_nodes.specs.Nodes.{ParNode, noted_all};
    ghost use Rattle.spef_nodes.specs.NodeTables.{nodes_in};

    ghost Value = { List ParNode };

    ghost view = { λ nodes. noted_all (nodes_in nodes.owners nodes.leaves) nodes.notes };
}

impl Nodes {
    /// The nodes of these owners and leaves, with these notes.
    pub fn new(owners: Texts, leaves: Texts, notes: Notes) -> Nodes
        ensures { result ≡ noted_all (nodes_in owners leaves) notes }
    {
        Nodes {
            owners,
            leaves,
            notes,
        }
    }

    /// How many nodes there are.
    pub fn len(&self) -> usize
        ensures { result ≡ length self.now }
    {
        self.owners.len().min(self.leaves.len())
    }

    /// Whether there is no node.
    pub fn is_empty(&self) -> bool
        ensures { result ≡ (length self.now == 0) }
    {
        self.len() == 0
    }

    /// The owner in the name of the node of this number.
    pub fn owner(&self, at: usize) -> &[u8]
        requires { at < length self.now }
        ensures { (other : ParNode) → result.now ≡ (slice_index_or self.now at other).name.owner }
    {
        self.owners.get(at)
    }

    /// The leaf in the name of the node of this number; a port's is empty.
    pub fn leaf(&self, at: usize) -> &[u8]
        requires { at < length self.now }
        ensures { (other : ParNode) → result.now ≡ (slice_index_or self.now at other).name.leaf }
    {
        self.leaves.get(at)
    }

    /// The name of the node of this number, in memory of its own. Answers `Memory` where there is no room.
    pub fn name(&self, alloc: Global, at: usize) -> Result<NodeName, Memory>
        requires { at < length self.now }
        ensures { IfOk result (λ name. (other : ParNode) → name ≡ (slice_index_or self.now at other).name) }
    {
        let owner = Name::from_bytes(alloc, self.owner(at))?;
        let leaf = Name::from_bytes(alloc, self.leaf(at))?;
        Ok(NodeName { owner, leaf })
    }

    /// The note of the node of this number.
    pub fn note(&self, at: usize) -> &[u8]
        requires { at < length self.now }
        ensures { (other : ParNode) → result.now ≡ (slice_index_or self.now at other).note }
    {
        self.notes.text(at)
    }

    /// Whether the node of this number is no connection.
    pub fn is_inner(&self, at: usize) -> bool
        requires { at < length self.now }
        ensures { (other : ParNode) → result ≡ (slice_index_or self.now at other).inner }
    {
        !self.notes.is_joined(at)
    }
}
