//! The nodes of a net, and a table to look them up.

ghost use Rattle.std.specs.Prelude.{◌≡◌, ◌-◌, ◌^◌, ◌<◌, ◌≤◌, [], ◌∷◌, ◌++◌, length, false, Some, IfOk, IfSome, IfNone, OnOk, OnErr, IsTrue, ◌↔◌};
ghost use Rattle.std.specs.List.{slice_get, fold};
ghost use Rattle.vg_scan.specs.Nodes.{has_node};
ghost use Rattle.spef_nodes.specs.Members.{node_named, with_node, Owns};
ghost use Rattle.spef_nodes.specs.NodeTables.{node_at, hash_with, node_hash, nodes_in, nodes_of, IsTable};

use crate::members::is_inner;
use crate::node_rows::NodeRows;
use name_tables::{Texts, is_same};
use std::alloc::Global;
use std::marker::Model;
use vg_num::Memory;

/// The names of nodes, and their rows.
#[derive(Drop)]
struct Table {
    pub owners: Texts,
    pub leaves: Texts,
    pub rows: NodeRows,
}

/// Distinct nodes, numbered from 0 in the order in which they came first, in one buffer. Contracts see the list of
/// nodes.
#[derive(Drop)]
pub struct NodeTable {
    table: Table,
}

impl Model for NodeTable {
    ghost use Rattle.std.specs.Prelude.{List};
    ghost use Rattle.vg_scan.specs.declared.name.NodeName.{NodeName};
    ghost use Rattle.spef_nodes.specs.NodeTables.{nodes_in, IsTable};

    ghost Value = { List NodeName };

    ghost view = { λ nodes. nodes_in nodes.table.owners nodes.table.leaves };

    ghost invariant = { λ nodes. IsTable nodes.table.owners nodes.table.leaves nodes.table.rows };
}

/// The hash of a text: texts that end with numbers close to each other have hashes as close. The factor is odd, so that
/// each byte of a long text counts in the low bits.
fn hash_of(text: &[u8]) -> u64
    ensures hash { result ≡ fold hash_with 0 text.now }
    ensures within { result < 2 ^ 32 }
{
    let mut hash = 0u64;
    'byte: for byte in text {
        hash = (hash * 11 + u64::from(*byte)) % 0x1_0000_0000;
    }
    hash
}

/// The hash of a node, of 32 bits.
#[tactic(auto, unfolding(crate::specs::NodeTables::node_hash))]
fn node_hash(owner: &[u8], leaf: &[u8]) -> u32
    ensures { result ≡ node_hash (node_named owner.now leaf.now) }
{
    ((hash_of(owner) * 31 + hash_of(leaf)) % 0x1_0000_0000) as u32
}

/// Puts a node's name last. Answers `Memory` where there is no room; nothing changes then.
fn add_name(owners: &mut Texts, leaves: &mut Texts, owner: &[u8], leaf: &[u8]) -> Result<(), Memory>
    requires { length owners.old ≡ length leaves.old }
    ensures even { length owners.new ≡ length leaves.new }
    ensures last { OnOk result (nodes_in owners.new leaves.new
        ≡ nodes_in owners.old leaves.old ++ node_named owner.now leaf.now ∷ []) }
    ensures unchanged { OnErr result (nodes_in owners.new leaves.new ≡ nodes_in owners.old leaves.old) }
{
    owners.push(owner)?;
    match leaves.push(leaf) {
        Ok(()) => Ok(()),
        Err(_) => {
            owners.pop();
            Err(Memory)
        }
    }
}

impl Table {
    /// Whether the node of a row is this one. `held` is the hash of the row's, and `hash` that of this one.
    fn is_named(&self, row: usize, held: u32, owner: &[u8], leaf: &[u8], hash: u32) -> bool
        requires row { row < length self.now.owners }
        requires even { length self.now.owners ≡ length self.now.leaves }
        requires held { held ≡ node_hash (node_at self.now.owners self.now.leaves row) }
        requires hash { hash ≡ node_hash (node_named owner.now leaf.now) }
        ensures { IsTrue result ↔ (node_at self.now.owners self.now.leaves row ≡ node_named owner.now leaf.now) }
    {
        held == hash && is_same(owner, self.owners.get(row)) && is_same(leaf, self.leaves.get(row))
    }

    /// The number of a node of this hash. `None`: it is not there.
    fn find(&self, owner: &[u8], leaf: &[u8], hash: u32) -> Option<u32>
        requires table { IsTable self.now.owners self.now.leaves self.now.rows }
        requires hash { hash ≡ node_hash (node_named owner.now leaf.now) }
        ensures found { IfSome result (λ id. slice_get (nodes_of self.now) id ≡ Some (node_named owner.now leaf.now)) }
        ensures absent { IfNone result (has_node (nodes_of self.now) (node_named owner.now leaf.now) ≡ false) }
    {
        let mut next = self.rows.chains.last(hash);
        'row: while next != 0 {
            let row = next as usize - 1;
            let link = self.rows.chains.link(row);
            if self.is_named(row, link.hash, owner, leaf, hash) {
                return Some(next - 1);
            }
            next = link.before;
        }
        self.rows.ordered.find(owner, leaf)
    }

    /// Puts a new node of this hash last. Answers `Memory` where there is no room; nothing changes then.
    fn add(&mut self, owner: &[u8], leaf: &[u8], hash: u32) -> Result<u32, Memory>
        requires table { IsTable self.old.owners self.old.leaves self.old.rows }
        requires hash { hash ≡ node_hash (node_named owner.now leaf.now) }
        requires new { has_node (nodes_of self.old) (node_named owner.now leaf.now) ≡ false }
        ensures table { IsTable self.new.owners self.new.leaves self.new.rows }
        ensures nodes { OnOk result (nodes_of self.new ≡ nodes_of self.old ++ node_named owner.now leaf.now ∷ []) }
        ensures number { IfOk result (λ id. id ≡ length (nodes_of self.old)) }
        ensures unchanged { OnErr result (nodes_of self.new ≡ nodes_of self.old) }
    {
        let count = self.owners.len();
        if count >= 0xFFFF_FFFF {
            return Err(Memory);
        }
        add_name(&mut self.owners, &mut self.leaves, owner, leaf)?;
        match self.rows.push(owner, leaf, hash) {
            Ok(()) => Ok(count as u32),
            Err(_) => {
                self.owners.pop();
                self.leaves.pop();
                Err(Memory)
            }
        }
    }
}

impl NodeTable {
    /// No nodes, in a table of so many buckets. Answers `Memory` where there is no room.
    pub fn new(alloc: Global, buckets: usize) -> Result<NodeTable, Memory>
        requires some { 0 < buckets }
        requires fit { buckets ≤ 2 ^ 32 }
        ensures { IfOk result (λ nodes. nodes ≡ []) }
    {
        let rows = NodeRows::new(alloc, buckets)?;
        Ok(NodeTable {
            table: Table {
                owners: Texts::new(alloc),
                leaves: Texts::new(alloc),
                rows,
            },
        })
    }

    /// The number of a node, which is put last where it is new.
    ///
    /// Answers `Memory` where there is no room, as where there would be 2^32 nodes or more.
    pub fn intern(&mut self, owner: &[u8], leaf: &[u8]) -> Result<u32, Memory>
        ensures nodes { OnOk result (self.new ≡ with_node self.old (node_named owner.now leaf.now)) }
        ensures number { IfOk result (λ id. slice_get self.new id ≡ Some (node_named owner.now leaf.now)) }
        ensures unchanged { OnErr result (self.new ≡ self.old) }
    {
        let hash = node_hash(owner, leaf);
        match self.table.find(owner, leaf, hash) {
            Some(id) => Ok(id),
            None => self.table.add(owner, leaf, hash),
        }
    }

    /// The number of a node. `None`: it is not there.
    pub fn find(&self, owner: &[u8], leaf: &[u8]) -> Option<u32>
        ensures found { IfSome result (λ id. slice_get self.now id ≡ Some (node_named owner.now leaf.now)) }
        ensures absent { IfNone result (has_node self.now (node_named owner.now leaf.now) ≡ false) }
    {
        self.table.find(owner, leaf, node_hash(owner, leaf))
    }

    /// The number of a node of the net of this name: one that is there, or one inside the net, which is put last where
    /// it is new. `None`: it is another net's. Answers `Memory` as `intern` does.
    pub fn own(&mut self, net: &[u8], owner: &[u8], leaf: &[u8]) -> Result<Option<u32>, Memory>
        ensures owned { Owns result net.now self.old (node_named owner.now leaf.now) self.new }
        ensures unchanged { OnErr result (self.new ≡ self.old) }
    {
        let hash = node_hash(owner, leaf);
        match self.table.find(owner, leaf, hash) {
            Some(id) => Ok(Some(id)),
            None => {
                if !is_inner(net, owner, leaf) {
                    return Ok(None);
                }
                let Ok(id) = self.table.add(owner, leaf, hash) else {
                    return Err(Memory);
                };
                Ok(Some(id))
            }
        }
    }

    /// The owners and the leaves of the nodes.
    pub fn into_names(self) -> (Texts, Texts)
        ensures { nodes_in result.0 result.1 ≡ self }
    {
        let NodeTable { table } = self;
        let Table {
            owners,
            leaves,
            rows: _,
        } = table;
        (owners, leaves)
    }
}
