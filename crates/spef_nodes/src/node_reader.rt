//! The nodes of a net, by the texts that name them.

ghost use Rattle.std.specs.Prelude.{◌≡◌, ◌<◌, length, Some, IfOk, IfSome, OnOk, OnErr};
ghost use Rattle.std.specs.List.{slice_get};
ghost use Rattle.spef_file.specs.IndexFiles.{file_of};
ghost use Rattle.spef_nodes.specs.Members.{Owns, node_named, with_node};
ghost use Rattle.spef_nodes.specs.Names.{node_in};
ghost use Rattle.spef_nodes.specs.Spellings.{named_by};
ghost use Rattle.spef_nodes.specs.NodeReaders.{IsNumbered, SeesNode, Writes, net_nodes};

use crate::node::{Node, prefix_of, read_node};
use crate::node_table::NodeTable;
use name_tables::is_same;
use spef_file::SpefIndex;
use std::alloc::Global;
use std::marker::Model;
use vg_num::Memory;
use vg_scan::NameFault;

/// How many texts are known at most.
const SLOTS: usize = 16;

/// A text that names the node of a number.
#[derive(Clone, Copy, Debug)]
pub(crate) struct Known<'a> {
    pub text: &'a [u8],
    pub id: u32,
}

/// The nodes of a net while its lines are read. Most texts name an inner node: they begin as the first such text did,
/// and go on with digits. The number that the digits write leads to the node, where it came before. Of the other texts
/// those that were read last are known by their bytes.
#[derive(Drop)]
pub struct NodeReader<'a> {
    alloc: Global,
    index: &'a SpefIndex,
    net: &'a [u8],
    nodes: NodeTable,
    /// What stands before the leaf in the text of an inner node. Empty: no such text came yet.
    prefix: &'a [u8],
    /// For each number, one more than the number of the node whose leaf writes it. 0: no such node came yet.
    numbers: Vec<u32>,
    /// Of the texts that share a slot the last one.
    known: Vec<Option<Known<'a>>>,
}

impl<'a> Model for NodeReader<'a> {
    ghost use Rattle.spef_file.specs.IndexFiles.{file_of};
    ghost use Rattle.spef_nodes.specs.NodeReaders.{NetNodes, net_nodes, IsReader};

    ghost Value = { NetNodes };

    ghost view = { λ reader. net_nodes (file_of reader.index.now) reader.net.now reader.nodes };

    ghost invariant = { λ r.
        IsReader (net_nodes (file_of r.index.now) r.net.now r.nodes) r.prefix.now r.numbers.items r.known.items };
}

/// The number that digits write of which the first is no zero. `None`: it is another text, or of ten bytes or more.
fn number_of(text: &[u8]) -> Option<usize>
    ensures { IfSome result (Writes text.now) }
{
    if text.is_empty() {
        return None;
    }
    if text.len() > 9 {
        return None;
    }
    if text[0] == b'0' {
        return None;
    }
    let mut number = 0usize;
    'digit: for byte in text {
        let byte = *byte;
        if byte < b'0' || byte > b'9' {
            return None;
        }
        number = number * 10 + usize::from(byte - b'0');
    }
    Some(number)
}

/// The slot of a text: by its length and its last byte.
fn slot_of(text: &[u8]) -> usize
    ensures { result < 16 }
{
    match text.last() {
        None => 0,
        Some(last) => (text.len() + usize::from(*last)) & (SLOTS - 1),
    }
}

impl<'a> NodeReader<'a> {
    /// These nodes, before the first text; inner nodes whose number is less than a count are found by it. Answers
    /// `Memory` where there is no room.
    pub fn new(
        alloc: Global,
        index: &'a SpefIndex,
        net: &'a [u8],
        nodes: NodeTable,
        count: usize,
    ) -> Result<NodeReader<'a>, Memory>
        ensures { IfOk result (λ reader. reader ≡ net_nodes (file_of index.now) net.now nodes) }
    {
        let numbers = vec![in alloc; 0u32; count]?;
        let known = vec![in alloc; None; SLOTS]?;
        Ok(NodeReader {
            alloc,
            index,
            net,
            nodes,
            prefix: b"",
            numbers,
            known,
        })
    }

    /// The index of the file.
    pub fn index(&self) -> &'a SpefIndex
        ensures { file_of result.now ≡ self.now.file }
    {
        self.index
    }

    /// The allocator.
    pub fn alloc(&self) -> Global {
        self.alloc
    }

    /// The net's name.
    pub fn net(&self) -> &'a [u8]
        ensures { result.now ≡ self.now.net }
    {
        self.net
    }

    /// The leaf of an inner node, and the number that it writes, where a text has the prefix.
    fn inner_leaf(&self, text: &'a [u8]) -> Option<(&'a [u8], usize)>
        ensures { IfSome result (λ found.
            (node_in self.now.file text.now ≡ Some (node_named self.now.net found.0.now))
            × Writes found.0.now found.1) }
    {
        let start = self.prefix.len();
        if start == 0 {
            return None;
        }
        if text.len() <= start {
            return None;
        }
        if !is_same(&text[..start], self.prefix) {
            return None;
        }
        let leaf = &text[start..];
        match number_of(leaf) {
            None => None,
            Some(number) => Some((leaf, number)),
        }
    }

    /// The node whose leaf writes a number, where it came before.
    fn find(&self, number: usize) -> Option<u32>
        ensures named { IfSome result (IsNumbered self.now number) }
    {
        if number >= self.numbers.len() {
            return None;
        }
        let link = self.numbers[number];
        if link == 0 {
            return None;
        }
        Some(link - 1)
    }

    /// Notes the node whose leaf writes a number.
    fn remember(&mut self, number: usize, leaf: &[u8], id: u32)
        requires writes { Writes leaf.now number }
        requires named { slice_get self.old.nodes id ≡ Some (node_named self.old.net leaf.now) }
        ensures { self.new ≡ self.old }
    {
        if number < self.numbers.len() && id < 0xFFFF_FFFF {
            self.numbers[number] = id + 1;
        }
    }

    /// The number of the inner node of a leaf, which is put last where it is new.
    fn see_inner(&mut self, leaf: &[u8], number: usize) -> Result<Option<u32>, NameFault>
        requires { Writes leaf.now number }
        ensures seen { SeesNode result self.old.net self.old.nodes
            (Some (node_named self.old.net leaf.now)) self.new.nodes }
        ensures rest { self.new ≡ record self.old { nodes = self.new.nodes } }
        ensures unchanged { OnErr result (self.new ≡ self.old) }
    {
        match self.find(number) {
            Some(id) => Ok(Some(id)),
            None => self.add_inner(leaf, number),
        }
    }

    /// The same of one that is not found by its number.
    fn add_inner(&mut self, leaf: &[u8], number: usize) -> Result<Option<u32>, NameFault>
        requires { Writes leaf.now number }
        ensures seen { SeesNode result self.old.net self.old.nodes
            (Some (node_named self.old.net leaf.now)) self.new.nodes }
        ensures rest { self.new ≡ record self.old { nodes = self.new.nodes } }
        ensures unchanged { OnErr result (self.new ≡ self.old) }
    {
        let Ok(id) = self.nodes.intern(self.net, leaf) else {
            return Err(NameFault::Memory);
        };
        self.remember(number, leaf, id);
        Ok(Some(id))
    }

    /// The number of a node, which is put last where it is new. Answers `Memory` where there is no room; nothing
    /// changes then.
    pub fn intern(&mut self, node: &Node) -> Result<u32, Memory>
        ensures nodes { OnOk result (self.new
            ≡ record self.old { nodes = with_node self.old.nodes (named_by node.now) }) }
        ensures number { IfOk result (λ id. slice_get self.new.nodes id ≡ Some (named_by node.now)) }
        ensures unchanged { OnErr result (self.new ≡ self.old) }
    {
        self.nodes
            .intern(node.owner.as_bytes(), node.leaf.as_bytes())
    }

    /// The number of a node of the net, which is put last where it is new. `None`: it is another net's. Answers
    /// `Memory` where there is no room; nothing changes then.
    fn own(&mut self, node: &Node) -> Result<Option<u32>, Memory>
        ensures owned { Owns result self.old.net self.old.nodes (named_by node.now) self.new.nodes }
        ensures rest { self.new ≡ record self.old { nodes = self.new.nodes } }
        ensures unchanged { OnErr result (self.new ≡ self.old) }
    {
        self.nodes
            .own(self.net, node.owner.as_bytes(), node.leaf.as_bytes())
    }

    /// The number of the node that a text names, if it is the net's; it is put last where it is new.
    ///
    /// Answers `Bad` where the text names no node, and `Memory` where there is no room; nothing changes then.
    pub fn see(&mut self, text: &'a [u8]) -> Result<Option<u32>, NameFault>
        ensures seen { SeesNode result self.old.net self.old.nodes (node_in self.old.file text.now) self.new.nodes }
        ensures rest { self.new ≡ record self.old { nodes = self.new.nodes } }
        ensures unchanged { OnErr result (self.new ≡ self.old) }
    {
        match self.inner_leaf(text) {
            Some((leaf, number)) => self.see_inner(leaf, number),
            None => self.see_other(text),
        }
    }

    /// The node of a text that is known.
    fn recall(&self, text: &[u8]) -> Option<u32>
        ensures named { IfSome result (λ id. node_in self.now.file text.now ≡ slice_get self.now.nodes id) }
        ensures within { IfSome result (λ id. id < length self.now.nodes) }
    {
        let slot = slot_of(text);
        if slot >= self.known.len() {
            return None;
        }
        match self.known[slot] {
            None => None,
            Some(known) => {
                if is_same(known.text, text) {
                    Some(known.id)
                } else {
                    None
                }
            }
        }
    }

    /// Puts a text into its slot, which names the node of this number.
    fn keep(&mut self, text: &'a [u8], id: u32)
        requires named { node_in self.old.file text.now ≡ slice_get self.old.nodes id }
        requires within { id < length self.old.nodes }
        ensures { self.new ≡ self.old }
    {
        let slot = slot_of(text);
        if slot < self.known.len() {
            self.known[slot] = Some(Known { text, id });
        }
    }

    /// The same of a text that has not the prefix.
    #[inline(never)]
    fn see_other(&mut self, text: &'a [u8]) -> Result<Option<u32>, NameFault>
        ensures seen { SeesNode result self.old.net self.old.nodes (node_in self.old.file text.now) self.new.nodes }
        ensures rest { self.new ≡ record self.old { nodes = self.new.nodes } }
        ensures unchanged { OnErr result (self.new ≡ self.old) }
    {
        match self.recall(text) {
            Some(id) => Ok(Some(id)),
            None => self.read(text),
        }
    }

    /// The same of a text that is not known.
    fn read(&mut self, text: &'a [u8]) -> Result<Option<u32>, NameFault>
        ensures seen { SeesNode result self.old.net self.old.nodes (node_in self.old.file text.now) self.new.nodes }
        ensures rest { self.new ≡ record self.old { nodes = self.new.nodes } }
        ensures unchanged { OnErr result (self.new ≡ self.old) }
    {
        match read_node(self.alloc, self.index, text) {
            Err(NameFault::Bad) => Err(NameFault::Bad),
            Err(NameFault::Memory) => Err(NameFault::Memory),
            Ok(node) => {
                self.learn(&node, text);
                match self.own(&node) {
                    Err(_) => Err(NameFault::Memory),
                    Ok(None) => Ok(None),
                    Ok(Some(id)) => {
                        self.keep(text, id);
                        Ok(Some(id))
                    }
                }
            }
        }
    }

    /// Takes the prefix from the text of a node, where the node is the net's and there is no prefix yet.
    fn learn(&mut self, node: &Node, text: &'a [u8])
        ensures { self.new ≡ self.old }
    {
        if self.prefix.is_empty() && node.owner.as_bytes() == self.net {
            self.prefix = prefix_of(self.index, self.net, text);
        }
    }

    /// The nodes.
    pub fn into_nodes(self) -> NodeTable
        ensures { result ≡ self.entry.nodes }
    {
        self.nodes
    }
}
