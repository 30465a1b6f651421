//! A net while its section is read.

ghost use Rattle.std.specs.Prelude.{◌≡◌, ◌||◌, [], ℕ, List, false, Ok, Some, IfOk, OnOk};
ghost use Rattle.std.specs.List.{slice_get};
ghost use Rattle.spef_nodes.specs.Nodes.{note_at, is_joined, is_starred};
ghost use Rattle.spef_nodes.specs.Members.{with_node};
ghost use Rattle.spef_net.specs.Statements.{Opens, Connects, Star};
ghost use Rattle.spef_nodes.specs.Spellings.{named_by};
ghost use Rattle.spef_net.specs.Rows.{is_inductance};
ghost use Rattle.spef_nodes.specs.Names.{node_in};
ghost use Rattle.spef_net.specs.Sights.{Sees, SeesTwo, two_in};
ghost use Rattle.spef_net.specs.Builders.{PartialNet, start_of, IsSameSource, ConnAdded, StarAdded, AddsCap, AddsRes, Takes};

use crate::fault::NetKind;
use crate::net::{ConnKind, Direction, ParConn};
use crate::part::Part;
use spef_nodes::{Node, NodeReader, Notes, is_inner};
use std::alloc::Global;
use std::marker::Model;
use vg_num::{Memory, NumFault};
use vg_scan::NameFault;

/// The nodes so far, what is noted of them, and the rows.
#[derive(Drop)]
pub(crate) struct NetBuilder<'a> {
    pub nodes: NodeReader<'a>,
    pub notes: Notes,
    pub conns: Vec<ParConn>,
    pub caps: Vec<(u32, u64)>,
    pub ress: Vec<(u32, u32, u64)>,
    pub inductive: bool,
}

impl<'a> Model for NetBuilder<'a> {
    ghost use Rattle.spef_net.specs.Builders.{PartialNet, start_of};

    ghost Value = { PartialNet };

    ghost view = { λ builder. record (start_of builder.nodes) {
      notes = builder.notes;
      conns = builder.conns.items;
      caps = builder.caps.items;
      ress = builder.ress.items;
      inductive = builder.inductive;
    } };
}

fn is_inductance(part: Part) -> bool
    ensures { result ≡ is_inductance (Ok (Opens part)) }
{
    matches!(part, Part::Inducs)
}

impl<'a> NetBuilder<'a> {
    /// A net of these nodes, before the first line, with room for so many capacitors and resistors. Answers `Memory`
    /// where there is no room.
    pub fn new(alloc: Global, nodes: NodeReader<'a>, room: usize) -> Result<NetBuilder<'a>, Memory>
        ensures { IfOk result (λ builder. builder ≡ start_of nodes.entry) }
    {
        let caps = Vec::with_capacity(alloc, room)?;
        let ress = Vec::with_capacity(alloc, room)?;
        Ok(NetBuilder {
            nodes,
            notes: Notes::new(alloc),
            conns: Vec::new(alloc),
            caps,
            ress,
            inductive: false,
        })
    }

    /// The number of the node that a text names, if it is the net's; it is put last where it is new.
    ///
    /// Answers `Bad` where the text names no node, and `Memory` where there is no room.
    pub fn see(&mut self, text: &'a [u8]) -> Result<Option<u32>, NameFault>
        ensures seen { Sees result self.old.net self.old (node_in self.old.file text.now) self.new }
        ensures source { IsSameSource self.old self.new }
    {
        self.nodes.see(text)
    }

    /// The same of two texts.
    pub fn see_two(
        &mut self,
        texts: (&'a [u8], &'a [u8]),
    ) -> Result<(Option<u32>, Option<u32>), NameFault>
        ensures seen { SeesTwo result self.old.net self.old
            (two_in self.old.file texts.entry.0.now texts.entry.1.now) self.new }
        ensures source { IsSameSource self.old self.new }
    {
        match self.see(texts.0) {
            Err(NameFault::Bad) => Err(NameFault::Bad),
            Err(NameFault::Memory) => Err(NameFault::Memory),
            Ok(first) => match self.see(texts.1) {
                Err(NameFault::Bad) => Err(NameFault::Bad),
                Err(NameFault::Memory) => Err(NameFault::Memory),
                Ok(second) => Ok((first, second)),
            },
        }
    }

    /// The number of a node, which is put last where it is new.
    fn intern(&mut self, node: &Node) -> Result<u32, Memory>
        ensures nodes { OnOk result (self.new
            ≡ record self.old { nodes = with_node self.old.nodes (named_by node.now) }) }
        ensures number { IfOk result (λ id. slice_get (with_node self.old.nodes (named_by node.now)) id
            ≡ Some (named_by node.now)) }
    {
        let id = self.nodes.intern(node)?;
        Ok(id)
    }

    /// Opens a part.
    pub fn open(&mut self, part: Part)
        ensures { self.new ≡ record self.old { inductive = self.old.inductive || is_inductance (Ok (Opens part)) } }
    {
        self.inductive = self.inductive || is_inductance(part);
    }

    /// Whether something is noted of a node.
    fn is_noted(&self, id: u32) -> bool
        ensures { result ≡ (is_joined (note_at self.now.notes id) || is_starred (note_at self.now.notes id)) }
    {
        self.notes.is_joined(id as usize) || self.notes.is_starred(id as usize)
    }

    fn add_conn(&mut self, conn: ParConn, note: &[u8]) -> Result<(), Memory>
        ensures { OnOk result (ConnAdded self.old conn note.now self.new) }
    {
        self.notes.join(conn.node, note)?;
        self.conns.push(conn)?;
        Ok(())
    }

    fn add_star(&mut self, id: u32, note: &[u8]) -> Result<(), Memory>
        ensures { OnOk result (StarAdded self.old id note.now self.new) }
    {
        self.notes.star(id, note)?;
        Ok(())
    }

    /// Takes a connection. Answers `Conn` where something is noted of its node, and `Memory` where there is no room.
    pub fn join(
        &mut self,
        kind: ConnKind,
        direction: Direction,
        node: &Node,
        note: &[u8],
    ) -> Result<(), NetKind>
        ensures taken { Takes result self.old.net self.old
            (Ok (Connects kind direction (named_by node.now) note.now)) self.new }
        ensures source { OnOk result (IsSameSource self.old self.new) }
    {
        match self.intern(node) {
            Err(_) => Err(NetKind::Memory),
            Ok(id) => {
                if self.is_noted(id) {
                    return Err(NetKind::Conn);
                }
                let conn = ParConn {
                    kind,
                    node: id,
                    direction,
                };
                match self.add_conn(conn, note) {
                    Ok(()) => Ok(()),
                    Err(_) => Err(NetKind::Memory),
                }
            }
        }
    }

    /// Takes a `*N` line: the first note of a node stays.
    ///
    /// Answers `Conn` where its node is no inner one or a connection, and `Memory` where there is no room.
    pub fn star(&mut self, node: &Node, note: &[u8]) -> Result<(), NetKind>
        ensures taken { Takes result self.old.net self.old (Ok (Star (named_by node.now) note.now)) self.new }
        ensures source { OnOk result (IsSameSource self.old self.new) }
    {
        if !is_inner(
            self.nodes.net(),
            node.owner.as_bytes(),
            node.leaf.as_bytes(),
        ) {
            return Err(NetKind::Conn);
        }
        match self.intern(node) {
            Err(_) => Err(NetKind::Memory),
            Ok(id) => {
                if self.notes.is_joined(id as usize) {
                    return Err(NetKind::Conn);
                }
                if self.notes.is_starred(id as usize) {
                    return Ok(());
                }
                match self.add_star(id, note) {
                    Ok(()) => Ok(()),
                    Err(_) => Err(NetKind::Memory),
                }
            }
        }
    }

    /// Adds a capacitor at the node of a number. Answers the fault of its value, and `Memory` where there is no room.
    pub fn add_cap(&mut self, id: u32, value: Result<u64, NumFault>) -> Result<(), NetKind>
        ensures { AddsCap result self.old id value self.new }
    {
        match value {
            Err(fault) => Err(NetKind::Number(fault)),
            Ok(value) => match self.caps.push((id, value)) {
                Ok(()) => Ok(()),
                Err(_) => Err(NetKind::Memory),
            },
        }
    }

    /// Adds a resistor between the nodes of two numbers. Answers the fault of its value, and `Memory` where there is no
    /// room.
    pub fn add_res(&mut self, ends: (u32, u32), value: Result<u64, NumFault>) -> Result<(), NetKind>
        ensures { AddsRes result self.old ends value self.new }
    {
        match value {
            Err(fault) => Err(NetKind::Number(fault)),
            Ok(value) => match self.ress.push((ends.0, ends.1, value)) {
                Ok(()) => Ok(()),
                Err(_) => Err(NetKind::Memory),
            },
        }
    }
}
