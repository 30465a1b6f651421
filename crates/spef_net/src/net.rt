ghost use Rattle.spef_net.specs.Nets.{IsSound};

use spef_nodes::Nodes;
use vg_num::Row;
use vg_scan::Name;

/// What a connection is at.
#[derive(Clone, Copy, Debug, PartialEq, Eq)]
pub enum ConnKind {
    /// A pin of an instance: its node has a leaf.
    Pin,
    /// A port: its node has no leaf.
    Port,
}

/// Which way a signal goes at a connection, as its pin or port sees it.
#[derive(Clone, Copy, Debug, PartialEq, Eq)]
pub enum Direction {
    /// `I`
    In,
    /// `O`
    Out,
    /// `B`
    Both,
}

/// A connection of a net, at the node of this number.
#[derive(Clone, Copy, Debug, PartialEq, Eq)]
pub struct ParConn {
    pub kind: ConnKind,
    pub node: u32,
    pub direction: Direction,
}

/// A net with its parasitics. Nodes are numbered from 0: connections in order, then inner nodes as they come in the
/// text.
#[derive(Drop)]
pub struct ParNet {
    pub name: Name,
    pub nodes: Nodes,
    pub conns: Row<ParConn>,
    /// A node, and the capacitance there in units of ten to the minus places of the file's unit. A coupling capacitor
    /// stands whole at the node that is this net's.
    pub caps: Row<(u32, u64)>,
    /// Two nodes, and the resistance between them in units of ten to the minus places of the file's unit.
    pub ress: Row<(u32, u32, u64)>,
    /// Whether its section is a reduced one.
    pub reduced: bool,
    /// Whether its section has a part of inductances, which is not read.
    pub inductive: bool,
    pub ghost sound: { IsSound name nodes conns caps ress },
}
