//! What the section of a net is made of.

use crate::printed::Printed;
use spef_net::ParConn;

/// What the section of a net is made of.
#[derive(Drop)]
pub struct Section<'a> {
    /// The name of the net.
    pub name: &'a [u8],
    /// The capacitance of the whole net (aF).
    pub charge: u64,
    pub nodes: &'a Printed,
    pub conns: &'a [ParConn],
    /// The nodes of the capacitors, each once, in the order in which their lines stand. One without a capacitance has
    /// no line.
    pub cap_nodes: &'a [u32],
    /// Two nodes, and the resistance between them (mΩ).
    pub ress: &'a [(u32, u32, u64)],
}
