//! A net with its resistors cut.

ghost use Rattle.std.specs.Prelude.{◌≡◌, ◌+◌, ◌-◌, ◌*◌, ◌<◌, ◌≤◌, false, length, IfOk};
ghost use Rattle.vg_segment.specs.Segments.{IsSegmented};

use crate::by_node::by_node;
use crate::leaves::free_leaves;
use crate::nodes::cut_nodes;
use crate::parts::cut_ress;
use spef_net::ParNet;
use std::alloc::Global;
use vg_num::{Memory, Row};

/// Cuts each resistor of a net into `parts` parts of equal resistance, one after another from its first node to its
/// second, so that cells can stand along a wire (Alpert and Devgan, Wire Segmenting for Improved Buffer Insertion,
/// DAC 1997).
///
/// Where the mΩ of a resistor do not divide, its first parts have one more. Between two parts is a new node: an inner
/// one of the net, without capacitance and without a note, whose leaf is the least number from 1 on that is free.
/// Every capacitor keeps its node and its aF; they come in the order of the nodes. Answers `Memory` where there is no
/// room.
pub fn segment(alloc: Global, net: &ParNet, parts: u32) -> Result<ParNet, Memory>
    requires some { 0 < parts }
    requires few { parts ≤ 64 }
    requires whole { net.now.reduced ≡ false }
    requires plain { net.now.inductive ≡ false }
    requires size { length net.now.nodes + length net.now.ress * (parts - 1) ≤ 65536 }
    ensures { IfOk result (IsSegmented net.now parts) }
{
    let count = net.ress.len() * (parts - 1) as usize;
    let leaves = free_leaves(alloc, net, count)?;
    let name = net.name.copy(alloc)?;
    let nodes = cut_nodes(alloc, net, leaves.as_slice())?;
    let conns = Vec::from_slice(alloc, net.conns.as_slice())?;
    let caps = by_node(alloc, net.caps.as_slice())?;
    let ress = cut_ress(alloc, net.ress.as_slice(), parts, net.nodes.len() as u32)?;
    Ok(ParNet {
        name,
        nodes,
        conns: Row::from_vec(conns),
        caps,
        ress,
        reduced: net.reduced,
        inductive: net.inductive,
    })
}
