//! The wire delays of a net of a SPEF file.

ghost use Rattle.std.specs.Prelude.{◌≡◌, ◌↔◌, ◌≤◌, ◌<◌, ◌^◌, ◌*◌, ℕ, pos, length, slice_index_or, IsTrue, IfOk, IfErr, OnOk};
ghost use Rattle.std.specs.List.{sum_by, AllZip};
ghost use Rattle.elmore.specs.Wire.{delay_in};
ghost use Rattle.spef_file.specs.Indexes.{IsIndexOf};
ghost use Rattle.spef_wire.specs.Nets.{IsRefusedBelow};
ghost use Rattle.spef_wire.specs.Refusals.{IsNetTree, IsWithinNetLimits, PassesUpTo};
ghost use Rattle.spef_wire.specs.Steps.{IsRefusedFirst, IsSinkPushed};
ghost use Rattle.spef_wire.specs.Wires.{AreMarks, sinks_in, IsDelay, IsWire, IsWireOf};

use crate::limits::{MOST_CAPACITORS, MOST_NODES};
use crate::marks::sink_marks;
use crate::refusal::{Refusal, Refused};
use crate::sink_delays::SinkDelays;
use crate::tree::{NetTree, net_tree};
use elmore::{Scratch, wire_delays};
use spef_file::{SpefIndex, SpefText};
use spef_net::ParNet;
use std::alloc::Global;
use vg_num::Memory;
use vg_scan::Name;

/// The wire delays of a net.
#[derive(Drop)]
pub struct WireNet {
    /// All capacitors together (aF).
    pub total: u128,
    /// Each sink and the wire delay to it (zs), in tree order.
    pub sinks: SinkDelays,
}

/// Whether a net and its tree pass no limit.
fn is_within_limits(found: &NetTree) -> bool
    ensures { IsTrue result ↔ IsWithinNetLimits found.now.net found.now.tree.nodes }
{
    found.net.nodes.len() <= MOST_NODES
        && found.net.caps.len() <= MOST_CAPACITORS
        && found.tree.is_within_limits()
}

/// All capacitors together (aF).
fn total_capacitance(caps: &[(u32, u64)]) -> u128
    requires { length caps.now ≤ 2 ^ 20 }
    ensures total { result ≡ sum_by (λ cap. cap.1) caps.now }
    ensures small { result ≤ 2 ^ 64 * length caps.now }
{
    let mut total = 0;
    'capacitor: for cap in caps {
        total += u128::from(cap.1);
    }
    total
}

/// Appends the name of a node and its delay, where it is a sink's.
fn push_sink(
    net: &ParNet,
    node: u32,
    is_sink: bool,
    delay: i128,
    rows: &mut SinkDelays,
) -> Result<(), Memory>
    requires { node < length net.now.nodes }
    ensures { OnOk result (IsSinkPushed net.now node delay is_sink rows.old rows.new) }
{
    if is_sink {
        let at = node as usize;
        rows.push(net.nodes.owner(at), net.nodes.leaf(at), delay)?;
    }
    Ok(())
}

/// The sinks with their delays (zs), in tree order.
fn sink_delays(
    alloc: Global,
    found: &NetTree,
    marks: &[bool],
    delays: &[i128],
) -> Result<SinkDelays, Memory>
    requires tree { IsNetTree found.now.net found.now.tree.nodes found.now.order }
    requires marks { AreMarks found.now.net marks.now }
    requires room { length found.now.tree.nodes ≤ length delays.now }
    requires delays { (i : ℕ) → i < length found.now.tree.nodes
        → slice_index_or delays.now i (pos 0) ≡ pos (delay_in found.now.tree.nodes i) }
    ensures { IfOk result (λ rows.
        AllZip (IsDelay found.now.net found.now.tree.nodes found.now.order)
        (sinks_in found.now.net found.now.order) rows) }
{
    let order = found.order.as_slice();
    let mut rows = SinkDelays::new(alloc);
    'node: for i in 0..order.len() {
        let node = order[i];
        let is_sink = marks[node as usize];
        push_sink(&found.net, node, is_sink, delays[i], &mut rows)?;
    }
    Ok(rows)
}

/// The wire delays of a net with its tree, within the limits.
fn delays_of(alloc: Global, found: &NetTree) -> Result<WireNet, Memory>
    requires tree { IsNetTree found.now.net found.now.tree.nodes found.now.order }
    requires within { IsWithinNetLimits found.now.net found.now.tree.nodes }
    ensures wire { IfOk result (IsWire found.now.net) }
    ensures small { IfOk result (λ wire. wire.total < 2 ^ 127) }
{
    let net = &found.net;
    let mut scratch = Scratch::new(alloc, found.tree.nodes.len())?;
    wire_delays(&found.tree, &mut scratch);
    let marks = sink_marks(alloc, net)?;
    let sinks = sink_delays(alloc, found, &marks, scratch.delays())?;
    Ok(WireNet {
        total: total_capacitance(net.caps.as_slice()),
        sinks,
    })
}

/// The wire delays of a net with its tree.
fn wire_of(alloc: Global, found: &NetTree) -> Result<WireNet, Refused>
    requires tree { IsNetTree found.now.net found.now.tree.nodes found.now.order }
    requires accepted { PassesUpTo 15 found.now.net }
    ensures wire { IfOk result (IsWire found.now.net) }
    ensures small { IfOk result (λ wire. wire.total < 2 ^ 127) }
    ensures accepted { IfOk result (λ _. PassesUpTo 17 found.now.net) }
    ensures refused { IfErr result (IsRefusedFirst 17 found.now.net) }
{
    if !is_within_limits(found) {
        return Err(Refused::Net(Refusal::TooLarge));
    }
    let wire = delays_of(alloc, found)?;
    Ok(wire)
}

/// The wire delays of the net of a name in a SPEF file (IEEE Std 1481).
///
/// `index` is the index of the file's text. A net is refused by the first reason of `Refusal` that holds. Answers
/// `Memory` where there is no room.
pub fn wire_net(
    alloc: Global,
    spef: &SpefText,
    index: &SpefIndex,
    net: &Name,
) -> Result<WireNet, Refused>
    requires { IsIndexOf spef.now index.now }
    ensures wire { IfOk result (IsWireOf spef.now net.now) }
    ensures small { IfOk result (λ wire. wire.total < 2 ^ 127) }
    ensures refused { IfErr result (IsRefusedBelow 17 spef.now net.now) }
{
    let found = net_tree(alloc, spef, index, net)?;
    let wire = wire_of(alloc, &found)?;
    Ok(wire)
}
