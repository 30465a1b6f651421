//! What the problem of a net is made of, node by node.

ghost use Rattle.std.specs.Prelude.{◌≡◌, ◌<◌, ◌≤◌, ◌^◌, ℕ, length, map, slice_index_or, IfOk};
ghost use Rattle.std.specs.List.{All};
ghost use Rattle.spef_net.specs.Positions.{position_of};
ghost use Rattle.vg_design.specs.Steps.{ArePins};
ghost use Rattle.elmore.specs.Problems.{AreRising};
ghost use Rattle.vg_cons.specs.Named.{named};
ghost use Rattle.elmore.specs.Trees.{node_at};
ghost use Rattle.spef_wire.specs.Wires.{AreMarks};
ghost use Rattle.vg_design.specs.Designs.{driver_at as driver_by, name_of as name_in, pin_driver as pin_driver_by, port_driver as port_driver_by, sink_load as sink_load_of, NO_NODE};
ghost use Rattle.vg_design.specs.Parts.{allowed_in, free_of as free_in, is_boxed_at, is_free as is_free_in, load_at as load_in, loaded as loaded_in, loaded_tree, reps_of as reps_in, sink_at as sink_in, sink_given as sink_by, sinks_of as sinks_in};

use crate::design::Design;
use crate::pins::PinnedNet;
use elmore::{Driver, Node, Rep, Sink};
use lib_linear::repeaters;
use spef_net::{ParNet, position};
use std::alloc::Global;
use vg_cons::{
    Constraints, NodeRef, arrival, in_box, is_blocked, port_drive, port_load, required,
    wants_inverted,
};
use vg_num::Memory;
use vg_scan::{Name, NodeName};

/// The name of a node of a net.
pub(crate) fn name_of(alloc: Global, net: &ParNet, v: u32) -> Result<NodeName, Memory>
    requires { v < length net.now.nodes }
    ensures { IfOk result (λ name. name ≡ name_in net.now v) }
{
    let name = net.nodes.name(alloc, v as usize)?;
    Ok(name)
}

/// A node of a net by the texts of its name.
pub(crate) fn node_of(net: &ParNet, v: u32) -> NodeRef<'_>
    requires { v < length net.now.nodes }
    ensures { named result ≡ name_in net.now v }
{
    let at = v as usize;
    NodeRef {
        owner: net.nodes.owner(at),
        leaf: net.nodes.leaf(at),
    }
}

/// What the constraints say of a sink; a sink without a required time has 0.
fn sink_given(cons: &Constraints, sink: NodeRef<'_>) -> Sink
    ensures { result ≡ sink_by cons.now (named sink.entry) }
{
    Sink {
        required: required(cons, sink).unwrap_or(0),
        inverted: wants_inverted(cons, sink),
    }
}

/// The sink at a node of a net, if it is one.
fn sink_at(cons: &Constraints, net: &ParNet, marks: &[bool], v: u32) -> Option<Sink>
    requires node { v < length net.now.nodes }
    requires marks { AreMarks net.now marks.now }
    ensures { result ≡ sink_in cons.now net.now v }
{
    if marks[v as usize] {
        Some(sink_given(cons, node_of(net, v)))
    } else {
        None
    }
}

/// For each node of the tree its sink, if it has one.
pub(crate) fn sinks_of(
    alloc: Global,
    cons: &Constraints,
    net: &ParNet,
    marks: &[bool],
    order: &[u32],
) -> Result<Vec<Option<Sink>>, Memory>
    requires nodes { All (λ v. v < length net.now.nodes) order.now }
    requires marks { AreMarks net.now marks.now }
    ensures { IfOk result (λ sinks. sinks.items ≡ sinks_in cons.now net.now order.now) }
{
    let mut sinks = Vec::with_capacity(alloc, order.len())?;
    'node: for v in order {
        sinks.push(sink_at(cons, net, marks, *v))?;
    }
    Ok(sinks)
}

/// The load of the sink that a connection of a net is (aF).
fn sink_load(alloc: Global, design: &Design, net: &PinnedNet, at: usize) -> Result<u64, Memory>
    requires pins { ArePins design.now net.now.net net.now.pins }
    requires at { at < length net.now.net.par.conns }
    ensures { IfOk result (λ load. load ≡ sink_load_of design.now net.now.net (name_in net.now.net.par at)) }
{
    let nodes = &net.net.par.nodes;
    if nodes.leaf(at).is_empty() {
        let port = Name::from_bytes(alloc, nodes.owner(at))?;
        return Ok(port_load(&design.cons, &port));
    }
    Ok(net.cap(design, at).unwrap_or(0))
}

/// The load of the sink at a node of a net (aF), if it is one.
fn load_at(
    alloc: Global,
    design: &Design,
    net: &PinnedNet,
    marks: &[bool],
    v: u32,
) -> Result<u64, Memory>
    requires pins { ArePins design.now net.now.net net.now.pins }
    requires node { v < length net.now.net.par.nodes }
    requires marks { AreMarks net.now.net.par marks.now }
    ensures { IfOk result (λ load. load ≡ load_in design.now net.now.net v) }
{
    if !marks[v as usize] {
        return Ok(0);
    }
    let load = sink_load(alloc, design, net, v as usize)?;
    Ok(load)
}

/// A node of the tree with its load, where it is node `v` of the net.
fn node_with_load(
    alloc: Global,
    design: &Design,
    net: &PinnedNet,
    marks: &[bool],
    node: Node,
    v: u32,
) -> Result<Node, Memory>
    requires pins { ArePins design.now net.now.net net.now.pins }
    requires node { v < length net.now.net.par.nodes }
    requires marks { AreMarks net.now.net.par marks.now }
    requires small { node.c < 2 ^ 127 }
    ensures { IfOk result (λ loaded. loaded ≡ loaded_in design.now net.now.net node v) }
{
    let load = load_at(alloc, design, net, marks, v)?;
    Ok(Node {
        parent: node.parent,
        r: node.r,
        c: node.c + u128::from(load),
    })
}

/// The nodes of the tree with their loads.
pub(crate) fn loaded_nodes(
    alloc: Global,
    design: &Design,
    net: &PinnedNet,
    marks: &[bool],
    tree: &[Node],
    order: &[u32],
) -> Result<Vec<Node>, Memory>
    requires pins { ArePins design.now net.now.net net.now.pins }
    requires one_each { length order.now ≡ length tree.now }
    requires nodes { All (λ v. v < length net.now.net.par.nodes) order.now }
    requires marks { AreMarks net.now.net.par marks.now }
    requires small { (i : ℕ) → (node_at tree.now i).c < 2 ^ 127 }
    ensures { IfOk result (λ nodes. nodes.items ≡ loaded_tree design.now net.now.net tree.now order.now) }
{
    let mut nodes = Vec::with_capacity(alloc, tree.len())?;
    'node: for i in 0..tree.len() {
        nodes.push(node_with_load(alloc, design, net, marks, tree[i], order[i])?)?;
    }
    Ok(nodes)
}

/// What drives a net, which is a port.
fn port_driver(cons: &Constraints, name: &NodeName) -> Driver
    ensures { result ≡ port_driver_by cons.now name.now }
{
    let (r, k) = port_drive(cons, &name.owner);
    let arrival = arrival(cons, NodeRef::of(name));
    Driver {
        k,
        r,
        arrival,
        limit: None,
    }
}

/// What drives a net, which is a pin: this connection, of this name.
fn pin_driver(design: &Design, net: &PinnedNet, at: usize, name: &NodeName) -> Driver
    requires pins { ArePins design.now net.now.net net.now.pins }
    requires at { at < length net.now.net.par.conns }
    requires name { name.now ≡ name_in net.now.net.par at }
    ensures { result ≡ pin_driver_by design.now net.now.net name.now }
{
    let (k, r) = net.drive(design, at).unwrap_or((0, 0));
    Driver {
        k: i128::from(k),
        r,
        arrival: arrival(&design.cons, NodeRef::of(name)),
        limit: net.limit(design, at),
    }
}

/// What drives a net, where this is the connection.
pub(crate) fn driver_at(
    alloc: Global,
    design: &Design,
    net: &PinnedNet,
    at: usize,
) -> Result<Driver, Memory>
    requires pins { ArePins design.now net.now.net net.now.pins }
    requires at { at < length net.now.net.par.conns }
    ensures { IfOk result (λ driver. driver ≡ driver_by design.now net.now.net (name_in net.now.net.par at)) }
{
    let name = net.net.par.nodes.name(alloc, at)?;
    if name.leaf.as_bytes().is_empty() {
        Ok(port_driver(&design.cons, &name))
    } else {
        Ok(pin_driver(design, net, at, &name))
    }
}

/// Whether a box holds the position that a node notes.
fn is_boxed(cons: &Constraints, note: &[u8]) -> bool
    ensures { result ≡ is_boxed_at cons.now (position_of note.now) }
{
    match position(note) {
        None => false,
        Some((x, y)) => in_box(cons, x, y),
    }
}

/// Whether a node may have a cell.
fn is_free(cons: &Constraints, net: &ParNet, v: u32) -> bool
    requires { v < length net.now.nodes }
    ensures { result ≡ is_free_in cons.now (slice_index_or net.now.nodes v NO_NODE) }
{
    let at = v as usize;
    net.nodes.is_inner(at)
        && !is_blocked(cons, node_of(net, v))
        && !is_boxed(cons, net.nodes.note(at))
}

/// For each node of the tree whether it may have a cell.
pub(crate) fn free_of(
    alloc: Global,
    cons: &Constraints,
    net: &ParNet,
    order: &[u32],
) -> Result<Vec<bool>, Memory>
    requires nodes { All (λ v. v < length net.now.nodes) order.now }
    ensures { IfOk result (λ free. free.items ≡ free_in cons.now net.now order.now) }
{
    let mut free = Vec::with_capacity(alloc, order.len())?;
    'node: for v in order {
        free.push(is_free(cons, net, *v))?;
    }
    Ok(free)
}

/// The repeaters of a library, as a problem has them.
pub(crate) fn reps_of(alloc: Global, design: &Design) -> Result<Vec<Rep>, Memory>
    ensures reps { IfOk result (λ reps. reps.items ≡ reps_in design.now.library.repeaters) }
    ensures rising { IfOk result (λ reps. AreRising reps.items) }
{
    let repeaters = repeaters(&design.library);
    let mut reps = Vec::with_capacity(alloc, repeaters.len())?;
    'repeater: for repeater in repeaters {
        reps.push(repeater.rep)?;
    }
    Ok(reps)
}
