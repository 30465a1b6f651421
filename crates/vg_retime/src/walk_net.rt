//! A net as a walk comes to it.

ghost use Rattle.std.specs.Prelude.{◌≡◌, ◌<◌, length, find, map, IfOk, IfErr};
ghost use Rattle.std.specs.List.{All};
ghost use Rattle.spef_net.specs.declared.net.ParConn.{ParConn as ConnSpec};
ghost use Rattle.vg_design.specs.Designs.{name_of};
ghost use Rattle.vg_design.specs.Parts.{sink_at};
ghost use Rattle.vg_design.specs.Steps.{ArePins};
ghost use Rattle.vg_retime.specs.Passages.{above_at, end_in};
ghost use Rattle.vg_retime.specs.Refusals.{is_unconstrained_here, FindsUnconstrainedHere, IsRefusedHere};
ghost use Rattle.vg_retime.specs.Steps.{IsSizedNet};
ghost use Rattle.vg_retime.specs.WalkNets.{walk_end, IsNetIn, IsNetOf, net_name};

use crate::passages::{from_at, into_at};
use elmore::{Driver, Rep, Sink, Tree};
use spef_net::ParConn;
use spef_wire::{Refusal, Refused};
use std::alloc::Global;
use std::marker::Model;
use vg_design::{Design, PinnedNet, TreeNames, is_unconstrained, problem_of, ready_net};
use vg_num::Memory;
use vg_scan::{Name, NodeName};

/// What stands at a node of a net.
#[derive(Clone, Copy, Debug, Drop)]
pub(crate) enum End {
    Nothing,
    Sink(Sink),
    /// The input of a cell that was put in, and the net at its output, if it is at one.
    Passes(Rep, Option<u32>),
}

/// What is above a net.
#[derive(Clone, Copy, Debug, Drop)]
pub(crate) enum Above {
    /// Nothing: no cell that was put in drives it.
    First,
    /// The net at the input of the cell that was put in and drives it.
    Net(u32),
    /// Such a cell, whose input is at no net.
    Open,
}

/// A net as a walk comes to it: its tree with the loads of its sinks, what stands at each node of the tree and how it
/// is named, what drives the net, and what is above it.
#[derive(Drop)]
pub(crate) struct WalkNet {
    pub tree: Tree,
    pub ends: Vec<End>,
    pub names: TreeNames,
    pub driver: Driver,
    pub above: Above,
}

impl Model for WalkNet {
    ghost use Rattle.std.specs.Prelude.{map};
    ghost use Rattle.vg_retime.specs.WalkNets.{WalkNet as WalkNetSpec, walk_end};

    ghost Value = { WalkNetSpec };

    ghost view = { λ net. record {
      tree = net.tree.nodes;
      ends = map walk_end net.ends.items;
      names = net.names;
      driver = net.driver;
      above = net.above;
    } };
}

/// Whether a connection is a sink that is not passed and has no required time.
fn is_unconstrained_here(design: &Design, prefix: &[u8], net: &PinnedNet, conn: &ParConn) -> bool
    requires pins { ArePins design.now net.now.net net.now.pins }
    requires at { conn.now.node < length net.now.net.par.conns }
    ensures { result ≡ is_unconstrained_here design.now prefix.now net.now.net conn.now }
{
    if into_at(design, prefix, net, conn.node as usize).is_some() {
        return false;
    }
    is_unconstrained(design.cons(), &net.net.par, conn)
}

/// The first sink, in the order of the connections, that is not passed and has no required time.
fn first_unconstrained(design: &Design, prefix: &[u8], net: &PinnedNet) -> Option<ParConn>
    requires { ArePins design.now net.now.net net.now.pins }
    ensures { result ≡ find (is_unconstrained_here design.now prefix.now net.now.net) net.now.net.par.conns }
{
    'connection: for conn in net.net.par.conns.as_slice() {
        if is_unconstrained_here(design, prefix, net, conn) {
            return Some(*conn);
        }
    }
    None
}

/// The name of the first sink that is not passed and has no required time, if there is one.
fn unconstrained_sink(
    alloc: Global,
    design: &Design,
    prefix: &[u8],
    net: &PinnedNet,
) -> Result<Option<NodeName>, Memory>
    requires { ArePins design.now net.now.net net.now.pins }
    ensures { IfOk result (FindsUnconstrainedHere design.now prefix.now net.now.net) }
{
    match first_unconstrained(design, prefix, net) {
        None => Ok(None),
        Some(sink) => Ok(Some(net.net.par.nodes.name(alloc, sink.node as usize)?)),
    }
}

/// What stands at a node of a net, where this is its sink, if it has one.
fn end_at(design: &Design, prefix: &[u8], net: &PinnedNet, v: u32, sink: Option<Sink>) -> End
    requires pins { ArePins design.now net.now.net net.now.pins }
    requires sink { sink ≡ sink_at design.now.rows net.now.net.par v }
    ensures { walk_end result ≡ end_in design.now prefix.now net.now.net v }
{
    let Some(goal) = sink else {
        return End::Nothing;
    };
    match into_at(design, prefix, net, v as usize) {
        None => End::Sink(goal),
        Some(passage) => End::Passes(passage.repeater.rep, passage.net_out()),
    }
}

/// What stands at each node of the tree, where these are the sinks.
fn ends_of(
    alloc: Global,
    design: &Design,
    prefix: &[u8],
    net: &PinnedNet,
    order: &[u32],
    sinks: &[Option<Sink>],
) -> Result<Vec<End>, Memory>
    requires pins { ArePins design.now net.now.net net.now.pins }
    requires sinks { sinks.now ≡ map (sink_at design.now.rows net.now.net.par) order.now }
    ensures { IfOk result (λ ends. map walk_end ends.items ≡ map (end_in design.now prefix.now net.now.net) order.now) }
{
    let mut ends = Vec::with_capacity(alloc, order.len())?;
    'node: for i in 0..order.len() {
        ends.push(end_at(design, prefix, net, order[i], sinks[i]))?;
    }
    Ok(ends)
}

/// What is above a net that this connection drives.
fn above_of(design: &Design, prefix: &[u8], net: &PinnedNet, driver: usize) -> Above
    requires pins { ArePins design.now net.now.net net.now.pins }
    requires driver { driver < length net.now.net.par.conns }
    ensures { result ≡ above_at design.now prefix.now net.now.net (name_of net.now.net.par driver) }
{
    match from_at(design, prefix, net, driver) {
        None => Above::First,
        Some(passage) => match passage.net_in() {
            None => Above::Open,
            Some(next) => Above::Net(next),
        },
    }
}

/// The net of a name as a walk comes to it, or the first reason of `Refusal` against it, where only a sink that is not
/// passed needs a required time.
fn net_named(alloc: Global, design: &Design, prefix: &[u8], name: &Name) -> Result<WalkNet, Refused>
    ensures net { IfOk result (IsNetOf 17 design.now prefix.now name.now) }
    ensures sized { IfOk result (IsSizedNet (length design.now.netlist.nets)) }
    ensures refused { IfErr result (IsRefusedHere design.now prefix.now name.now) }
{
    design.netlist().is_sound();
    let ready = ready_net(alloc, design, name)?;
    if let Some(sink) = unconstrained_sink(alloc, design, prefix, &ready.pinned)? {
        return Err(Refused::Net(Refusal::Unconstrained(sink)));
    }
    let Some(problem) = problem_of(alloc, design, &ready)? else {
        return Err(Refused::Net(Refusal::TooLarge));
    };
    let order = ready.order.as_slice();
    let sinks = problem.sinks.as_slice();
    let ends = ends_of(alloc, design, prefix, &ready.pinned, order, sinks)?;
    let above = above_of(design, prefix, &ready.pinned, order[0] as usize);
    Ok(WalkNet {
        tree: problem.tree,
        ends,
        driver: problem.driver,
        above,
        names: ready.into_names(),
    })
}

/// The name of the net of this number.
fn name_of_net(alloc: Global, design: &Design, id: u32) -> Result<Name, Memory>
    requires { id < length design.now.netlist.nets }
    ensures { IfOk result (λ name. name ≡ net_name design.now id) }
{
    let mut bytes = Vec::new(alloc);
    design.netlist().net(id).push_name(&mut bytes)?;
    let name = Name::from_bytes(alloc, &bytes)?;
    Ok(name)
}

/// The net of this number as a walk comes to it, or the first reason of `Refusal` against it, where only a sink that is
/// not passed needs a required time.
pub(crate) fn walk_net(
    alloc: Global,
    design: &Design,
    prefix: &[u8],
    id: u32,
) -> Result<WalkNet, Refused>
    requires { id < length design.now.netlist.nets }
    ensures net { IfOk result (IsNetIn 17 design.now prefix.now id) }
    ensures sized { IfOk result (IsSizedNet (length design.now.netlist.nets)) }
    ensures refused { IfErr result (IsRefusedHere design.now prefix.now (net_name design.now id)) }
{
    let name = name_of_net(alloc, design, id)?;
    let net = net_named(alloc, design, prefix, &name)?;
    Ok(net)
}
