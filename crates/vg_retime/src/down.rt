//! The way down from the first net.

ghost use Rattle.std.specs.Prelude.{◌≡◌, ◌<◌, ◌≤◌, ◌+◌, ◌^◌, ℕ, List, Some, length, slice_get, IfOk, IfErr, IfSome, OnOk};
ghost use Rattle.cut_laws.specs.Walks.{Signal as SignalSpec};
ghost use Rattle.vg_design.specs.Designs.{Design as DesignValue};
ghost use Rattle.vg_retime.specs.Stops.{IsRefusedDown};
ghost use Rattle.vg_retime.specs.Ways.{wrong_in};
ghost use Rattle.vg_retime.specs.Steps.{IsFirstWithin, IsSizedNet, IsSizedSignal, IsUnderWay, IsVisited, first_of, signal_of, signals_of};
ghost use Rattle.vg_retime.specs.Refusals.{IsRefusedHere};
ghost use Rattle.vg_retime.specs.WalkNets.{IsNetIn, net_name};

use crate::climb::First;
use crate::come::Come;
use crate::signals::{Signal, lates, least_in, pass_on, wrong_in};
use crate::walk_net::{WalkNet, walk_net};
use spef_wire::{Refusal, Refused};
use std::alloc::Global;
use vg_design::Design;
use vg_num::Memory;
use vg_scan::NodeName;

/// A walk on its way down.
#[derive(Drop)]
pub(crate) struct Walk {
    pub first: First,
    /// The nets that have come so far.
    pub come: Come,
    /// The signals so far, breadth first.
    pub signals: Vec<Signal>,
    /// The least time that is left at a sink so far, counted from when the first driver gives the signal on (zs).
    pub least: Option<i128>,
    /// The first sink of the wrong polarity so far.
    pub wrong: Option<NodeName>,
}

/// The walk at the first net.
fn begin(alloc: Global, first: First) -> Result<Walk, Memory>
    ensures walk { IfOk result (λ walk. (design : DesignValue) (prefix : List ℕ)
        → IsFirstWithin (length design.netlist.nets) first → IsUnderWay design prefix 0 walk) }
    ensures first { IfOk result (λ walk. walk.first ≡ first) }
{
    let mut signals = Vec::new(alloc);
    signals.push(Signal {
        net: first.net,
        r: first.driver.r,
        late: 0,
        inverters: 0,
    })?;
    Ok(Walk {
        first,
        come: Come::none(alloc),
        signals,
        least: None,
        wrong: None,
    })
}

/// Notes the first sink of the wrong polarity in a net, where none was noted before.
fn note_wrong(
    alloc: Global,
    net: &WalkNet,
    signal: &Signal,
    wrong: &mut Option<NodeName>,
) -> Result<(), Memory>
    requires { length net.now.names ≡ length net.now.ends }
    ensures { OnOk result (wrong.new ≡ first_of wrong.old (wrong_in net.now (signal_of signal.now))) }
{
    if wrong.is_none() {
        *wrong = wrong_in(alloc, net, signal)?;
    }
    Ok(())
}

/// Meets the sinks of a net to which a signal comes, and passes it on.
fn visit(alloc: Global, net: &WalkNet, signal: &Signal, walk: &mut Walk) -> Result<(), Memory>
    requires net { IsSizedNet (2 ^ 32) net.now }
    requires signal { IsSizedSignal (2 ^ 32) (2 ^ 32) (signal_of signal.now) }
    ensures { OnOk result (IsVisited net.now (signal_of signal.now) walk.old walk.new) }
{
    let lates = lates(alloc, net, signal)?;
    walk.least = least_in(net, &lates, walk.least);
    note_wrong(alloc, net, signal, &mut walk.wrong)?;
    pass_on(net, signal, &lates, &mut walk.signals)?;
    Ok(())
}

/// The net of this number as a walk comes to it, or the first reason against it. It may be known.
fn known_net(
    alloc: Global,
    design: &Design,
    prefix: &[u8],
    id: u32,
    known: Option<WalkNet>,
) -> Result<WalkNet, Refused>
    requires id { id < length design.now.netlist.nets }
    requires known { IfSome known (IsNetIn 17 design.now prefix.now id) }
    requires sized { IfSome known (IsSizedNet (length design.now.netlist.nets)) }
    ensures net { IfOk result (IsNetIn 17 design.now prefix.now id) }
    ensures sized { IfOk result (IsSizedNet (length design.now.netlist.nets)) }
    ensures refused { IfErr result (IsRefusedHere design.now prefix.now (net_name design.now id)) }
{
    match known {
        Some(net) => Ok(net),
        None => walk_net(alloc, design, prefix, id),
    }
}

/// Passes on the signal of this number, or tells the first reason against its net: it came before, or is refused. The
/// net may be known.
fn turn(
    alloc: Global,
    design: &Design,
    prefix: &[u8],
    at: usize,
    known: Option<WalkNet>,
    walk: &mut Walk,
) -> Result<(), Refused>
    requires walk { IsUnderWay design.now prefix.now at walk.old }
    requires at { at < length walk.old.signals.items }
    requires known { (s : SignalSpec) → slice_get (signals_of walk.old) at ≡ Some s
        → IfSome known (IsNetIn 17 design.now prefix.now s.net) }
    requires sized { IfSome known (IsSizedNet (length design.now.netlist.nets)) }
    ensures walk { OnOk result (IsUnderWay design.now prefix.now (at + 1) walk.new) }
    ensures first { OnOk result (walk.new.first ≡ walk.old.first) }
    ensures refused { IfErr result (IsRefusedDown design.now prefix.now walk.old.first) }
{
    design.netlist().is_sound();
    let signal = walk.signals[at];
    if !walk.come.note(signal.net)? {
        return Err(Refused::Net(Refusal::Loop));
    }
    let net = known_net(alloc, design, prefix, signal.net, known)?;
    visit(alloc, &net, &signal, walk)?;
    Ok(())
}

/// The walk down from the first net, which is known, or the first reason against a net on it.
pub(crate) fn go_down(
    alloc: Global,
    design: &Design,
    prefix: &[u8],
    first: First,
    net: WalkNet,
) -> Result<Walk, Refused>
    requires first { IsFirstWithin (length design.now.netlist.nets) first }
    requires net { IsNetIn 17 design.now prefix.now first.net net }
    requires sized { IsSizedNet (length design.now.netlist.nets) net }
    ensures walk { IfOk result (λ walk. IsUnderWay design.now prefix.now (length walk.signals.items) walk) }
    ensures first { IfOk result (λ walk. walk.first ≡ first) }
    ensures refused { IfErr result (IsRefusedDown design.now prefix.now first) }
{
    let mut walk = begin(alloc, first)?;
    turn(alloc, design, prefix, 0, Some(net), &mut walk)?;
    let mut at = 1;
    'signal: while at < walk.signals.len() {
        turn(alloc, design, prefix, at, None, &mut walk)?;
        at += 1;
    }
    Ok(walk)
}
