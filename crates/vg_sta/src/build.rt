//! The graph of a design, net by net.

ghost use Rattle.std.specs.Prelude.{◌≡◌, ◌<◌, ◌≤◌, ◌+◌, ◌++◌, ◌∷◌, ◌^◌, [], length, slice_index, IfOk, IfErr, OnOk};
ghost use Rattle.elmore.specs.Room.{delays_of, room_of};
ghost use Rattle.vg_design.specs.Designs.{net_names};
ghost use Rattle.vg_sta.specs.Delays.{AreDelays};
ghost use Rattle.vg_sta.specs.Graphs.{bare_delay};
ghost use Rattle.vg_sta.specs.Outputs.{outputs_in};
ghost use Rattle.vg_sta.specs.Steps.{AreAdded, AreFew, AreListed, AreWithin, FindsFree, IsSinkAdded, fault_by, is_bound, leads_at};
ghost use Rattle.vg_sta.specs.Timings.{IsFault};

use crate::answer::StaFault;
use crate::delays::{delay_to, time_net};
use crate::leads::{MOST, push_leads};
use crate::outputs::Outputs;
use elmore::Scratch;
use spef_wire::{Refusal, Refused};
use sta_graph::{Lead, Sink};
use std::alloc::Global;
use vg_design::{BareNet, Design, bare_net};
use vg_num::Memory;
use vg_scan::Name;

/// A net has at most so many nodes.
const MOST_NODES: usize = 65536;

/// The lists of a graph, as far as its nets have come.
#[derive(Drop)]
pub(crate) struct Lists {
    /// For each net when the signal reaches its driver (zs).
    pub arrivals: Vec<i128>,
    pub sinks: Vec<Sink>,
    pub leads: Vec<Lead>,
    /// For each sink its node in the tree of its net.
    pub nodes: Vec<u32>,
}

/// Puts the leads of the sink of this number of a net last, which is to be the next sink.
fn add_leads(
    outputs: &Outputs<'_>,
    net: &BareNet,
    at: usize,
    sink: u32,
    leads: &mut Vec<Lead>,
) -> Result<(), Memory>
    requires within { AreWithin outputs.now net.now }
    requires at { at < length net.now.sinks }
    requires few { length leads.old.items ≤ 2 ^ 30 }
    ensures leads { OnOk result (leads.new.items ≡ leads.old.items ++ leads_at outputs.now net.now at sink) }
    ensures few { OnOk result (length leads.new.items ≤ 2 ^ 30) }
{
    let Some(pin) = net.pins.as_slice()[at] else {
        return Ok(());
    };
    let outputs = outputs.of_instance(pin.instance as usize);
    let leaf = net.names.leaf(net.sinks.as_slice()[at] as usize);
    push_leads(outputs, leaf, sink, leads)?;
    Ok(())
}

/// Puts the sink of this number of a net last, with its leads. Answers whether it leads on or has a required time.
fn add_sink(
    outputs: &Outputs<'_>,
    net: &BareNet,
    at: usize,
    section: u32,
    delay: i128,
    lists: &mut Lists,
) -> Result<bool, Memory>
    requires within { AreWithin outputs.now net.now }
    requires at { at < length net.now.sinks }
    requires delay { delay ≡ bare_delay net.now (slice_index net.now.sinks at) }
    requires few { AreFew lists.old }
    ensures sink { OnOk result (IsSinkAdded outputs.now section net.now at lists.old lists.new) }
    ensures bound { IfOk result (λ bound. bound ≡ is_bound outputs.now net.now at) }
{
    if MOST <= lists.sinks.len() {
        return Err(Memory);
    }
    let required = net.required.as_slice()[at];
    let before = lists.leads.len();
    add_leads(outputs, net, at, lists.sinks.len() as u32, &mut lists.leads)?;
    lists.sinks.push(Sink {
        net: section,
        delay,
        required: required.unwrap_or(0),
    })?;
    lists.nodes.push(net.sinks.as_slice()[at])?;
    Ok(before < lists.leads.len() || required.is_some())
}

/// Puts the sinks of the net of a section last, where these are its delays. Answers the first one that neither leads on
/// nor has a required time, as a node of the tree; those behind it are left out then.
fn add_sinks(
    outputs: &Outputs<'_>,
    net: &BareNet,
    section: u32,
    driven: i128,
    delays: &[i128],
    lists: &mut Lists,
) -> Result<Option<u32>, Memory>
    requires within { AreWithin outputs.now net.now }
    requires delays { AreDelays net.now driven delays.now }
    requires few { AreFew lists.old }
    ensures { IfOk result (FindsFree outputs.now section net.now lists.old lists.new) }
{
    'sink: for at in 0..net.sinks.len() {
        let node = net.sinks.as_slice()[at];
        let delay = delay_to(net, driven, delays, node);
        if !add_sink(outputs, net, at, section, delay, lists)? {
            return Ok(Some(node));
        }
    }
    Ok(None)
}

/// Puts the arrival at the driver of a net last.
fn add_arrival(net: &BareNet, lists: &mut Lists) -> Result<(), Memory>
    ensures arrivals { OnOk result (lists.new.arrivals.items
        ≡ lists.old.arrivals.items ++ net.now.driver.arrival ∷ []) }
    ensures sinks { OnOk result (lists.new.sinks.items ≡ lists.old.sinks.items) }
    ensures leads { OnOk result (lists.new.leads.items ≡ lists.old.leads.items) }
    ensures nodes { OnOk result (lists.new.nodes.items ≡ lists.old.nodes.items) }
{
    lists.arrivals.push(net.driver.arrival)?;
    Ok(())
}

/// Why the net of this name is refused by itself, as the fault of a design.
fn fault_of(name: Name, refused: Refused) -> StaFault
    ensures { result ≡ fault_by name refused }
{
    match refused {
        Refused::Net(refusal) => StaFault::Net(name, refusal),
        Refused::Memory => StaFault::Memory,
    }
}

/// Puts the net of a section last.
fn add_net(
    alloc: Global,
    design: &Design,
    outputs: &Outputs<'_>,
    section: usize,
    scratch: &mut Scratch,
    lists: &mut Lists,
) -> Result<(), StaFault>
    requires section { section < length (net_names design.now.spef) }
    requires few { length (net_names design.now.spef) ≤ 2 ^ 30 }
    requires outputs { outputs.now ≡ outputs_in design.now }
    requires room { MOST_NODES ≤ room_of scratch.old }
    requires lists { AreListed design.now section lists.old }
    ensures lists { OnOk result (AreListed design.now (section + 1) lists.new) }
    ensures fault { IfErr result (IsFault design.now) }
    ensures room { OnOk result (room_of scratch.new ≡ room_of scratch.old) }
{
    let name = Name::from_bytes(alloc, design.net_name(section))?;
    let net = match bare_net(alloc, design, &name) {
        Ok(net) => net,
        Err(refused) => return Err(fault_of(name, refused)),
    };
    let driven = time_net(&net, scratch);
    if let Some(node) = add_sinks(
        outputs,
        &net,
        section as u32,
        driven,
        scratch.delays(),
        lists,
    )? {
        let sink = net.names.name(alloc, node as usize)?;
        return Err(StaFault::Net(name, Refusal::Unconstrained(sink)));
    }
    add_arrival(&net, lists)?;
    Ok(())
}

/// No net has come.
fn no_lists(alloc: Global, nets: usize) -> Result<Lists, Memory>
    ensures arrivals { IfOk result (λ lists. lists.arrivals.items ≡ []) }
    ensures sinks { IfOk result (λ lists. lists.sinks.items ≡ []) }
    ensures leads { IfOk result (λ lists. lists.leads.items ≡ []) }
    ensures nodes { IfOk result (λ lists. lists.nodes.items ≡ []) }
{
    Ok(Lists {
        arrivals: Vec::with_capacity(alloc, nets)?,
        sinks: Vec::new(alloc),
        leads: Vec::new(alloc),
        nodes: Vec::new(alloc),
    })
}

/// The lists of the graph of a design, or the first net that is refused.
pub(crate) fn lists_of(
    alloc: Global,
    design: &Design,
    outputs: &Outputs<'_>,
) -> Result<Lists, StaFault>
    requires few { length (net_names design.now.spef) ≤ 2 ^ 30 }
    requires outputs { outputs.now ≡ outputs_in design.now }
    ensures lists { IfOk result (AreListed design.now (length (net_names design.now.spef))) }
    ensures fault { IfErr result (IsFault design.now) }
{
    let mut scratch = Scratch::new(alloc, MOST_NODES)?;
    let mut lists = no_lists(alloc, design.net_count())?;
    'section: for section in 0..design.net_count() {
        add_net(alloc, design, outputs, section, &mut scratch, &mut lists)?;
    }
    Ok(lists)
}
