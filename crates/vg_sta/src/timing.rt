//! The timing of a design.

ghost use Rattle.std.specs.Prelude.{◌≡◌, ◌<◌, ◌≤◌, ◌^◌, length, IfOk, IfErr};
ghost use Rattle.sta_graph.specs.Answers.{IsFaultOf};
ghost use Rattle.vg_design.specs.Designs.{net_names};
ghost use Rattle.vg_sta.specs.Ends.{AreNamed, IsEndAt, IsListedGraph, IsNameOf, IsNodeOf, IsTimedGraph};
ghost use Rattle.vg_sta.specs.Timings.{IsFault, IsTimed};

use crate::answer::{Sta, StaFault, StaNet};
use crate::build::{Lists, lists_of};
use crate::leads::MOST;
use crate::outputs::Outputs;
use spef_wire::Refused;
use sta_graph::{Graph, SlackFault, Slacks, time_graph};
use std::alloc::Global;
use vg_design::{Design, bare_net};
use vg_num::{Memory, Row};
use vg_scan::{Name, NodeName};

/// The graph of a design, and for each sink its node in the tree of its net.
#[derive(Drop)]
struct Listed {
    graph: Graph,
    nodes: Vec<u32>,
}

/// The graph of a design, or the first net that is refused.
fn graph_of(alloc: Global, design: &Design) -> Result<Listed, StaFault>
    requires { length (net_names design.now.spef) ≤ 2 ^ 30 }
    ensures graph { IfOk result (IsListedGraph design.now) }
    ensures fault { IfErr result (IsFault design.now) }
{
    let outputs = Outputs::of(alloc, design)?;
    let Lists {
        arrivals,
        sinks,
        leads,
        nodes,
    } = lists_of(alloc, design, &outputs)?;
    let graph = Graph {
        arrivals: Row::from_vec(arrivals),
        sinks: Row::from_vec(sinks),
        leads: Row::from_vec(leads),
    };
    Ok(Listed { graph, nodes })
}

/// The name of the node of a net's tree, where the net is that of a section.
fn node_name(
    alloc: Global,
    design: &Design,
    section: usize,
    node: usize,
) -> Result<NodeName, Memory>
    requires section { section < length (net_names design.now.spef) }
    requires net { IsNodeOf design.now section node }
    ensures { IfOk result (IsNameOf design.now section node) }
{
    let name = Name::from_bytes(alloc, design.net_name(section))?;
    match bare_net(alloc, design, &name) {
        Ok(net) => Ok(net.names.name(alloc, node)?),
        Err(Refused::Net(_)) => unreachable!(),
        Err(Refused::Memory) => Err(Memory),
    }
}

/// The name of the sink of this number.
fn sink_name(alloc: Global, design: &Design, listed: &Listed, sink: u32) -> Result<NodeName, Memory>
    requires listed { IsListedGraph design.now listed.now }
    requires sink { sink < length listed.now.graph.sinks }
    ensures { IfOk result (IsEndAt design.now listed.now sink) }
{
    let section = listed.graph.sinks.as_slice()[sink as usize].net;
    let node = listed.nodes[sink as usize];
    node_name(alloc, design, section as usize, node as usize)
}

/// The nets of a design with their slacks.
fn named_slacks(alloc: Global, design: &Design, slacks: &[i128]) -> Result<Vec<StaNet>, Memory>
    requires { length slacks.now ≡ length (net_names design.now.spef) }
    ensures { IfOk result (λ nets. AreNamed design.now slacks.now nets.items) }
{
    let mut nets = Vec::with_capacity(alloc, slacks.len())?;
    'section: for at in 0..slacks.len() {
        nets.push(StaNet {
            net: Name::from_bytes(alloc, design.net_name(at))?,
            slack: slacks[at],
        })?;
    }
    Ok(nets)
}

/// The slacks of a design by its names, where its graph has these.
fn named(alloc: Global, design: &Design, listed: &Listed, found: &Slacks) -> Result<Sta, Memory>
    requires listed { IsListedGraph design.now listed.now }
    requires found { IsTimedGraph listed.now.graph found.now }
    ensures { IfOk result (IsTimed design.now) }
{
    let end = sink_name(alloc, design, listed, found.end)?;
    let nets = named_slacks(alloc, design, found.nets.as_slice())?;
    Ok(Sta {
        worst: found.worst,
        end,
        nets: Row::from_vec(nets),
    })
}

/// Why a design has no slacks, where its graph has none.
fn named_fault(alloc: Global, design: &Design, listed: &Listed, fault: SlackFault) -> StaFault
    requires listed { IsListedGraph design.now listed.now }
    requires fault { IsFaultOf listed.now.graph fault }
    ensures { IsFault design.now result }
{
    let _ = listed;
    match fault {
        SlackFault::Cycle(section) => {
            match Name::from_bytes(alloc, design.net_name(section as usize)) {
                Ok(name) => StaFault::Cycle(name),
                Err(_) => StaFault::Memory,
            }
        }
        SlackFault::NoPath => StaFault::NoPath,
        SlackFault::Memory => StaFault::Memory,
    }
}

/// Times a whole design without new cells: over all paths from the drivers of nets to which no sink leads, through nets
/// and cells, to the sinks that lead nowhere. A sink that is an input of an instance leads to the net of an output of
/// this instance, where the library names the input as related to the output.
///
/// The delay of a path is the sum of Elmore's delays of its nets, each with its own driver; its slack is the required
/// time of its last sink less the arrival at its first driver and the delay. Required times at other sinks, and arrivals
/// at other drivers, have no effect. There are no clocks, no edges and no slews. The work is linear in the files and in
/// the pairs of an input and an output that it leads to; a net is read once, and that of the first endpoint once more.
///
/// Answers the first net of the SPEF file that is refused: by the first reason of `Refusal` that holds but
/// `Unconstrained`, or as `Unconstrained` with its first endpoint, in tree order, without a required time. Else `Cycle`
/// with the first net that lies on a cycle of nets or behind one, and `NoPath` where the file has no net. Answers
/// `Memory` where there is no room, as where there are more than 2^30 nets, sinks or leads.
///
/// R. B. Hitchcock, "Timing verification and the timing analysis program", Design Automation Conference 1982.
pub fn sta(alloc: Global, design: &Design) -> Result<Sta, StaFault>
    ensures timed { IfOk result (IsTimed design.now) }
    ensures fault { IfErr result (IsFault design.now) }
{
    if MOST < design.net_count() {
        return Err(StaFault::Memory);
    }
    let listed = graph_of(alloc, design)?;
    match time_graph(alloc, &listed.graph) {
        Ok(found) => Ok(named(alloc, design, &listed, &found)?),
        Err(fault) => Err(named_fault(alloc, design, &listed, fault)),
    }
}
