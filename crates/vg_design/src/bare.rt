//! A net without its constraints.

ghost use Rattle.std.specs.Prelude.{◌≡◌, ◌<◌, ◌^◌, filter, map, slice_index, slice_index_or, length, IfOk, IfErr, None};
ghost use Rattle.std.specs.List.{All, range_with_len};
ghost use Rattle.elmore.specs.Problems.{is_sink};
ghost use Rattle.vg_cons.specs.Named.{named};
ghost use Rattle.vg_cons.specs.Rows.{required_of};
ghost use Rattle.vg_design.specs.Nets.{name_at, IsBareNet, IsBareRefused};

use crate::bare_parts::BareNet;
use crate::design::Design;
use crate::names::TreeNames;
use crate::net_problem::problem_of;
use crate::numbers::push_where;
use crate::ready::ready_net;
use elmore::Sink;
use spef_wire::{Refusal, Refused};
use std::alloc::Global;
use ver_net::PinRef;
use vg_cons::{Constraints, NodeRef, required};
use vg_num::{Memory, Row};
use vg_scan::Name;

/// The nodes of the tree that are sinks.
fn sink_nodes(alloc: Global, sinks: &[Option<Sink>]) -> Result<Vec<u32>, Memory>
    requires { length sinks.now < 2 ^ 32 }
    ensures { IfOk result (λ nodes. nodes.items ≡ filter (is_sink sinks.now) (range_with_len 0 (length sinks.now))) }
{
    let mut nodes = Vec::new(alloc);
    'node: for at in 0..sinks.len() {
        push_where(sinks[at].is_some(), at as u32, &mut nodes)?;
    }
    Ok(nodes)
}

/// The pin of the netlist that each of these sinks is, which are nodes of a tree; a port is none.
fn pins_at(
    alloc: Global,
    pins: &[Option<PinRef>],
    order: &[u32],
    sinks: &[u32],
) -> Result<Vec<Option<PinRef>>, Memory>
    requires nodes { All (λ u. u < length order.now) sinks.now }
    requires conns { All (λ u. slice_index order.now u < length pins.now) sinks.now }
    ensures { IfOk result (λ found.
        found.items ≡ map (λ u. slice_index_or pins.now (slice_index order.now u) None) sinks.now) }
{
    let mut found = Vec::with_capacity(alloc, sinks.len())?;
    'sink: for u in sinks {
        found.push(pins[order[*u as usize] as usize])?;
    }
    Ok(found)
}

/// A node of a tree by the texts of its name.
fn node_in(names: &TreeNames, at: usize) -> NodeRef<'_>
    requires { at < length names.now }
    ensures { named result ≡ name_at names.now at }
{
    NodeRef {
        owner: names.owner(at),
        leaf: names.leaf(at),
    }
}

/// The required time of each of these sinks, which are nodes of a tree, where the constraints have one.
fn times_at(
    alloc: Global,
    cons: &Constraints,
    names: &TreeNames,
    sinks: &[u32],
) -> Result<Vec<Option<i128>>, Memory>
    requires { All (λ u. u < length names.now) sinks.now }
    ensures { IfOk result (λ times.
        times.items ≡ map (λ u. required_of cons.now (name_at names.now u)) sinks.now) }
{
    let mut times = Vec::with_capacity(alloc, sinks.len())?;
    'sink: for u in sinks {
        times.push(required(cons, node_in(names, *u as usize)))?;
    }
    Ok(times)
}

/// The net of a name in a design without its constraints. It is refused by the first reason of `Refusal` that holds,
/// but for `Unconstrained`, which does not count. Answers `Memory` where there is no room.
pub fn bare_net(alloc: Global, design: &Design, net: &Name) -> Result<BareNet, Refused>
    ensures net { IfOk result (IsBareNet design.now net.now) }
    ensures refused { IfErr result (IsBareRefused design.now net.now) }
{
    let ready = ready_net(alloc, design, net)?;
    let Some(problem) = problem_of(alloc, design, &ready)? else {
        return Err(Refused::Net(Refusal::TooLarge));
    };
    let sinks = sink_nodes(alloc, problem.sinks.as_slice())?;
    let pins = pins_at(
        alloc,
        ready.pinned.pins.as_slice(),
        ready.order.as_slice(),
        &sinks,
    )?;
    let names = ready.into_names();
    let required = times_at(alloc, design.cons(), &names, &sinks)?;
    Ok(BareNet {
        tree: problem.tree,
        driver: problem.driver,
        names,
        sinks: Row::from_vec(sinks),
        pins: Row::from_vec(pins),
        required: Row::from_vec(required),
    })
}
