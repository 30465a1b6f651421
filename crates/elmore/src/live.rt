//! Which nodes have a sink at them or below them, and which of those may have a cell.

ghost use Rattle.std.specs.Prelude.{◌≡◌, ℕ, ◌<◌, ◌&&◌, true, false, length, slice_index_or, IfOk};
ghost use Rattle.elmore.specs.Trees.{IsTree};
ghost use Rattle.elmore.specs.Steps.{AreBoth};
ghost use Rattle.elmore.specs.Problems.{is_live, is_sink, live_nodes as live_nodes_of, places as places_of};

use crate::parts::Sink;
use crate::tree::Node;
use std::alloc::Global;
use vg_num::{Memory, Row};

/// What the nodes are, one element for each.
#[derive(Drop)]
pub(crate) struct Marks {
    /// Whether a sink is at the node or below it.
    pub(crate) live: Row<bool>,
    /// Whether the node may have a cell.
    pub(crate) places: Row<bool>,
}

impl Marks {
    /// The marks of a net of which these nodes are free, and no sink is.
    pub(crate) fn of(
        alloc: Global,
        nodes: &[Node],
        sinks: &[Option<Sink>],
        free: &[bool],
    ) -> Result<Marks, Memory>
        requires tree { IsTree nodes.now }
        requires sinks_each { length sinks.now ≡ length nodes.now }
        requires free_each { length free.now ≡ length nodes.now }
        requires no_sink { (v : ℕ) → is_sink sinks.now v ≡ true → slice_index_or free.now v false ≡ false }
        ensures live { IfOk result (λ marks. marks.live ≡ live_nodes_of nodes.now sinks.now) }
        ensures places { IfOk result (λ marks. marks.places ≡ places_of nodes.now sinks.now free.now) }
    {
        let live = live_nodes(alloc, nodes, sinks)?;
        let places = free_and_live(alloc, free, live.as_slice())?;
        Ok(Marks { live, places })
    }
}

/// For each node whether a sink is at it or below it.
fn live_nodes(alloc: Global, nodes: &[Node], sinks: &[Option<Sink>]) -> Result<Row<bool>, Memory>
    requires tree { IsTree nodes.now }
    requires sinks_each { length sinks.now ≡ length nodes.now }
    ensures { IfOk result (λ live. live ≡ live_nodes_of nodes.now sinks.now) }
{
    let mut live = vec![in alloc; false; nodes.len()]?;
    mark_sinks(sinks, &mut live);
    mark_above(nodes, sinks, &mut live);
    Ok(Row::from_vec(live))
}

fn mark_sinks(sinks: &[Option<Sink>], live: &mut [bool])
    requires { length live.old ≡ length sinks.now }
    ensures { (v : ℕ) → v < length sinks.now → slice_index_or live.new v false ≡ is_sink sinks.now v }
{
    'sinks: for v in 0..sinks.len() {
        live[v] = sinks[v].is_some();
    }
}

/// Marks the nodes above those that are marked, the sinks: from the last node on, each that is marked marks its parent.
fn mark_above(nodes: &[Node], sinks: &[Option<Sink>], live: &mut [bool])
    requires tree { IsTree nodes.now }
    requires room { length live.old ≡ length nodes.now }
    requires marked { (v : ℕ) → v < length nodes.now → slice_index_or live.old v false ≡ is_sink sinks.now v }
    ensures { (v : ℕ) → v < length nodes.now → slice_index_or live.new v false ≡ is_live nodes.now sinks.now v }
{
    'up: for v in (1..nodes.len()).rev() {
        if live[v] {
            let parent = nodes[v].parent as usize;
            live[parent] = true;
        }
    }
}

/// For each node whether it is both free and live.
fn free_and_live(alloc: Global, free: &[bool], live: &[bool]) -> Result<Row<bool>, Memory>
    requires { length live.now ≡ length free.now }
    ensures one_each { IfOk result (λ places. length places ≡ length free.now) }
    ensures both { IfOk result (AreBoth free.now live.now) }
{
    let mut places = vec![in alloc; false; free.len()]?;
    mark_both(free, live, &mut places);
    Ok(Row::from_vec(places))
}

fn mark_both(free: &[bool], live: &[bool], places: &mut [bool])
    requires live_each { length live.now ≡ length free.now }
    requires room { length places.old ≡ length free.now }
    ensures { (v : ℕ) → v < length free.now
        → slice_index_or places.new v false ≡ (slice_index_or free.now v false && slice_index_or live.now v false) }
{
    'places: for v in 0..free.len() {
        places[v] = free[v] && live[v];
    }
}
