//! The leads in an order in which those into a net come before those out of it, as far as there is one.

ghost use Rattle.std.specs.Prelude.{◌≡◌, ◌==◌, ◌<◌, ◌≤◌, ◌+◌, ◌-◌, ◌^◌, ◌++◌, ◌∷◌, [], true, ℕ, length, slice_index, slice_set, List, IfOk};
ghost use Rattle.sta_graph.specs.Paths.{IsGraph, from_of, to_of, net_count};
ghost use Rattle.sta_graph.specs.Orders.{IsPeeled};
ghost use Rattle.sta_graph.specs.Passes.{IsSmall};
ghost use Rattle.sta_graph.specs.Peeling.{IsPeeling, AreLinksFrom, AreLeftNets, AreReadyNets, AreFree, AreCounts, with_one_less, with_ready_at};

use crate::graph::Graph;
use std::alloc::Global;
use vg_num::Memory;

/// For each net the numbers of the leads from it, rising: its first one, and for each lead the one that follows.
#[derive(Drop)]
pub(crate) struct Links {
    first: Vec<u32>,
    next: Vec<u32>,
}

/// The net that lead `i` comes from.
fn from_net(g: &Graph, i: usize) -> usize
    requires graph { IsGraph g.now }
    requires small { IsSmall g.now }
    requires lead { i < length g.now.leads }
    ensures { result ≡ from_of g.now i }
{
    let lead = g.leads.as_slice()[i];
    g.sinks.as_slice()[lead.sink as usize].net as usize
}

/// The net that lead `i` goes to.
fn to_net(g: &Graph, i: usize) -> usize
    requires { i < length g.now.leads }
    ensures { result ≡ to_of g.now i }
{
    g.leads.as_slice()[i].net as usize
}

/// From the last lead on, each comes before those that its net has by then.
fn fill(g: &Graph, first: &mut [u32], next: &mut [u32])
    requires graph { IsGraph g.now }
    requires small { IsSmall g.now }
    requires nets { length first.old ≡ net_count g.now }
    requires leads { length next.old ≡ length g.now.leads }
    requires none { (v : ℕ) → v < length first.old → slice_index first.old v ≡ length g.now.leads }
    ensures { AreLinksFrom g.now 0 first.new next.new }
{
    'leads: for i in (0..g.leads.len()).rev() {
        let from = from_net(g, i);
        next[i] = first[from];
        first[from] = i as u32;
    }
}

/// The leads of each net.
fn link(alloc: Global, g: &Graph) -> Result<Links, Memory>
    requires graph { IsGraph g.now }
    requires small { IsSmall g.now }
    ensures { IfOk result (λ links. AreLinksFrom g.now 0 links.first.items links.next.items) }
{
    let none = g.leads.len() as u32;
    let mut first = vec![in alloc; none; g.arrivals.len()]?;
    let mut next = vec![in alloc; none; g.leads.len()]?;
    fill(g, &mut first, &mut next);
    Ok(Links { first, next })
}

/// For each net how many leads go to it.
fn in_counts(alloc: Global, g: &Graph) -> Result<Vec<u32>, Memory>
    requires graph { IsGraph g.now }
    requires small { IsSmall g.now }
    ensures { IfOk result (λ counts. AreCounts g.now (length g.now.leads) counts.items) }
{
    let mut counts = vec![in alloc; 0u32; g.arrivals.len()]?;
    'leads: for i in 0..g.leads.len() {
        let to = to_net(g, i);
        let count = counts[to];
        counts[to] = count + 1;
    }
    Ok(counts)
}

/// The nets whose count is 0, in order.
fn ready_nets(alloc: Global, counts: &[u32]) -> Result<Vec<u32>, Memory>
    requires { length counts.now ≤ 2 ^ 30 }
    ensures { IfOk result (λ ready. AreFree counts.now (length counts.now) ready.items) }
{
    let mut ready = Vec::new(alloc);
    'nets: for v in 0..counts.len() {
        if counts[v] == 0 {
            ready.push(v as u32)?;
        }
    }
    Ok(ready)
}

/// The leads that are listed, the nets that are ready, and for each net how many leads to it are not yet listed.
#[derive(Drop)]
pub(crate) struct Worklist {
    pub(crate) order: Vec<u32>,
    pub(crate) ready: Vec<u32>,
    pub(crate) counts: Vec<u32>,
}

/// Lists the lead `i`; its net is ready where that was the last one to it.
fn take_lead(g: &Graph, i: u32, peel: &mut Worklist) -> Result<(), Memory>
    requires lead { i < length g.now.leads }
    requires net { to_of g.now i < length peel.old.counts.items }
    requires low { to_of g.now i < 2 ^ 30 }
    requires counted { 0 < slice_index peel.old.counts.items (to_of g.now i) }
    ensures order { IfOk result (λ _. peel.new.order.items ≡ peel.old.order.items ++ i ∷ []) }
    ensures counts { IfOk result (λ _. peel.new.counts.items
        ≡ with_one_less peel.old.counts.items (to_of g.now i)) }
    ensures ready { IfOk result (λ _. peel.new.ready.items
        ≡ with_ready_at peel.old.counts.items peel.old.ready.items (to_of g.now i)) }
{
    let to = to_net(g, i as usize);
    let count = peel.counts[to];
    peel.order.push(i)?;
    peel.counts[to] = count - 1;
    if count == 1 {
        peel.ready.push(to as u32)?;
    }
    Ok(())
}

/// Lists the leads of the ready net at the place `p`.
fn expand(g: &Graph, links: &Links, p: usize, peel: &mut Worklist) -> Result<(), Memory>
    requires graph { IsGraph g.now }
    requires small { IsSmall g.now }
    requires links { AreLinksFrom g.now 0 links.now.first.items links.now.next.items }
    requires place { p < length peel.old.ready.items }
    requires before { IsPeeling g.now peel.old.order.items peel.old.ready.items peel.old.counts.items p 0 }
    ensures { IfOk result (λ _. IsPeeling g.now peel.new.order.items peel.new.ready.items
        peel.new.counts.items (p + 1) 0) }
{
    let net = peel.ready[p];
    let mut i = links.first[net as usize];
    'leads: while (i as usize) < g.leads.len() {
        take_lead(g, i, peel)?;
        i = links.next[i as usize];
    }
    Ok(())
}

/// Lists leads as long as there is one that comes from a net to which all leads are listed.
pub(crate) fn peel(alloc: Global, g: &Graph) -> Result<Worklist, Memory>
    requires graph { IsGraph g.now }
    requires small { IsSmall g.now }
    ensures peeled { IfOk result (λ peel. IsPeeled g.now peel.order.items) }
    ensures counts { IfOk result (λ peel. length peel.counts.items ≡ net_count g.now) }
    ensures zero { IfOk result (λ peel. AreReadyNets g.now peel.order.items peel.counts.items) }
    ensures some { IfOk result (λ peel. AreLeftNets g.now peel.order.items peel.counts.items) }
{
    let links = link(alloc, g)?;
    let counts = in_counts(alloc, g)?;
    let ready = ready_nets(alloc, &counts)?;
    let mut peel = Worklist {
        order: Vec::new(alloc),
        ready,
        counts,
    };
    let mut p = 0;
    'nets: while p < peel.ready.len() {
        expand(g, &links, p, &mut peel)?;
        p += 1;
    }
    Ok(peel)
}
