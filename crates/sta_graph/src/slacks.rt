//! The least slacks of the paths of a graph.

ghost use Rattle.std.specs.Prelude.{◌≡◌, ◌<◌, ◌≤◌, ◌+◌, ◌^◌, ℕ, length, slice_index, List, IfOk, IfErr, MatchOption, false, is_some, true, ℤ, Some, None};
ghost use Rattle.sta_graph.specs.Paths.{IsGraph, IsLeast, IsFirstEnd, IsAfterCycle, net_count, sink_at, arrival_of, owner};
ghost use Rattle.sta_graph.specs.Orders.{IsWholeOrder};
ghost use Rattle.sta_graph.specs.Passes.{IsSmall, IsForward, IsBackward, IsWithin, time_at};
ghost use Rattle.sta_graph.specs.Begins.{AreLedNets, AreLeadingSinks, AreStarts, AreEnds, IsWorstEnd, IsEnded, IsHeldWithin, AreDifferences, IsWorse, IsWorstSo, IsSlackTo, is_marked};
ghost use Rattle.sta_graph.specs.Answers.{AreSlacks, IsFaultOf};
ghost use Rattle.sta_graph.specs.Peeling.{IsFirstCounted, NoneCounted};

use crate::graph::{Graph, Sink};
use crate::passes::{backward, earlier, forward, held};
use crate::peel::peel;
use std::alloc::Global;
use vg_num::{Memory, Row};

/// The least slacks.
#[derive(Drop)]
pub struct Slacks {
    /// Of all paths.
    pub worst: i128,
    /// The first sink at which a path with that slack ends.
    pub end: u32,
    /// For each net, of the paths through it.
    pub nets: Row<i128>,
}

/// Why there are no slacks.
#[derive(Clone, Copy)]
pub enum SlackFault {
    /// The first net that lies on a cycle or is reached from one.
    Cycle(u32),
    NoPath,
    Memory,
}

/// An endpoint, and the least slack of the paths to it.
#[derive(Clone, Copy)]
pub(crate) struct End {
    sink: u32,
    slack: i128,
}

/// For each net whether a sink leads to it.
fn led_nets(alloc: Global, g: &Graph) -> Result<Vec<bool>, Memory>
    requires { IsGraph g.now }
    ensures { IfOk result (λ marks. AreLedNets g.now marks.items) }
{
    let mut marks = vec![in alloc; false; g.arrivals.len()]?;
    'leads: for i in 0..g.leads.len() {
        let lead = g.leads.as_slice()[i];
        marks[lead.net as usize] = true;
    }
    Ok(marks)
}

/// For each sink whether it leads to a net.
fn leading_sinks(alloc: Global, g: &Graph) -> Result<Vec<bool>, Memory>
    requires { IsGraph g.now }
    ensures { IfOk result (λ marks. AreLeadingSinks g.now marks.items) }
{
    let mut marks = vec![in alloc; false; g.sinks.len()]?;
    'leads: for i in 0..g.leads.len() {
        let lead = g.leads.as_slice()[i];
        marks[lead.sink as usize] = true;
    }
    Ok(marks)
}

/// The net of the least number whose count is not 0.
fn first_left(counts: &[u32]) -> Option<u32>
    requires { length counts.now ≤ 2 ^ 30 }
    ensures { MatchOption result (NoneCounted counts.now) (IsFirstCounted counts.now) }
{
    'nets: for v in 0..counts.len() {
        if counts[v] != 0 {
            return Some(v as u32);
        }
    }
    None
}

/// All leads, those into a net before those out of it.
fn lead_order(alloc: Global, g: &Graph) -> Result<Vec<u32>, SlackFault>
    requires graph { IsGraph g.now }
    requires small { IsSmall g.now }
    ensures order { IfOk result (λ order. IsWholeOrder g.now order.items) }
    ensures fault { IfErr result (IsFaultOf g.now) }
{
    let Ok(peeled) = peel(alloc, g) else {
        return Err(SlackFault::Memory);
    };
    match first_left(&peeled.counts) {
        Some(net) => Err(SlackFault::Cycle(net)),
        None => Ok(peeled.order),
    }
}

/// No time for any of `n` nets.
fn no_times(alloc: Global, n: usize) -> Result<Vec<Option<i128>>, Memory>
    ensures count { IfOk result (λ times. length times.items ≡ n) }
    ensures none { IfOk result (λ times. (v : ℕ) → time_at times.items v ≡ None) }
{
    let times = vec![in alloc; None; n]?;
    Ok(times)
}

fn arrival_at(g: &Graph, v: usize) -> i128
    requires { v < net_count g.now }
    ensures { result ≡ arrival_of g.now v }
{
    g.arrivals.as_slice()[v]
}

fn sink_at(g: &Graph, j: usize) -> Sink
    requires { j < length g.now.sinks }
    ensures { result ≡ sink_at g.now j }
{
    g.sinks.as_slice()[j]
}

/// The arrivals at the starts.
fn first_arrivals(alloc: Global, g: &Graph, led: &[bool]) -> Result<Vec<Option<i128>>, Memory>
    requires { AreLedNets g.now led.now }
    ensures { IfOk result (λ times. (order : List ℕ) → IsSmall g.now → IsForward g.now order 0 times.items) }
{
    let mut times = no_times(alloc, g.arrivals.len())?;
    'nets: for v in 0..g.arrivals.len() {
        if !led[v] {
            times[v] = Some(arrival_at(g, v));
        }
    }
    Ok(times)
}

/// The endpoint `j` has its effect on the time of its net.
fn hold_end(g: &Graph, j: usize, times: &mut [Option<i128>])
    requires graph { IsGraph g.now }
    requires small { IsSmall g.now }
    requires sink { j < length g.now.sinks }
    requires nets { length times.old ≡ net_count g.now }
    ensures { IsEnded g.now j times.old times.new }
{
    let sink = sink_at(g, j);
    let net = sink.net as usize;
    let time = earlier(times[net], sink.required - sink.delay);
    times[net] = Some(time);
}

/// The endpoints take effect on times of which none is held.
fn hold_ends(g: &Graph, leading: &[bool], times: &mut [Option<i128>])
    requires graph { IsGraph g.now }
    requires small { IsSmall g.now }
    requires leading { AreLeadingSinks g.now leading.now }
    requires begun { AreEnds g.now leading.now 0 times.old }
    ensures { AreEnds g.now leading.now (length g.now.sinks) times.new }
{
    'sinks: for j in 0..g.sinks.len() {
        if !leading[j] {
            hold_end(g, j, times);
        }
    }
}

/// The required times at the nets of endpoints, by these alone.
fn last_times(alloc: Global, g: &Graph, leading: &[bool]) -> Result<Vec<Option<i128>>, Memory>
    requires graph { IsGraph g.now }
    requires small { IsSmall g.now }
    requires leading { AreLeadingSinks g.now leading.now }
    ensures { IfOk result (λ times. (order : List ℕ) → IsBackward g.now order (length order) 2 times.items) }
{
    let mut times = no_times(alloc, g.arrivals.len())?;
    hold_ends(g, leading, &mut times);
    Ok(times)
}

/// For each net the time between its two times.
fn net_slacks(
    alloc: Global,
    arrivals: &[Option<i128>],
    required: &[Option<i128>],
) -> Result<Vec<i128>, Memory>
    requires count { length required.now ≡ length arrivals.now }
    requires arrivals { (v : ℕ) → v < length arrivals.now → IsHeldWithin (time_at arrivals.now v) }
    requires required { (v : ℕ) → v < length arrivals.now → IsHeldWithin (time_at required.now v) }
    ensures { IfOk result (λ slacks. AreDifferences arrivals.now required.now (length arrivals.now) slacks.items) }
{
    let mut slacks = Vec::new(alloc);
    'nets: for v in 0..arrivals.len() {
        let slack = held(required[v]) - held(arrivals[v]);
        slacks.push(slack)?;
    }
    Ok(slacks)
}

/// The best so far, or this sink where its slack is less.
fn worse(best: Option<End>, sink: u32, slack: i128) -> End
    ensures { IsWorse best sink slack result }
{
    match best {
        Some(end) => {
            if end.slack <= slack {
                end
            } else {
                End { sink, slack }
            }
        }
        None => End { sink, slack },
    }
}

/// The least slack of the paths to the sink `j`, by the arrivals at all nets.
fn slack_to(g: &Graph, j: usize, arrivals: &[Option<i128>]) -> i128
    requires graph { IsGraph g.now }
    requires small { IsSmall g.now }
    requires sink { j < length g.now.sinks }
    requires count { length arrivals.now ≡ net_count g.now }
    requires arrivals { (v : ℕ) → v < net_count g.now → IsHeldWithin (time_at arrivals.now v) }
    ensures { IsSlackTo g.now arrivals.now j result }
{
    let sink = sink_at(g, j);
    let arrival = held(arrivals[sink.net as usize]);
    (sink.required - sink.delay) - arrival
}

/// The first of the endpoints with the least slack.
fn worst_end(g: &Graph, leading: &[bool], arrivals: &[Option<i128>]) -> Option<End>
    requires graph { IsGraph g.now }
    requires small { IsSmall g.now }
    requires leading { length leading.now ≡ length g.now.sinks }
    requires count { length arrivals.now ≡ net_count g.now }
    requires arrivals { (v : ℕ) → v < net_count g.now → IsHeldWithin (time_at arrivals.now v) }
    ensures { IsWorstSo g.now leading.now arrivals.now (length g.now.sinks) result }
{
    let mut best = None;
    'sinks: for j in 0..g.sinks.len() {
        if !leading[j] {
            best = Some(worse(best, j as u32, slack_to(g, j, arrivals)));
        }
    }
    best
}

/// The latest arrivals.
fn arrivals_of(alloc: Global, g: &Graph, order: &[u32]) -> Result<Vec<Option<i128>>, Memory>
    requires graph { IsGraph g.now }
    requires small { IsSmall g.now }
    requires order { IsWholeOrder g.now order.now }
    ensures { IfOk result (λ times. IsForward g.now order.now (length order.now) times.items) }
{
    let led = led_nets(alloc, g)?;
    let mut times = first_arrivals(alloc, g, &led)?;
    forward(g, order, &mut times);
    Ok(times)
}

/// The earliest required times; `leading` tells the sinks that lead somewhere.
fn required_of(
    alloc: Global,
    g: &Graph,
    order: &[u32],
    leading: &[bool],
) -> Result<Vec<Option<i128>>, Memory>
    requires graph { IsGraph g.now }
    requires small { IsSmall g.now }
    requires order { IsWholeOrder g.now order.now }
    requires leading { AreLeadingSinks g.now leading.now }
    ensures { IfOk result (λ times. IsBackward g.now order.now 0 (length order.now + 2) times.items) }
{
    let mut times = last_times(alloc, g, leading)?;
    backward(g, order, &mut times);
    Ok(times)
}

/// The slacks, by an order of all leads. There is an endpoint, since there is a net.
fn slacks_by(alloc: Global, g: &Graph, order: &[u32]) -> Result<Slacks, Memory>
    requires graph { IsGraph g.now }
    requires small { IsSmall g.now }
    requires some { 0 < net_count g.now }
    requires order { IsWholeOrder g.now order.now }
    ensures worst { IfOk result (λ slacks. IsLeast g.now slacks.worst) }
    ensures end { IfOk result (λ slacks. IsFirstEnd g.now slacks.worst slacks.end) }
    ensures nets { IfOk result (λ slacks. AreSlacks g.now slacks.nets) }
{
    let leading = leading_sinks(alloc, g)?;
    let arrivals = arrivals_of(alloc, g, order)?;
    let required = required_of(alloc, g, order, &leading)?;
    let nets = net_slacks(alloc, &arrivals, &required)?;
    match worst_end(g, &leading, &arrivals) {
        Some(end) => Ok(Slacks {
            worst: end.slack,
            end: end.sink,
            nets: Row::from_vec(nets),
        }),
        None => unreachable!(),
    }
}

/// The least slacks over all paths of a graph: of all, with the first endpoint of such a path, and for each net of
/// those through it. Each net has a path then. Times are in zeptoseconds; the work is linear in nets, sinks and leads.
///
/// Answers `NoPath` where there is no net, `Cycle` with the first net that lies on a cycle or is reached from one, and
/// `Memory` where there is no room.
pub fn time_graph(alloc: Global, g: &Graph) -> Result<Slacks, SlackFault>
    requires graph { IsGraph g.now }
    requires small { IsSmall g.now }
    ensures worst { IfOk result (λ slacks. IsLeast g.now slacks.worst) }
    ensures end { IfOk result (λ slacks. IsFirstEnd g.now slacks.worst slacks.end) }
    ensures nets { IfOk result (λ slacks. AreSlacks g.now slacks.nets) }
    ensures no_cycle { IfOk result (λ _. (v : ℕ) → IsAfterCycle g.now v → ⊥) }
    ensures fault { IfErr result (IsFaultOf g.now) }
{
    if g.arrivals.is_empty() {
        return Err(SlackFault::NoPath);
    }
    let order = lead_order(alloc, g)?;
    match slacks_by(alloc, g, &order) {
        Ok(found) => Ok(found),
        Err(_) => Err(SlackFault::Memory),
    }
}
