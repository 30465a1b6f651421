//! The two passes over the leads of a graph, in an order in which the leads into a net come before those out of it.

ghost use Rattle.std.specs.Prelude.{◌≡◌, ◌<◌, ◌≤◌, ◌+◌, true, is_some, Some, ℕ, length, ◌⊎◌, List, Option, ℤ, ◌+ℤ◌, ◌-ℤ◌, IsSome};
ghost use Rattle.sta_graph.specs.Paths.{IsGraph, from_of, to_of, lead_delay, net_count};
ghost use Rattle.sta_graph.specs.Orders.{IsWholeOrder};
ghost use Rattle.sta_graph.specs.Passes.{IsSmall, IsWithin, IsLater, IsEarlier, IsCarriedOn, IsCarriedBack, IsForward, IsBackward, time_at};

use crate::graph::Graph;

/// A lead with its nets and the delay to its sink.
#[derive(Clone, Copy)]
struct Step {
    from: usize,
    to: usize,
    delay: i128,
}

/// The time that is held.
pub(crate) fn held(time: Option<i128>) -> i128
    requires { is_some time ≡ true }
    ensures { time ≡ Some result }
{
    match time {
        Some(time) => time,
        None => 0,
    }
}

/// The later of the two, where one is held.
fn later(held: Option<i128>, time: i128) -> i128
    ensures { IsLater held time result }
{
    match held {
        None => time,
        Some(other) => { if other <= time { time } else { other } }
    }
}

/// The earlier of the two, where one is held.
pub(crate) fn earlier(held: Option<i128>, time: i128) -> i128
    ensures { IsEarlier held time result }
{
    match held {
        None => time,
        Some(other) => { if time <= other { time } else { other } }
    }
}

/// The lead `i` as a step from net to net.
fn step_at(g: &Graph, i: usize) -> Step
    requires graph { IsGraph g.now }
    requires small { IsSmall g.now }
    requires lead { i < length g.now.leads }
    ensures from { result.from ≡ from_of g.now i }
    ensures to { result.to ≡ to_of g.now i }
    ensures delay { result.delay ≡ lead_delay g.now i }
{
    let lead = g.leads.as_slice()[i];
    let sink = g.sinks.as_slice()[lead.sink as usize];
    Step {
        from: sink.net as usize,
        to: lead.net as usize,
        delay: sink.delay,
    }
}

/// Carries a time over the lead `i` to its second net.
fn carry_on(g: &Graph, i: usize, times: &mut [Option<i128>])
    requires graph { IsGraph g.now }
    requires small { IsSmall g.now }
    requires lead { i < length g.now.leads }
    requires nets { length times.old ≡ net_count g.now }
    requires from { is_some (time_at times.old (from_of g.now i)) ≡ true }
    requires bounded { (v : ℕ) (a : ℤ) → time_at times.old v ≡ Some a
        → IsWithin (length g.now.leads + 1) a }
    ensures { IsCarriedOn g.now i times.old times.new }
{
    let step = step_at(g, i);
    let from = held(times[step.from]);
    let reached = later(times[step.to], from + step.delay);
    times[step.to] = Some(reached);
}

/// Carries a time over the lead `i` back to its first net.
fn carry_back(g: &Graph, i: usize, times: &mut [Option<i128>])
    requires graph { IsGraph g.now }
    requires small { IsSmall g.now }
    requires lead { i < length g.now.leads }
    requires nets { length times.old ≡ net_count g.now }
    requires to { is_some (time_at times.old (to_of g.now i)) ≡ true }
    requires bounded { (v : ℕ) (r : ℤ) → time_at times.old v ≡ Some r
        → IsWithin (length g.now.leads + 2) r }
    ensures { IsCarriedBack g.now i times.old times.new }
{
    let step = step_at(g, i);
    let to = held(times[step.to]);
    let allowed = earlier(times[step.from], to - step.delay);
    times[step.from] = Some(allowed);
}

/// Carries arrivals over all leads.
pub(crate) fn forward(g: &Graph, order: &[u32], times: &mut [Option<i128>])
    requires graph { IsGraph g.now }
    requires small { IsSmall g.now }
    requires order { IsWholeOrder g.now order.now }
    requires begun { IsForward g.now order.now 0 times.old }
    ensures { IsForward g.now order.now (length order.now) times.new }
{
    'leads: for k in 0..order.len() {
        carry_on(g, order[k] as usize, times);
    }
}

/// Carries required times back over all leads.
pub(crate) fn backward(g: &Graph, order: &[u32], times: &mut [Option<i128>])
    requires graph { IsGraph g.now }
    requires small { IsSmall g.now }
    requires order { IsWholeOrder g.now order.now }
    requires begun { IsBackward g.now order.now (length order.now) 2 times.old }
    ensures { IsBackward g.now order.now 0 (length order.now + 2) times.new }
{
    'leads: for k in (0..order.len()).rev() {
        carry_back(g, order[k] as usize, times);
    }
}
