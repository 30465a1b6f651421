//! What a signal does in one net.

ghost use Rattle.std.specs.Prelude.{◌≡◌, ◌<◌, ◌≤◌, ◌^◌, ◌++◌, ◌*◌, ◌∷◌, [], ℕ, ℤ, ◌-ℤ◌, List, map, slice_index, slice_index_or, pos, length, option_map, IfOk, IfSome, OnOk};
ghost use Rattle.elmore.specs.Problems.{IsSmall};
ghost use Rattle.elmore.specs.Steps.{IsSum};
ghost use Rattle.cut_laws.specs.Walks.{Signal as SignalSpec, passed_on};
ghost use Rattle.vg_retime.specs.Times.{lates_in, lefts_in, IsLeastWith, IsTime};
ghost use Rattle.vg_retime.specs.WalkNets.{timed, walk_end};
ghost use Rattle.vg_retime.specs.Ways.{is_wrong, wrong_in};
ghost use Rattle.vg_retime.specs.Steps.{IsPassedAt, IsSizedEnd, IsSizedNet, IsSizedSignal, signal_of};

use crate::walk_net::{End, WalkNet};
use elmore::{Scratch, Sink, wire_delays};
use std::alloc::Global;
use vg_design::total_capacitance;
use vg_num::Memory;
use vg_scan::NodeName;

/// A signal at the driver of a net.
#[derive(Clone, Copy, Debug, Drop)]
pub(crate) struct Signal {
    /// The number of the net.
    pub net: u32,
    /// The driver's resistance (mΩ).
    pub r: u64,
    /// When the driver would give it on if it had no load, counted from when the first driver would (zs).
    pub late: u128,
    /// How many inverters it has passed.
    pub inverters: u64,
}

/// The delay at a node (zs).
fn delay_at(delays: &[i128], node: usize) -> u128
    requires node { node < length delays.now }
    requires delay { IsSum (slice_index_or delays.now node (pos 0)) }
    ensures { slice_index_or delays.now node (pos 0) ≡ pos result }
{
    delays[node] as u128
}

/// When a signal comes to each node of the net's tree (zs).
pub(crate) fn lates(alloc: Global, net: &WalkNet, signal: &Signal) -> Result<Vec<u128>, Memory>
    requires net { IsSizedNet (2 ^ 32) net.now }
    requires signal { IsSizedSignal (2 ^ 32) (2 ^ 32) (signal_of signal.now) }
    ensures lates { IfOk result (λ lates. lates.items ≡ lates_in (timed net.now) (signal_of signal.now)) }
    ensures small { IfOk result (λ lates. (i : ℕ) → slice_index lates.items i ≤ 2 ^ 33 * 10 ^ 24) }
{
    let nodes = net.tree.nodes.as_slice();
    let mut scratch = Scratch::new(alloc, nodes.len())?;
    wire_delays(&net.tree, &mut scratch);
    let driven = signal.late + u128::from(signal.r) * total_capacitance(nodes);
    let delays = scratch.delays();
    let mut lates = Vec::with_capacity(alloc, nodes.len())?;
    'node: for i in 0..nodes.len() {
        lates.push(driven + delay_at(delays, i))?;
    }
    Ok(lates)
}

/// The signal behind what stands at a node, if it is the input of a cell that drives a net.
fn passed(signal: &Signal, end: End, late: u128) -> Option<Signal>
    requires end { IsSizedEnd (2 ^ 32) (walk_end end) }
    requires late { late ≤ 2 ^ 33 * 10 ^ 24 }
    requires inverters { signal.now.inverters ≤ 2 ^ 32 }
    ensures { IsPassedAt (signal_of signal.now) (walk_end end) late (option_map signal_of result) }
{
    match end {
        End::Passes(rep, Some(next)) => Some(Signal {
            net: next,
            r: rep.r,
            late: late + u128::from(rep.k),
            inverters: signal.inverters + u64::from(rep.inverts),
        }),
        _ => None,
    }
}

/// Puts the signals last that a net passes on, in tree order.
pub(crate) fn pass_on(
    net: &WalkNet,
    signal: &Signal,
    lates: &[u128],
    signals: &mut Vec<Signal>,
) -> Result<(), Memory>
    requires net { IsSizedNet (2 ^ 32) net.now }
    requires signal { IsSizedSignal (2 ^ 32) (2 ^ 32) (signal_of signal.now) }
    requires lates { lates.now ≡ lates_in (timed net.now) (signal_of signal.now) }
    requires small { (i : ℕ) → slice_index lates.now i ≤ 2 ^ 33 * 10 ^ 24 }
    ensures { OnOk result (map signal_of signals.new.items
        ≡ map signal_of signals.old.items ++ passed_on (timed net.now) (signal_of signal.now)) }
{
    'node: for i in 0..lates.len() {
        if let Some(next) = passed(signal, net.ends[i], lates[i]) {
            signals.push(next)?;
        }
    }
    Ok(())
}

/// The lesser of what was least before, and of what is left here (zs).
fn lesser(least: Option<i128>, left: i128) -> Option<i128>
    ensures least { IsLeastWith (left ∷ []) least result }
    ensures small { IfSome least IsTime → IsTime left → IfSome result IsTime }
{
    match least {
        None => Some(left),
        Some(least) => {
            if least <= left {
                Some(least)
            } else {
                Some(left)
            }
        }
    }
}

/// What is left of a required time when the signal comes late (zs).
fn left_of(required: i128, late: u128) -> i128
    requires required { IsSmall required }
    requires late { late ≤ 2 ^ 33 * 10 ^ 24 }
    ensures left { result ≡ required -ℤ pos late }
    ensures small { IsTime result }
{
    required - late as i128
}

/// The least of what was least before, and of what the net's sinks have left of their required times when the signal
/// comes (zs).
pub(crate) fn least_in(net: &WalkNet, lates: &[u128], before: Option<i128>) -> Option<i128>
    requires net { IsSizedNet (2 ^ 32) net.now }
    requires small { (i : ℕ) → slice_index lates.now i ≤ 2 ^ 33 * 10 ^ 24 }
    requires one_each { length lates.now ≡ length net.now.tree }
    ensures least { (s : SignalSpec) → lates.now ≡ lates_in (timed net.now) s
        → IsLeastWith (lefts_in (timed net.now) s) before result }
    ensures small { IfSome before IsTime → IfSome result IsTime }
{
    let mut least = before;
    'node: for i in 0..lates.len() {
        if let End::Sink(goal) = net.ends[i] {
            least = lesser(least, left_of(goal.required, lates[i]));
        }
    }
    least
}

/// Whether a sink stands there that wants the other polarity.
fn is_wrong(inverted: bool, end: End) -> bool
    ensures { result ≡ is_wrong inverted (walk_end end) }
{
    match end {
        End::Sink(goal) => goal.inverted != inverted,
        _ => false,
    }
}

/// The name of the first sink of the net, in tree order, that wants the other polarity than the signal has.
pub(crate) fn wrong_in(
    alloc: Global,
    net: &WalkNet,
    signal: &Signal,
) -> Result<Option<NodeName>, Memory>
    requires { length net.now.names ≡ length net.now.ends }
    ensures { IfOk result (λ wrong. wrong ≡ wrong_in net.now (signal_of signal.now)) }
{
    let inverted = signal.inverters % 2 == 1;
    'node: for i in 0..net.ends.len() {
        if is_wrong(inverted, net.ends[i]) {
            return Ok(Some(net.names.name(alloc, i)?));
        }
    }
    Ok(None)
}
