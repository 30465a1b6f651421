//! Elmore wire delays by two passes over one room: capacitances up, delays down.

ghost use Rattle.std.specs.Prelude.{◌≡◌, ℕ, ◌*◌, ◌^◌, ◌<◌, ◌≤◌, ◌≤ℤ◌, ◌+ℤ◌, ◌-ℤ◌, length, slice_index_or, pos};
ghost use Rattle.elmore.specs.Trees.{IsTree, IsWithinLimits, total_capacitance};
ghost use Rattle.elmore.specs.Wire.{delay_in, downstream_in};
ghost use Rattle.elmore.specs.Room.{room_of, delays_of};

use crate::scratch::Scratch;
use crate::sums::{add_to, fill_capacitances, sum_at};
use crate::tree::{Node, Tree};

/// Each node's capacitance and that of all nodes below it: from the last node on, each adds its sum to its parent's.
fn sum_downstream(nodes: &[Node], sums: &mut [i128])
    requires tree { IsTree nodes.now }
    requires limit { total_capacitance nodes.now ≤ 10 ^ 11 }
    requires room { length nodes.now ≤ length sums.old }
    ensures { (v : ℕ) → v < length nodes.now → slice_index_or sums.new v (pos 0) ≡ pos (downstream_in nodes.now v) }
{
    fill_capacitances(nodes, sums);
    'up: for v in (1..nodes.len()).rev() {
        let load = sum_at(sums, v);
        add_to(sums, nodes[v].parent as usize, load);
    }
}

/// The delay behind a resistor: the delay before it, and the resistance times the capacitance that it charges.
pub(crate) fn delay_behind(before: i128, r: u64, load: u128) -> i128
    requires before_low { (pos 0 -ℤ pos (10 ^ 25)) ≤ℤ before }
    requires before_high { before ≤ℤ pos (10 ^ 25) }
    requires resistance { r ≤ 10 ^ 12 }
    requires load { load ≤ 10 ^ 11 }
    ensures { result ≡ before +ℤ pos (r * load) }
{
    before + (u128::from(r) * load) as i128
}

/// Each node's delay in place of the capacitance that its resistor charges: its parent's, and its resistor times that
/// capacitance.
fn sum_delays(nodes: &[Node], delays: &mut [i128])
    requires tree { IsTree nodes.now }
    requires limits { IsWithinLimits nodes.now }
    requires room { length nodes.now ≤ length delays.old }
    requires loads { (v : ℕ) → v < length nodes.now
        → slice_index_or delays.old v (pos 0) ≡ pos (downstream_in nodes.now v) }
    ensures { (v : ℕ) → v < length nodes.now → slice_index_or delays.new v (pos 0) ≡ pos (delay_in nodes.now v) }
{
    delays[0] = 0;
    'down: for v in 1..nodes.len() {
        let before = delays[nodes[v].parent as usize];
        let load = sum_at(delays, v);
        delays[v] = delay_behind(before, nodes[v].r, load);
    }
}

/// The Elmore wire delay (zs) of every node of a net, in time linear in the nodes. They are read by `Scratch::delays`.
/// The net is within the limits that `Tree::is_within_limits` tests, and the scratch has room for its nodes.
///
/// W. C. Elmore, "The transient response of damped linear networks", Journal of Applied Physics 19, 1948.
pub fn wire_delays(tree: &Tree, scratch: &mut Scratch)
    requires limits { IsWithinLimits tree.now.nodes }
    requires room { length tree.now.nodes ≤ room_of scratch.old }
    ensures delays { (w : ℕ) → w < length tree.now.nodes
        → slice_index_or (delays_of scratch.new) w (pos 0) ≡ pos (delay_in tree.now.nodes w) }
    ensures room { room_of scratch.new ≡ room_of scratch.old }
{
    let nodes = tree.nodes.as_slice();
    sum_downstream(nodes, &mut scratch.delays);
    sum_delays(nodes, &mut scratch.delays);
}

/// The Elmore wire delay (zs) of one node: the sum, over the path from the root, of each resistance times the
/// capacitance below it. It walks the whole net; for the delays of many nodes take `wire_delays`.
pub fn wire_delay(tree: &Tree, node: u32, scratch: &mut Scratch) -> i128
    requires node { node < length tree.now.nodes }
    requires limits { IsWithinLimits tree.now.nodes }
    requires room { length tree.now.nodes ≤ room_of scratch.old }
    ensures delay { result ≡ pos (delay_in tree.now.nodes node) }
    ensures room { room_of scratch.new ≡ room_of scratch.old }
{
    wire_delays(tree, scratch);
    scratch.delays()[node as usize]
}
