//! Capacitances (aF) that are summed up in the room where the delays of the nodes are to stand.

ghost use Rattle.std.specs.Prelude.{◌≡◌, ℕ, ◌^◌, ◌<◌, ◌≤◌, ◌+ℤ◌, length, slice_index_or, slice_set, pos};
ghost use Rattle.elmore.specs.Trees.{capacitance, total_capacitance};
ghost use Rattle.elmore.specs.Steps.{IsSum};

use crate::tree::Node;

/// Each node's own capacitance.
pub(crate) fn fill_capacitances(nodes: &[Node], sums: &mut [i128])
    requires limit { total_capacitance nodes.now ≤ 2 ^ 100 }
    requires room { length nodes.now ≤ length sums.old }
    ensures { (v : ℕ) → v < length nodes.now → slice_index_or sums.new v (pos 0) ≡ pos (capacitance nodes.now v) }
{
    'fill: for v in 0..nodes.len() {
        sums[v] = nodes[v].c as i128;
    }
}

/// The sum at a node.
pub(crate) fn sum_at(sums: &[i128], v: usize) -> u128
    requires node { v < length sums.now }
    requires sum { IsSum (slice_index_or sums.now v (pos 0)) }
    ensures { slice_index_or sums.now v (pos 0) ≡ pos result }
{
    sums[v] as u128
}

/// Adds to the sum at a node.
pub(crate) fn add_to(sums: &mut [i128], v: usize, more: u128)
    requires node { v < length sums.old }
    requires before { IsSum (slice_index_or sums.old v (pos 0)) }
    requires after { IsSum (slice_index_or sums.old v (pos 0) +ℤ pos more) }
    ensures { sums.new ≡ slice_set sums.old v (slice_index_or sums.old v (pos 0) +ℤ pos more) }
{
    sums[v] += more as i128;
}
