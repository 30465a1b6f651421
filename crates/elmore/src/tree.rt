ghost use Rattle.std.specs.Prelude.{◌≡◌, ◌↔◌, ℕ, ◌+◌, ◌<◌, ◌≤◌, length, IsTrue, MatchOption};
ghost use Rattle.elmore.specs.Trees.{IsTree, IsWithinLimits, parent_of, total_resistance, total_capacitance};

use vg_num::Row;

/// A node of a net.
#[derive(Clone, Copy, Debug, PartialEq, Eq)]
pub struct Node {
    /// The number of the node above.
    pub parent: u32,
    /// The resistance of the wire from there (mΩ).
    pub r: u64,
    /// The capacitance at the node (aF).
    pub c: u128,
}

/// A routed net as a tree. The root is node 0, with parent 0 and resistance 0; every other parent has a smaller
/// number than its child.
#[derive(Drop)]
pub struct Tree {
    /// The nodes, by their numbers.
    pub nodes: Row<Node>,
    pub ghost a_tree: { IsTree nodes },
}

impl Tree {
    /// The tree of these nodes, or none where they are no tree: where there is no node, where node 0 has another
    /// parent than itself or a resistor, or where some other node has no smaller parent.
    pub fn new(nodes: Row<Node>) -> Option<Tree>
        ensures { MatchOption result (IsTree nodes → ⊥) (λ tree. tree.nodes ≡ nodes) }
    {
        if is_tree(nodes.as_slice()) {
            Some(Tree { nodes })
        } else {
            None
        }
    }

    /// Whether all resistors together have at most 10^12 mΩ and all capacitors at most 10^11 aF: within these limits
    /// no delay is too large to be computed.
    pub fn is_within_limits(&self) -> bool
        ensures { IsTrue result ↔ IsWithinLimits self.now.nodes }
    {
        let nodes = self.nodes.as_slice();
        is_resistance_within(nodes) && is_capacitance_within(nodes)
    }
}

const MOST_RESISTANCE: u64 = 1_000_000_000_000;

const MOST_CAPACITANCE: u128 = 100_000_000_000;

pub(crate) fn is_resistance_within(nodes: &[Node]) -> bool
    ensures { IsTrue result ↔ (total_resistance nodes.now ≤ MOST_RESISTANCE) }
{
    let mut left = MOST_RESISTANCE;
    'resistors: for node in nodes {
        if node.r > left {
            return false;
        }
        left -= node.r;
    }
    true
}

fn is_capacitance_within(nodes: &[Node]) -> bool
    ensures { IsTrue result ↔ (total_capacitance nodes.now ≤ MOST_CAPACITANCE) }
{
    capacitance_left(nodes).is_some()
}

/// What all capacitors together leave of the limit (aF), or none where they go beyond it.
pub(crate) fn capacitance_left(nodes: &[Node]) -> Option<u128>
    ensures { MatchOption result (MOST_CAPACITANCE < total_capacitance nodes.now) (λ left.
        total_capacitance nodes.now + left ≡ MOST_CAPACITANCE) }
{
    let mut left = MOST_CAPACITANCE;
    'capacitors: for node in nodes {
        if node.c > left {
            return None;
        }
        left -= node.c;
    }
    Some(left)
}

fn is_tree(nodes: &[Node]) -> bool
    ensures { IsTrue result ↔ IsTree nodes.now }
{
    if nodes.is_empty() {
        return false;
    }
    let root = nodes[0];
    root.parent == 0 && root.r == 0 && parents_are_smaller(nodes)
}

fn parents_are_smaller(nodes: &[Node]) -> bool
    ensures { IsTrue result ↔ ((v : ℕ) → 0 < v → v < length nodes.now → parent_of nodes.now v < v) }
{
    'children: for v in 1..nodes.len() {
        if nodes[v].parent as usize >= v {
            return false;
        }
    }
    true
}
