//! The capacitors at the nodes of a tree.

ghost use Rattle.std.specs.Prelude.{◌≡◌, ℕ, ◌+◌, ◌<◌, ◌≤◌, ◌^◌, length};
ghost use Rattle.elmore.specs.Trees.{node_at, capacitance};
ghost use Rattle.rc_tree.specs.Nets.{cap_at};
ghost use Rattle.rc_tree.specs.Search.{place_at, with_capacitance, with_caps, HavePlaces};

use crate::search::Reached;
use elmore::Node;

/// Adds each capacitor to the tree's node at its place.
pub(crate) fn add_caps(caps: &[(u32, u64)], reached: &Reached, nodes: &mut [Node])
    requires count { length caps.now ≤ 2 ^ 28 }
    requires values { (k : ℕ) → k < length caps.now → (cap_at caps.now k).1 ≤ 10 ^ 15 }
    requires places { HavePlaces caps.now reached.now.places.items reached.now.ranks.items }
    requires each { length nodes.old ≡ length reached.now.places.items }
    requires none { (i : ℕ) → i < length nodes.old → capacitance nodes.old i ≡ 0 }
    ensures { (i : ℕ) → i < length nodes.old
        → node_at nodes.new i ≡ with_caps caps.now (place_at reached.now.places.items i) (node_at nodes.old i) }
{
    'caps: for k in 0..caps.len() {
        let (node, c) = caps[k];
        let rank = reached.ranks[node as usize] as usize;
        add_cap(&mut nodes[rank - 1], c);
    }
}

/// Adds a capacitor to a node.
fn add_cap(node: &mut Node, c: u64)
    requires { node.old.c ≤ 2 ^ 100 }
    ensures { node.new ≡ with_capacitance node.old (node.old.c + c) }
{
    node.c += u128::from(c);
}
