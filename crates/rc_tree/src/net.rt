ghost use Rattle.std.specs.Prelude.{◌≡◌, ℕ, ◌<◌, ◌≤◌, ◌^◌, map, length, IfOk, MatchResult};
ghost use Rattle.elmore.specs.Trees.{IsTree};
ghost use Rattle.rc_tree.specs.Chains.{edge_at};
ghost use Rattle.rc_tree.specs.Nets.{cap_at, IsNet};
ghost use Rattle.rc_tree.specs.Search.{bare_node_of, node_of, HavePlaces};
ghost use Rattle.rc_tree.specs.Faults.{IsFaultOf};
ghost use Rattle.rc_tree.specs.Answers.{IsTreeOf};

use crate::caps::add_caps;
use crate::fault::TreeFault;
use crate::links::link;
use crate::search::{Place, Reached, first_unseen, search};
use elmore::{Node, Tree};
use std::alloc::Global;
use vg_num::{Memory, Row};

/// A net as a tree.
#[derive(Drop)]
pub struct Built {
    /// The tree, breadth first from the root.
    pub tree: Tree,
    /// For each node of the tree the number that was given for it.
    pub order: Row<u32>,
}

/// The tree of a net of `n` numbered nodes: its root, its capacitors (a node, aF) and its resistors (two ends, mΩ), in
/// any order and direction. Capacitors at one node add up. Nodes of the tree are in breadth-first order from the root,
/// and the neighbours that one adds are in the order of the resistors. The time is linear in the sizes.
///
/// Answers `Floating` of the node of the least number that no chain of resistors joins to the root; where none floats,
/// `Loop` if the resistors are not one fewer than the nodes, as with two resistors side by side or from a node to
/// itself; `Memory` where there is none.
pub fn build(
    alloc: Global,
    n: usize,
    root: u32,
    caps: &[(u32, u64)],
    edges: &[(u32, u32, u64)],
) -> Result<Built, TreeFault>
    requires { IsNet n root caps.now edges.now }
    ensures { MatchResult result (λ built. IsTreeOf n root caps.now edges.now built.tree.nodes built.order)
        (λ fault. IsFaultOf n edges.now root fault) }
{
    let links = link(alloc, n, edges)?;
    let reached = search(alloc, n, root, edges, &links)?;
    if let Some(v) = first_unseen(&reached.ranks) {
        return Err(TreeFault::Floating(v));
    }
    if edges.len() + 1 != n {
        return Err(TreeFault::Loop);
    }
    let built = tree_of(alloc, &reached, caps, edges)?;
    Ok(built)
}

/// The tree of the places that were reached, with the capacitors of their nodes.
fn tree_of(
    alloc: Global,
    reached: &Reached,
    caps: &[(u32, u64)],
    edges: &[(u32, u32, u64)],
) -> Result<Built, Memory>
    requires count { length caps.now ≤ 2 ^ 28 }
    requires values { (k : ℕ) → k < length caps.now → (cap_at caps.now k).1 ≤ 10 ^ 15 }
    requires places { HavePlaces caps.now reached.now.places.items reached.now.ranks.items }
    requires tree { IsTree (map (node_of edges.now caps.now) reached.now.places.items) }
    ensures nodes { IfOk result (λ built. built.tree.nodes
        ≡ map (node_of edges.now caps.now) reached.now.places.items) }
    ensures order { IfOk result (λ built. built.order ≡ map (λ place. place.node) reached.now.places.items) }
{
    let nodes = Row::from_vec(nodes_of(alloc, reached, caps, edges)?);
    let order = reached
        .places
        .iter()
        .map(|place| place.node)
        .collect(alloc)?;
    Ok(Built {
        tree: Tree { nodes },
        order: Row::from_vec(order),
    })
}

fn nodes_of(
    alloc: Global,
    reached: &Reached,
    caps: &[(u32, u64)],
    edges: &[(u32, u32, u64)],
) -> Result<Vec<Node>, Memory>
    requires count { length caps.now ≤ 2 ^ 28 }
    requires values { (k : ℕ) → k < length caps.now → (cap_at caps.now k).1 ≤ 10 ^ 15 }
    requires places { HavePlaces caps.now reached.now.places.items reached.now.ranks.items }
    ensures { IfOk result (λ nodes. nodes.items ≡ map (node_of edges.now caps.now) reached.now.places.items) }
{
    let mut nodes = bare_nodes_of(alloc, &reached.places, edges)?;
    add_caps(caps, reached, &mut nodes);
    Ok(nodes)
}

/// The nodes at these places, without capacitors.
fn bare_nodes_of(
    alloc: Global,
    places: &[Place],
    edges: &[(u32, u32, u64)],
) -> Result<Vec<Node>, Memory>
    ensures { IfOk result (λ nodes. nodes.items ≡ map (bare_node_of edges.now) places.now) }
{
    let mut nodes = Vec::with_capacity(alloc, places.len())?;
    'places: for place in places {
        nodes.push(Node {
            parent: place.parent,
            r: resistance_above(edges, *place),
            c: 0,
        })?;
    }
    Ok(nodes)
}

/// The resistance (mΩ) of the wire to a place from its parent; 0 at the root.
fn resistance_above(edges: &[(u32, u32, u64)], place: Place) -> u64
    ensures { result ≡ (edge_at edges.now place.edge).2 }
{
    match edges.get(place.edge as usize) {
        Some(edge) => edge.2,
        None => 0,
    }
}
