//! The search from the root, in breadth.

ghost use Rattle.std.specs.Prelude.{◌≡◌, ℕ, ◌+◌, ◌<◌, ◌≤◌, ◌^◌, ◌⊎◌, length, slice_index, IfOk, MatchOption};
ghost use Rattle.rc_tree.specs.Chains.{edge_at, Joins};
ghost use Rattle.rc_tree.specs.Links.{AreLinks, IsEndOf};
ghost use Rattle.rc_tree.specs.Search.{places_with, ranks_with, AreAllSeen, HasScanned, IsFirstUnseen, IsScan, IsSearch};

use crate::links::{Links, Next};
use std::alloc::Global;
use vg_num::Memory;

/// A node that was reached.
#[derive(Clone, Copy)]
pub(crate) struct Place {
    /// The node's number.
    pub(crate) node: u32,
    /// The place of its parent; the root's own.
    pub(crate) parent: u32,
    /// The number of the resistor from there; at the root, which has none, the number of resistors.
    pub(crate) edge: u32,
}

/// The nodes that were reached, in their order.
#[derive(Drop)]
pub(crate) struct Reached {
    pub(crate) places: Vec<Place>,
    /// For each node one more than its place; 0 where it was not reached.
    pub(crate) ranks: Vec<u32>,
}

/// All nodes that are joined to the root, breadth first.
pub(crate) fn search(
    alloc: Global,
    n: usize,
    root: u32,
    edges: &[(u32, u32, u64)],
    links: &Links,
) -> Result<Reached, Memory>
    requires some { n ≤ 2 ^ 30 }
    requires root_node { root < n }
    requires count { length edges.now ≤ 2 ^ 28 }
    requires from_nodes { (j : ℕ) → j < length edges.now → (edge_at edges.now j).0 < n }
    requires to_nodes { (j : ℕ) → j < length edges.now → (edge_at edges.now j).1 < n }
    requires linked { length links.now.first.items ≡ n }
    requires links { AreLinks edges.now links.now.first.items links.now.next.items }
    ensures { IfOk result (λ reached. IsSearch n root edges.now reached.places.items reached.ranks.items) }
{
    let mut reached = begin(alloc, n, root, edges)?;
    let mut p = 0;
    'places: while p < reached.places.len() {
        scan(edges, links, p, &mut reached)?;
        p += 1;
    }
    Ok(reached)
}

/// The root alone, with room for all nodes.
fn begin(alloc: Global, n: usize, root: u32, edges: &[(u32, u32, u64)]) -> Result<Reached, Memory>
    requires root_node { root < n }
    requires count { length edges.now ≤ 2 ^ 28 }
    ensures { IfOk result (λ reached. IsScan n root edges.now reached.places.items reached.ranks.items 0 0) }
{
    let mut ranks = vec![in alloc; 0; n]?;
    ranks[root as usize] = 1;
    let mut places = Vec::with_capacity(alloc, n)?;
    places.push(Place {
        node: root,
        parent: 0,
        edge: edges.len() as u32,
    })?;
    Ok(Reached { places, ranks })
}

/// Reaches the neighbours of the node at the place `p`, in the order of its resistors.
fn scan(
    edges: &[(u32, u32, u64)],
    links: &Links,
    p: usize,
    reached: &mut Reached,
) -> Result<(), Memory>
    requires count { length edges.now ≤ 2 ^ 28 }
    requires from_nodes { (j : ℕ) → j < length edges.now → (edge_at edges.now j).0 < length reached.old.ranks.items }
    requires to_nodes { (j : ℕ) → j < length edges.now → (edge_at edges.now j).1 < length reached.old.ranks.items }
    requires linked { length links.now.first.items ≡ length reached.old.ranks.items }
    requires most { length reached.old.ranks.items ≤ 2 ^ 30 }
    requires links { AreLinks edges.now links.now.first.items links.now.next.items }
    requires place { p < length reached.old.places.items }
    requires low { p < 2 ^ 30 }
    requires before { HasScanned reached.old edges.now reached.old p }
    ensures { IfOk result (λ _. HasScanned reached.old edges.now reached.new (p + 1)) }
{
    let node = reached.places[p].node;
    let mut j = links.first[node as usize];
    'edges: while (j as usize) < edges.len() {
        let place = Place {
            node: far_end(edges[j as usize], node),
            parent: p as u32,
            edge: j,
        };
        reach(reached, place)?;
        j = following(edges[j as usize], node, links.next[j as usize]);
    }
    Ok(())
}

/// The other end of a resistor at `node`.
fn far_end(edge: (u32, u32, u64), node: u32) -> u32
    requires { IsEndOf edge node }
    ensures { Joins edge node result }
{
    let (from, to, _) = edge;
    if from == node { to } else { from }
}

/// What follows a resistor at its end `node`.
fn following(edge: (u32, u32, u64), node: u32, next: Next) -> u32
    requires { IsEndOf edge node }
    ensures { ((edge.0 ≡ node) × (result ≡ next.at_from)) ⊎ ((edge.1 ≡ node) × (result ≡ next.at_to)) }
{
    if edge.0 == node {
        next.at_from
    } else {
        next.at_to
    }
}

/// Gives the node the next place, unless it has one.
fn reach(reached: &mut Reached, place: Place) -> Result<(), Memory>
    requires node { place.node < length reached.old.ranks.items }
    requires few { length reached.old.places.items ≤ 2 ^ 30 }
    ensures ranks { IfOk result (λ _. reached.new.ranks.items ≡ ranks_with reached.old place) }
    ensures places { IfOk result (λ _. reached.new.places.items ≡ places_with reached.old place) }
{
    let node = place.node as usize;
    if reached.ranks[node] == 0 {
        reached.places.push(place)?;
        reached.ranks[node] = reached.places.len() as u32;
    }
    Ok(())
}

/// The node of the least number that was not reached.
pub(crate) fn first_unseen(ranks: &[u32]) -> Option<u32>
    requires { length ranks.now ≤ 2 ^ 30 }
    ensures { MatchOption result (AreAllSeen ranks.now) (IsFirstUnseen ranks.now) }
{
    'nodes: for v in 0..ranks.len() {
        if ranks[v] == 0 {
            return Some(v as u32);
        }
    }
    None
}
