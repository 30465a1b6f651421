//! The resistors at each node, in their order, as lists in two tables.

ghost use Rattle.std.specs.Prelude.{◌≡◌, ℕ, ◌<◌, ◌≤◌, ◌^◌, length, slice_index, IfOk};
ghost use Rattle.rc_tree.specs.Chains.{edge_at};
ghost use Rattle.rc_tree.specs.Links.{AreLinks, AreLinksFrom};

use std::alloc::Global;
use vg_num::Memory;

/// The resistors that follow one, at each of its ends; the number of resistors where none does.
#[derive(Clone, Copy)]
pub(crate) struct Next {
    pub(crate) at_from: u32,
    pub(crate) at_to: u32,
}

/// For each node the numbers of its resistors, rising: its first one, and for each resistor those that follow it.
#[derive(Drop)]
pub(crate) struct Links {
    pub(crate) first: Vec<u32>,
    pub(crate) next: Vec<Next>,
}

/// The links of `n` nodes.
pub(crate) fn link(alloc: Global, n: usize, edges: &[(u32, u32, u64)]) -> Result<Links, Memory>
    requires count { length edges.now ≤ 2 ^ 28 }
    requires from_nodes { (j : ℕ) → j < length edges.now → (edge_at edges.now j).0 < n }
    requires to_nodes { (j : ℕ) → j < length edges.now → (edge_at edges.now j).1 < n }
    ensures nodes { IfOk result (λ links. length links.first.items ≡ n) }
    ensures links { IfOk result (λ links. AreLinks edges.now links.first.items links.next.items) }
{
    let none = edges.len() as u32;
    let mut first = vec![in alloc; none; n]?;
    let unlinked = Next {
        at_from: none,
        at_to: none,
    };
    let mut next = vec![in alloc; unlinked; edges.len()]?;
    fill(edges, &mut first, &mut next);
    Ok(Links { first, next })
}

/// From the last resistor on, each comes before those that its ends have by then.
fn fill(edges: &[(u32, u32, u64)], first: &mut [u32], next: &mut [Next])
    requires count { length edges.now ≤ 2 ^ 28 }
    requires from_nodes { (j : ℕ) → j < length edges.now → (edge_at edges.now j).0 < length first.old }
    requires to_nodes { (j : ℕ) → j < length edges.now → (edge_at edges.now j).1 < length first.old }
    requires none { (v : ℕ) → v < length first.old → slice_index first.old v ≡ length edges.now }
    requires room { length next.old ≡ length edges.now }
    ensures { AreLinksFrom 0 (length first.old) edges.now first.new next.new }
{
    'edges: for j in (0..edges.len()).rev() {
        let (from, to, _) = edges[j];
        let at_from = first[from as usize];
        let at_to = first[to as usize];
        next[j] = Next { at_from, at_to };
        first[from as usize] = j as u32;
        first[to as usize] = j as u32;
    }
}
