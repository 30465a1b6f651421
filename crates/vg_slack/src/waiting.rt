//! Which nodes of a net have not come in to their parents, so that they come in depth first.

ghost use Rattle.std.specs.Prelude.{◌≡◌, ℕ, ◌<◌, ◌^◌, length, sum, slice_index, IfOk};
ghost use Rattle.elmore.specs.Trees.{parent_of};
ghost use Rattle.vg_slack.specs.Waits.{last_at, AreAllWaiting, IsWaiting, IsCrossedOff};

use elmore::Problem;
use std::alloc::Global;
use vg_num::Memory;

/// The nodes of a net that have not come in, each to its parent. A node comes in after all nodes below it, and after
/// all greater children of its parent: so the lists of few nodes are there at a time.
#[derive(Drop)]
pub(crate) struct Waiting {
    /// Of each node the last child that has not come in, or the node itself where none is left.
    pub last: Vec<u32>,
    /// Of each node the child of the same parent that is next before it, or the parent where it is the first.
    pub before: Vec<u32>,
}

/// The parent of a node.
pub(crate) fn parent_of(p: &Problem, node: usize) -> usize
    requires some { 0 < node }
    requires node { node < length p.now.tree.nodes }
    ensures parent { result ≡ parent_of p.now.tree.nodes node }
    ensures less { result < node }
{
    p.tree.nodes.as_slice()[node].parent as usize
}

/// The numbers of so many nodes.
fn numbers(alloc: Global, n: usize) -> Result<Vec<u32>, Memory>
    requires few { n < 2 ^ 32 }
    ensures count { IfOk result (λ numbers. length numbers.items ≡ n) }
    ensures each { IfOk result (λ numbers. (v : ℕ) → v < n → slice_index numbers.items v ≡ v) }
{
    let mut numbers = Vec::with_capacity(alloc, n)?;
    'nodes: for v in 0..n {
        numbers.push(v as u32)?;
    }
    Ok(numbers)
}

impl Waiting {
    /// All nodes of a net, of which none came in yet.
    pub(crate) fn of(alloc: Global, p: &Problem) -> Result<Waiting, Memory>
        ensures { IfOk result (AreAllWaiting p.now) }
    {
        let n = p.tree.nodes.len();
        let mut last = numbers(alloc, n)?;
        let mut before = numbers(alloc, n)?;
        'nodes: for v in 1..n {
            let parent = parent_of(p, v);
            before[v] = last[parent];
            last[parent] = v as u32;
        }
        Ok(Waiting { last, before })
    }

    /// The last child of a node that has not come in, or the node itself where none is left.
    pub(crate) fn last(&self, node: usize) -> usize
        requires { node < length self.now.last.items }
        ensures { result ≡ last_at self.now node }
    {
        self.last[node] as usize
    }

    /// A node to which all its children came in comes in to its parent.
    pub(crate) fn cross_off(&mut self, p: &Problem, node: usize)
        requires below_root { 0 < node }
        requires waiting { IsWaiting p.now self.old node }
        requires whole { last_at self.old node ≡ node }
        ensures waiting { IsWaiting p.now self.new (parent_of p.now.tree.nodes node) }
        ensures crossed { IsCrossedOff p.now node self.old self.new }
        ensures fewer { sum self.new.last.items < sum self.old.last.items }
    {
        let parent = parent_of(p, node);
        self.last[parent] = self.before[node];
    }
}
