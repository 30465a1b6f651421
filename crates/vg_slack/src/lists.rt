//! The lists of candidates that a search keeps of the nodes of a net.

ghost use Rattle.std.specs.Prelude.{◌≡◌, ◌≢◌, ℕ, ◌+◌, ◌≤◌, ◌<◌, Bool, true, false, ◌++◌, length, OnOk, IfOk};
ghost use Rattle.cand_pool.specs.Pools.{IsLive, items_of};
ghost use Rattle.cand_uses.specs.Pairs.{pairs_of};
ghost use Rattle.cand_turns.specs.Branches.{list_of, classes_in};
ghost use Rattle.vg_slack.specs.Kept.{kept_in, lists_at, AreEmpty};

use cand_pool::{List, Pool, Steps};
use cand_turns::Branch;
use elmore::Pair;
use std::alloc::Global;
use std::sync::ledger::Ledger;
use vg_num::Memory;

/// The candidates that a search kept of a node, by rising required time (zs) and load (aF): for a signal that is not
/// inverted there, and for one that is (Lillis, Cheng and Lin 1996).
#[derive(Drop)]
pub struct NodeLists {
    pub even: Vec<Pair>,
    pub odd: Vec<Pair>,
}

/// The lists of all nodes of a net, by their numbers, or none where a search keeps none.
#[derive(Drop)]
pub struct Lists {
    pub nodes: Vec<NodeLists>,
}

/// Puts the pairs of a list, in order, at the end of others. Answers `Memory` when out of memory.
fn copy<L: Ledger>(
    pool: &Pool,
    list: &List,
    to: &mut Vec<Pair>,
    steps: &mut Steps<L>,
) -> Result<(), Memory>
    requires live { IsLive pool.now list.now }
    ensures pairs { OnOk result (to.new.items ≡ to.old.items ++ pairs_of (items_of pool.now list.now)) }
    ensures steps { steps.new ≤ steps.old + length (items_of pool.now list.now) }
{
    to.reserve_exact(pool.len(list))?;
    let mut next = pool.first(list);
    'walk: while let Some(place) = next {
        let (q, c, _) = pool.tell(place, steps);
        to.push(Pair { q, c })?;
        next = pool.next(place);
    }
    Ok(())
}

impl NodeLists {
    /// Keeps the candidates of a branch in lists that are empty. Answers `Memory` when out of memory.
    fn fill<L: Ledger>(
        &mut self,
        pool: &Pool,
        branch: &Branch,
        steps: &mut Steps<L>,
    ) -> Result<(), Memory>
        requires live { (odd : Bool) → IsLive pool.now (list_of branch.now odd) }
        requires none { AreEmpty (kept_in self.old) }
        ensures kept { OnOk result ((odd : Bool)
            → kept_in self.new odd ≡ pairs_of (classes_in pool.now branch.now odd)) }
        ensures steps { steps.new ≤ steps.old + length (classes_in pool.now branch.now false)
            + length (classes_in pool.now branch.now true) }
    {
        copy(pool, &branch.even, &mut self.even, steps)?;
        copy(pool, &branch.odd, &mut self.odd, steps)
    }
}

impl Lists {
    /// Empty lists of so many nodes. Answers `Memory` when out of memory.
    pub(crate) fn new(alloc: Global, n: usize) -> Result<Lists, Memory>
        ensures nodes { IfOk result (λ lists. length lists.nodes.items ≡ n) }
        ensures none { IfOk result (λ lists. (v : ℕ) → AreEmpty (lists_at lists v)) }
    {
        let mut nodes = Vec::with_capacity(alloc, n)?;
        'nodes: for _node in 0..n {
            nodes.push(NodeLists {
                even: Vec::new(alloc),
                odd: Vec::new(alloc),
            })?;
        }
        Ok(Lists { nodes })
    }

    /// Keeps the candidates of a node, where lists of it are kept at all. Answers `Memory` when out of memory.
    pub(crate) fn keep<L: Ledger>(
        &mut self,
        pool: &Pool,
        branch: &Branch,
        node: usize,
        steps: &mut Steps<L>,
    ) -> Result<(), Memory>
        requires live { (odd : Bool) → IsLive pool.now (list_of branch.now odd) }
        requires none { AreEmpty (lists_at self.old node) }
        ensures nodes { length self.new.nodes.items ≡ length self.old.nodes.items }
        ensures others { (v : ℕ) → v ≢ node → lists_at self.new v ≡ lists_at self.old v }
        ensures kept { OnOk result (node < length self.old.nodes.items → (odd : Bool)
            → lists_at self.new node odd ≡ pairs_of (classes_in pool.now branch.now odd)) }
        ensures steps { steps.new ≤ steps.old + length (classes_in pool.now branch.now false)
            + length (classes_in pool.now branch.now true) }
    {
        let Some(kept) = self.nodes.get_mut(node) else {
            return Ok(());
        };
        kept.fill(pool, branch, steps)
    }
}
