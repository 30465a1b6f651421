//! The way up a net, from its last node to its root.

ghost use Rattle.std.specs.Prelude.{◌≡◌, ◌↔◌, ℕ, ◌+◌, ◌<◌, ◌≤◌, Bool, [], length, OnOk, IfOk, IsTrue, MatchOption};
ghost use Rattle.elmore.specs.Trees.{parent_of};
ghost use Rattle.cand_pairs.specs.Candidates.{NodeLists as NodeListsSpec, IsLive, IsCover, IsCoveredAt, of_lists};
ghost use Rattle.vg_cert.specs.Fits.{lists_in};
ghost use Rattle.vg_check.specs.Orders.{IsOrder};
ghost use Rattle.vg_check.specs.Parts.{AreLists, AreParts, IsPart};
ghost use Rattle.vg_check.specs.Verdicts.{IsLastUncovered};

use crate::cover::covers_owns;
use crate::hull::Hull;
use crate::order::{Rank, by_limit};
use crate::part::Part;
use elmore::Problem;
use std::alloc::Global;
use std::mem;
use vg_cert::NodeLists;
use vg_num::Memory;

/// The parts of all nodes, to which no child came in yet.
fn start(alloc: Global, p: &Problem) -> Result<Vec<Part>, Memory>
    ensures count { IfOk result (λ parts. length parts.items ≡ length p.now.tree.nodes) }
    ensures parts { IfOk result (λ parts. (lists : NodeListsSpec)
        → AreParts p.now lists (length p.now.tree.nodes) parts.items) }
{
    let mut parts = Vec::new(alloc);
    'nodes: for node in 0..p.tree.nodes.len() {
        let part = Part::start(alloc, p, node)?;
        parts.push(part)?;
    }
    Ok(parts)
}

/// Whether the lists of a node to which all its children came in cover what comes up to it. Answers `Memory` where there
/// is no room.
fn is_covered(
    p: &Problem,
    node: usize,
    order: &[Rank],
    part: &Part,
    lists: &[NodeLists],
    hull: &mut Hull,
) -> Result<bool, Memory>
    requires order { IsOrder p.now.reps order.now }
    requires node { node < length p.now.tree.nodes }
    requires one_each { length lists.now ≡ length p.now.tree.nodes }
    requires lists { AreLists (lists_in lists.now) }
    requires whole { IsPart p.now (lists_in lists.now) (node + 1) node part.now }
    ensures { IfOk result (λ covered. IsTrue covered
        ↔ (IsLive p.now node → IsCoveredAt p.now (of_lists (lists_in lists.now)) node)) }
{
    match part {
        Part::Dead(_) => Ok(true),
        Part::Live(joins) => {
            let covered = covers_owns(p, node, order, &lists[node], joins, hull)?;
            Ok(covered)
        }
    }
}

/// A node to which all its children came in comes in to its parent, if it has one: its number is that of the parts
/// before it.
fn come_in(
    alloc: Global,
    p: &Problem,
    part: Part,
    lists: &[NodeLists],
    parts: &mut Vec<Part>,
) -> Result<(), Memory>
    requires node { length parts.old.items < length p.now.tree.nodes }
    requires one_each { length lists.now ≡ length p.now.tree.nodes }
    requires lists { AreLists (lists_in lists.now) }
    requires whole { IsPart p.now (lists_in lists.now) (length parts.old.items + 1) (length parts.old.items) part }
    requires parts { AreParts p.now (lists_in lists.now) (length parts.old.items + 1) parts.old.items }
    ensures count { length parts.new.items ≡ length parts.old.items }
    ensures parts { OnOk result (AreParts p.now (lists_in lists.now) (length parts.old.items) parts.new.items) }
{
    let node = parts.len();
    if node == 0 {
        return Ok(());
    }
    let parent = p.tree.nodes.as_slice()[node].parent as usize;
    let upper = mem::replace(&mut parts[parent], Part::Dead(0));
    parts[parent] = upper.take(alloc, p, node, part, lists)?;
    Ok(())
}

/// The node of greatest number that the lists do not cover. None where they cover all nodes.
pub(crate) fn last_uncovered(
    alloc: Global,
    p: &Problem,
    lists: &[NodeLists],
) -> Result<Option<u32>, Memory>
    requires one_each { length lists.now ≡ length p.now.tree.nodes }
    requires lists { AreLists (lists_in lists.now) }
    ensures { IfOk result (λ found.
        MatchOption found (IsCover p.now (of_lists (lists_in lists.now)))
        (IsLastUncovered p.now (lists_in lists.now))) }
{
    let mut parts = start(alloc, p)?;
    let order = by_limit(alloc, p)?;
    let mut hull = Hull::new(alloc);
    'nodes: while let Some(part) = parts.pop() {
        let node = parts.len();
        if !is_covered(p, node, &order, &part, lists, &mut hull)? {
            return Ok(Some(node as u32));
        }
        come_in(alloc, p, part, lists, &mut parts)?;
    }
    Ok(None)
}
