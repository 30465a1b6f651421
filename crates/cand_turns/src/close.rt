//! Cells at a node.

ghost use Rattle.std.specs.Prelude.{◌≡◌, ◌+◌, ◌*◌, ◌<◌, ◌≤◌, Bool, true, false, not, [], ◌∷◌, ◌++◌, length, slice_index_or, IfOk, OnOk, MatchResult};
ghost use Rattle.elmore.specs.Allowances.{allowed_at};
ghost use Rattle.sol_arena.specs.Arenas.{slots_of, made_of};
ghost use Rattle.cand_pool.specs.Candidates.{AreModest, Candidates};
ghost use Rattle.cand_pool.specs.Pools.{spare, IsLive, items_of};
ghost use Rattle.cand_uses.specs.Pairs.{pairs_of};
ghost use Rattle.cand_uses.specs.Uses.{HoldsFor, MeanTheSame};
ghost use Rattle.cand_lists.specs.ListLaws.{AreRising, both};
ghost use Rattle.cand_turns.specs.Swaps.{AreHeld, IsSwap, IsTurn, search};
ghost use Rattle.cand_turns.specs.Branches.{classes_in, list_of, lists_of};
ghost use Rattle.cand_turns.specs.Solved.{CanWiden, IsOpenAt, IsClosedAt};
ghost use Rattle.vg_convex.specs.Answers.{HasFound};
ghost use Rattle.vg_convex.specs.Orders.{IsShelf};
ghost use Rattle.cand_turns.specs.Tooled.{AreToolsOf, HaveFound, HaveFoundAt, added_at};
ghost use Rattle.cand_turns.specs.Celled.{IsMadeOfClasses, IsOpenList, AreBest};

use crate::branch::Branch;
use crate::tools::Tools;
use cand_lists::absorb;
use cand_pool::{List, Pool, Steps};
use cand_uses::end_list;
use elmore::Problem;
use sol_arena::Arena;
use std::sync::ledger::Ledger;
use vg_convex::{Kept, Shelf, Work, add_cells, find_each};
use vg_num::Memory;
use wire_widths::Width;

/// Finds for each repeater that a place allows the greatest time that it makes of a list there, and keeps it in the
/// work.
fn find_at<L: Ledger>(
    pool: &Pool,
    p: &Problem,
    node: usize,
    from: &List,
    shelf: &Shelf,
    work: &mut Work,
    steps: &mut Steps<L>,
) -> Result<(), Memory>
    requires node { node < length p.now.tree.nodes }
    requires shelf { IsShelf p.now.reps shelf.now }
    requires live { IsLive pool.now from.now }
    requires rising { AreRising (items_of pool.now from.now) }
    requires modest { AreModest (items_of pool.now from.now) }
    ensures found { OnOk result
        (HasFound (allowed_at p.now.allowed node) p.now.reps (items_of pool.now from.now) work.new) }
{
    let allowed = &p.allowed.as_slice()[node];
    find_each(pool, from, p.reps.as_slice(), shelf, allowed, work, steps)?;
    Ok(())
}

/// The candidates with a cell of one class of a place, where one work has what was found for the list of that class,
/// which the buffers drive there, and the other one for the list of the other class, which the inverters drive.
fn add_at(
    pool: &mut Pool,
    arena: &mut Arena,
    p: &Problem,
    widths: &[Width],
    node: usize,
    shelf: &Shelf,
    own: &Work,
    other: &Work,
    kept: &mut Kept,
) -> Result<List, Memory>
    requires node { node < length p.now.tree.nodes }
    requires widths { CanWiden p.now widths.now }
    requires place { slice_index_or p.now.places node false ≡ true }
    requires room { length p.now.reps ≤ spare pool.old }
    requires shelf { IsShelf p.now.reps shelf.now }
    requires found { (odd : Bool) × (classes : Bool → Candidates) × HaveFoundAt p.now node odd classes own.now other.now
        × ((o : Bool) → HoldsFor (slots_of arena.old) (classes o)
        × IsOpenList p.now widths.now node o (made_of arena.old) (classes o)) }
    ensures turn { MatchResult result
        (λ list. IsTurn (search pool.old arena.old) [] (search pool.new arena.new) (list ∷ []))
        (λ _. IsSwap (search pool.old arena.old) [] (search pool.new arena.new) []) }
    ensures best { IfOk result (λ list. (odd : Bool) (classes : Bool → Candidates)
        → HaveFoundAt p.now node odd classes own.now other.now
        → ((o : Bool) → IsOpenList p.now widths.now node o (made_of arena.old) (classes o))
        → AreBest p.now widths.now node odd (IsMadeOfClasses p.now node odd classes) (made_of arena.new)
        (items_of pool.new list)) }
    ensures few { IfOk result (λ list. length (items_of pool.new list) ≤ length p.now.reps) }
{
    let _ = widths;
    let list = add_cells(
        pool,
        arena,
        node as u32,
        p.reps.as_slice(),
        shelf,
        own,
        other,
        kept,
    )?;
    Ok(list)
}

impl Branch {
    /// Finds for each repeater that a place allows the greatest time that it makes of either class, and keeps it in the
    /// tools.
    fn find<L: Ledger>(
        &self,
        pool: &Pool,
        p: &Problem,
        node: usize,
        tools: &mut Tools,
        steps: &mut Steps<L>,
    ) -> Result<(), Memory>
        requires node { node < length p.now.tree.nodes }
        requires tools { AreToolsOf p.now tools.old }
        requires live { (odd : Bool) → IsLive pool.now (list_of self.now odd) }
        requires rising { (odd : Bool) → AreRising (classes_in pool.now self.now odd) }
        requires modest { (odd : Bool) → AreModest (classes_in pool.now self.now odd) }
        ensures tools { AreToolsOf p.now tools.new }
        ensures found { OnOk result (HaveFound p.now node (classes_in pool.now self.now) tools.new) }
    {
        let Tools {
            shelf,
            even,
            odd,
            ..
        } = tools;
        find_at(pool, p, node, &self.even, shelf, even, steps)?;
        find_at(pool, p, node, &self.odd, shelf, odd, steps)?;
        Ok(())
    }

    /// The candidates with a cell at a place, where these are those without one; these stay.
    fn with_cells<L: Ledger>(
        &self,
        pool: &mut Pool,
        arena: &mut Arena,
        p: &Problem,
        widths: &[Width],
        node: usize,
        tools: &mut Tools,
        steps: &mut Steps<L>,
    ) -> Result<Branch, Memory>
        requires node { node < length p.now.tree.nodes }
        requires widths { CanWiden p.now widths.now }
        requires place { slice_index_or p.now.places node false ≡ true }
        requires tools { AreToolsOf p.now tools.old }
        requires held { AreHeld (search pool.old arena.old) (lists_of self.now) }
        requires open { IsOpenAt p.now widths.now (node + 1) node (made_of arena.old) (classes_in pool.old self.now) }
        ensures tools { AreToolsOf p.now tools.new }
        ensures turn { MatchResult result
            (λ cells. IsTurn (search pool.old arena.old) [] (search pool.new arena.new) (lists_of cells))
            (λ _. IsSwap (search pool.old arena.old) [] (search pool.new arena.new) []) }
        ensures best { IfOk result (λ cells. (odd : Bool)
            → AreBest p.now widths.now node odd (IsMadeOfClasses p.now node odd (classes_in pool.old self.now))
            (made_of arena.new) (classes_in pool.new cells odd)) }
        ensures few { IfOk result (λ cells. (odd : Bool) → length (classes_in pool.new cells odd) ≤ length p.now.reps) }
    {
        pool.reserve(2 * p.reps.len())?;
        self.find(pool, p, node, tools, steps)?;
        let Tools {
            shelf,
            even,
            odd,
            kept,
            ..
        } = tools;
        let list = add_at(pool, arena, p, widths, node, shelf, even, odd, kept)?;
        match add_at(pool, arena, p, widths, node, shelf, odd, even, kept) {
            Ok(other) => Ok(Branch {
                even: list,
                odd: other,
            }),
            Err(memory) => {
                end_list(pool, arena, list);
                Err(memory)
            }
        }
    }

    /// Takes all candidates of another branch into this one, class by class, and gives up those that are then
    /// dominated.
    fn absorb<L: Ledger>(
        &mut self,
        pool: &mut Pool,
        arena: &mut Arena,
        other: Branch,
        steps: &mut Steps<L>,
    )
        requires held { AreHeld (search pool.old arena.old) (lists_of self.old ++ lists_of other) }
        requires rising { (odd : Bool) → AreRising (classes_in pool.old self.old odd) }
        requires rising_other { (odd : Bool) → AreRising (classes_in pool.old other odd) }
        ensures classes { (odd : Bool) → classes_in pool.new self.new odd
            ≡ both (classes_in pool.old self.old odd) (classes_in pool.old other odd) }
        ensures same { (odd : Bool)
            → MeanTheSame (made_of arena.old) (made_of arena.new) (classes_in pool.new self.new odd) }
        ensures turn { IsTurn (search pool.old arena.old) (lists_of self.old ++ lists_of other)
            (search pool.new arena.new) (lists_of self.new) }
    {
        let Branch { even, odd } = other;
        absorb(pool, arena, &mut self.even, even, steps);
        absorb(pool, arena, &mut self.odd, odd, steps);
    }

    /// The candidates of a node with and without a cell there, where these are those without one. Answers `Memory`
    /// where there is no room; the branch is given up then.
    pub fn close<L: Ledger>(
        self,
        pool: &mut Pool,
        arena: &mut Arena,
        p: &Problem,
        widths: &[Width],
        node: usize,
        tools: &mut Tools,
        steps: &mut Steps<L>,
    ) -> Result<Branch, Memory>
        requires node { node < length p.now.tree.nodes }
        requires widths { CanWiden p.now widths.now }
        requires tools { AreToolsOf p.now tools.old }
        requires held { AreHeld (search pool.old arena.old) (lists_of self) }
        requires open { IsOpenAt p.now widths.now (node + 1) node (made_of arena.old) (classes_in pool.old self) }
        ensures tools { AreToolsOf p.now tools.new }
        ensures turn { MatchResult result
            (λ branch. IsTurn (search pool.old arena.old) (lists_of self) (search pool.new arena.new) (lists_of branch))
            (λ _. IsSwap (search pool.old arena.old) (lists_of self) (search pool.new arena.new) []) }
        ensures closed { IfOk result (λ branch.
            IsClosedAt p.now widths.now node (made_of arena.new) (classes_in pool.new branch)) }
        ensures few { IfOk result (λ branch. (odd : Bool)
            → length (classes_in pool.new branch odd) ≤ length (classes_in pool.old self odd) + added_at p.now node) }
    {
        if !p.places.as_slice()[node] {
            return Ok(self);
        }
        let mut branch = self;
        match branch.with_cells(pool, arena, p, widths, node, tools, steps) {
            Ok(cells) => {
                branch.absorb(pool, arena, cells, steps);
                Ok(branch)
            }
            Err(memory) => {
                branch.give_up(pool, arena);
                Err(memory)
            }
        }
    }
}
