//! What repeaters find in a list at a node, and the list of what they make of it.

ghost use Rattle.std.specs.Prelude.{◌≡◌, ℕ, Bool, ◌+◌, ◌*◌, ◌^◌, ◌<◌, ◌≤◌, ◌∷◌, [], length, None, IfOk, OnOk, OnErr, MatchResult};
ghost use Rattle.std.specs.List.{All, AllPairs};
ghost use Rattle.elmore.specs.Pairs.{IsBelow, IsUndominated};
ghost use Rattle.elmore.specs.declared.allowed.Allowed.{Allowed as AllowedSpec};
ghost use Rattle.sol_arena.specs.Arenas.{slots_of, made_of};
ghost use Rattle.sol_arena.specs.Meanings.{cells_of};
ghost use Rattle.sol_arena.specs.Reach.{IsRestored};
ghost use Rattle.sol_arena.specs.Slots.{IsLive as IsLiveSolution};
ghost use Rattle.cand_pool.specs.Candidates.{Candidate, Candidates, AreModest};
ghost use Rattle.cand_pool.specs.Pools.{spare, Holds, IsLive, items_of, KeepsOthers, name};
ghost use Rattle.cand_uses.specs.Pairs.{pairs_of};
ghost use Rattle.cand_uses.specs.Uses.{IsExchange};
ghost use Rattle.vg_convex.specs.Answers.{HasFound, HaveFound};
ghost use Rattle.vg_convex.specs.Orders.{AreRising, IsShelf};
ghost use Rattle.vg_convex.specs.Lists.{MayStand, IsMade, AreBareAt, IsAttained, IsCell, KeepsSolutions, AreAdded, AreWithCells};

use crate::scan::scan_all;
use crate::search::find_all;
use crate::shelf::Shelf;
use crate::sweep::sweep;
use crate::work::{Kept, Made, Work};
use cand_pool::{List, Pool, Steps};
use cand_uses::give_up;
use elmore::{Allowed, Rep};
use sol_arena::{Arena, Sol};
use std::sync::ledger::Ledger;
use vg_num::Memory;

/// At most so many repeaters are each tried on each candidate: that takes less time than to build the hull.
const FEW: usize = 3;

/// Finds for each repeater of a shelf that a node allows the greatest time that it makes of the candidates of a list
/// within its limit, and keeps it in the work. A few repeaters are tried on each candidate (van Ginneken 1990); more
/// find it on the upper convex hull of the list (Li and Shi 2005). Answers `Memory` where there is no room.
pub fn find_each<L: Ledger>(
    pool: &Pool,
    from: &List,
    reps: &[Rep],
    shelf: &Shelf,
    allowed: &Allowed,
    work: &mut Work,
    steps: &mut Steps<L>,
) -> Result<(), Memory>
    requires from { IsLive pool.now from.now }
    requires rising { AllPairs IsBelow (pairs_of (items_of pool.now from.now)) }
    requires modest { AreModest (items_of pool.now from.now) }
    requires shelf { IsShelf reps.now shelf.now }
    requires allowed { AreRising allowed.now }
    ensures found { OnOk result (HasFound allowed.now reps.now (items_of pool.now from.now) work.new) }
    ensures steps { (d : ℕ) → length (items_of pool.now from.now) < 2 ^ d
        → steps.new ≤ steps.old + 3 * length (items_of pool.now from.now) + length reps.now * (d + 2) }
{
    work.clear(reps.len(), allowed)?;
    if reps.len() > FEW {
        return find_all(pool, from, reps, shelf, allowed, work, steps);
    }
    scan_all(pool, from, reps, allowed, work, steps);
    Ok(())
}

/// Puts results on a list, each with its cell. Answers `Memory` where there is no room; then some are on the list.
fn put_all(
    pool: &mut Pool,
    arena: &mut Arena,
    node: u32,
    results: &[Made],
    list: &mut List,
) -> Result<(), Memory>
    requires list { Holds pool.old list.old [] }
    requires room { length results.now ≤ spare pool.old }
    requires live { All (λ result. IsLiveSolution (made_of arena.old) result.tag) results.now }
    requires bare { All (λ result. cells_of (made_of arena.old) result.tag node ≡ None) results.now }
    ensures { (zs : Candidates) × AreAdded pool.old pool.new (slots_of arena.old) (slots_of arena.new) list.new zs
        × OnOk result (AreWithCells (made_of arena.old) (made_of arena.new) node results.now zs) }
{
    'results: for made in results {
        let sol = arena.cell(node, made.rep, Sol(made.tag))?;
        pool.push(list, made.pair.q, made.pair.c, sol.0);
    }
    Ok(())
}

/// The list of these results, each with its cell at a node, or what else was chosen at a site that solutions number with
/// the nodes. Answers `Memory` where there is no room; then lists, spare slots and solutions are as before.
pub fn list_of(
    pool: &mut Pool,
    arena: &mut Arena,
    node: u32,
    results: &[Made],
) -> Result<List, Memory>
    requires room { length results.now ≤ spare pool.old }
    requires live { All (λ result. IsLiveSolution (made_of arena.old) result.tag) results.now }
    requires bare { All (λ result. cells_of (made_of arena.old) result.tag node ≡ None) results.now }
    ensures added { IfOk result (λ list. (zs : Candidates)
        × AreAdded pool.old pool.new (slots_of arena.old) (slots_of arena.new) list zs
        × AreWithCells (made_of arena.old) (made_of arena.new) node results.now zs) }
    ensures others { OnErr result (KeepsOthers pool.old [] pool.new []) }
    ensures spare { OnErr result (spare pool.new ≡ spare pool.old) }
    ensures restored { OnErr result (IsRestored (slots_of arena.old) (slots_of arena.new)) }
{
    let mut list = pool.none();
    match put_all(pool, arena, node, results, &mut list) {
        Ok(()) => Ok(list),
        Err(error) => {
            let bag = pool.discard(list);
            give_up(pool, arena, bag);
            Err(error)
        }
    }
}

/// What repeaters make of two lists at a node that allows some of them, where one work has what was found for the list
/// that the buffers drive, and the other one for the list that the inverters drive: each repeater drives the candidate
/// within its limit that gives it the most time. The answer has the undominated ones of these pairs, each with the
/// repeater's cell added to the solution of the candidate that it drives. It is a new list. Answers `Memory` where
/// there is no room; then lists, spare slots and solutions are as before.
pub fn add_cells(
    pool: &mut Pool,
    arena: &mut Arena,
    node: u32,
    reps: &[Rep],
    shelf: &Shelf,
    buffers: &Work,
    inverters: &Work,
    kept: &mut Kept,
) -> Result<List, Memory>
    requires found { (allowed : AllowedSpec) × (lists : Bool → Candidates)
        × HaveFound allowed reps.now lists buffers.now inverters.now
        × ((inverts : Bool) → AreBareAt (made_of arena.old) node (lists inverts)) }
    requires room { length reps.now ≤ spare pool.old }
    requires shelf { IsShelf reps.now shelf.now }
    ensures list { IfOk result (λ list. IsLive pool.new list) }
    ensures undominated { IfOk result (λ list. (allowed : AllowedSpec) (lists : Bool → Candidates)
        → HaveFound allowed reps.now lists buffers.now inverters.now
        → IsUndominated (IsMade reps.now allowed lists) (pairs_of (items_of pool.new list))) }
    ensures attained { IfOk result (λ list. (allowed : AllowedSpec) (lists : Bool → Candidates)
        → HaveFound allowed reps.now lists buffers.now inverters.now
        → All (λ z. (b : ℕ) × (x : Candidate) × MayStand reps.now allowed b × IsAttained reps.now b lists x z
        × IsCell (made_of arena.old) (made_of arena.new) node b x.tag z.tag) (items_of pool.new list)) }
    ensures empty { (allowed : AllowedSpec) → HaveFound allowed reps.now (λ _. []) buffers.now inverters.now
        → IfOk result (λ list. items_of pool.new list ≡ []) }
    ensures few { IfOk result (λ list. length (items_of pool.new list) ≤ length reps.now) }
    ensures uses { IfOk result (λ list.
        IsExchange (slots_of arena.old) [] (slots_of arena.new) (items_of pool.new list)) }
    ensures solutions { KeepsSolutions (made_of arena.old) (made_of arena.new) }
    ensures restored { OnErr result (IsRestored (slots_of arena.old) (slots_of arena.new)) }
    ensures others { MatchResult result (λ list. KeepsOthers pool.old [] pool.new (name list ∷ []))
        (λ _. KeepsOthers pool.old [] pool.new []) }
    ensures spare { MatchResult result (λ list. spare pool.old ≡ spare pool.new + length (items_of pool.new list))
        (λ _. spare pool.new ≡ spare pool.old) }
{
    let results = &mut kept.results;
    sweep(
        reps,
        &shelf.inputs,
        &buffers.found,
        &inverters.found,
        results,
    )?;
    let list = list_of(pool, arena, node, results)?;
    Ok(list)
}
