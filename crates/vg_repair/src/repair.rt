//! The repair of a net.

ghost use Rattle.std.specs.Prelude.{◌≡◌, ℕ, Option, IfOk, IsSomeAnd, IfSome, MatchBool};
ghost use Rattle.elmore.specs.declared.problem.Problem.{Problem as ProblemSpec};
ghost use Rattle.sol_arena.specs.Arenas.{slots_of};
ghost use Rattle.sol_arena.specs.Reach.{IsRestored};
ghost use Rattle.vg_repair.specs.Picks.{IsBareOf, IsSearched};
ghost use Rattle.vg_repair.specs.Repairs.{IsEnough, NeedsCells, IsRepairAnswer};

use crate::bare::bare_placement;
use crate::pick::pick;
use crate::search::search;
use elmore::Problem;
use sol_arena::Arena;
use std::alloc::Global;
use vg_front::Point;
use vg_num::Memory;
use vg_slack::Best;

/// Whether the placement without a cell is good and its slack (zs) is the target or more.
fn is_enough(bare: &Option<Best>, target: i128) -> bool
    ensures { MatchBool result (IsSomeAnd bare.now (λ best. IsEnough target best.slack))
        (IfSome bare.now (λ best. IsEnough target best.slack → ⊥)) }
{
    bare.as_ref().is_some_and(|best| best.slack >= target)
}

/// The repair by the points that a search found, where the placement without a cell has not slack (zs) enough. It is
/// still that one where it has as much as the point to take.
fn repair_by(points: Vec<Point>, bare: Option<Best>, target: i128) -> Option<Best>
    ensures { (p : ProblemSpec) (cap : Option ℕ) → IsSearched p cap target points.items → IsBareOf p bare
        → NeedsCells p target → IsRepairAnswer p cap target result }
{
    let point = pick(points, target)?;
    match bare {
        Some(best) if best.slack == point.slack => Some(best),
        _ => Some(Best {
            slack: point.slack,
            placement: point.placement,
        }),
    }
}

/// The cheapest good placement of a problem whose slack (zs) is the target or more, within a cap of the cost
/// (thousandths) where there is a cap: the one without a cell where it has so much slack, and otherwise one of the
/// least cost and, at this cost, the greatest slack. Where none has so much, one with the greatest slack of all, at the
/// least cost that has it, and without a cell where that is as good. `None`: no good placement is within the cap.
///
/// Where the placement without a cell has not slack enough, the answer has the cost and the slack of a point of the
/// frontier of cost and slack (Lillis, Cheng and Lin 1996): of the first one with slack enough, or of the last one. Of a
/// large net a best placement is searched first (van Ginneken 1990), which is quicker: no repair has to cost more than
/// it does, and where it has slack enough, as much of the frontier is made as has a point with slack enough, within caps
/// that double.
/// Elsewhere nothing is searched. The solutions of a search stand in the lent arena, which afterwards is as before.
/// Answers `Memory` when out of memory.
pub fn repaired(
    alloc: Global,
    p: &Problem,
    cap: Option<u64>,
    target: i128,
    arena: &mut Arena,
) -> Result<Option<Best>, Memory>
    ensures repair { IfOk result (IsRepairAnswer p.now cap target) }
    ensures restored { IsRestored (slots_of arena.old) (slots_of arena.new) }
{
    let bare = bare_placement(alloc, p)?;
    if is_enough(&bare, target) {
        return Ok(bare);
    }
    let points = search(alloc, p, cap, target, arena)?;
    Ok(repair_by(points, bare, target))
}
