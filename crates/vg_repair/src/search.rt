//! As much of a frontier as a target needs.

ghost use Rattle.std.specs.Prelude.{◌≡◌, ◌<◌, Some, IfOk, MatchBool};
ghost use Rattle.sol_arena.specs.Arenas.{slots_of};
ghost use Rattle.sol_arena.specs.Reach.{IsRestored};
ghost use Rattle.vg_slack.specs.Bests.{IsAnswer};
ghost use Rattle.vg_repair.specs.Picks.{NoneEnough, HasEnough, IsLastCap, IsSearched};

use cand_pool::Steps;
use elmore::{Problem, cost};
use sol_arena::Arena;
use std::alloc::Global;
use std::marker::Brand;
use std::sync::ledger::{Blank, Ledger};
use vg_front::{Point, frontier_in};
use vg_num::Memory;
use vg_slack::{Best, best_in};

/// How often the greatest cap is halved for the first search.
const HALVINGS: u32 = 5;

/// Of how many nodes a net is small: its whole frontier is found as quickly as a best placement and parts of it.
const SMALL: usize = 16;

/// A best placement of a problem, or none where no placement is good, by a search whose steps are counted in a ledger.
fn counted_best<L: Ledger>(
    alloc: Global,
    p: &Problem,
    arena: &mut Arena,
    blank: Blank,
) -> Result<Option<Best>, Memory>
    requires name { blank.name ≡ L.name }
    requires parts { blank.parts ≡ L.parts }
    requires some { 0 < L.parts }
    ensures found { IfOk result (IsAnswer p.now) }
    ensures restored { IsRestored (slots_of arena.old) (slots_of arena.new) }
{
    let mut steps = Steps::<L>::new(blank);
    let answer = best_in(alloc, p, false, arena, &mut steps)?;
    Ok(answer.found)
}

/// A best placement of a problem, or none where no placement is good. Answers `Memory` when out of memory.
pub(crate) fn best_of(alloc: Global, p: &Problem, arena: &mut Arena) -> Result<Option<Best>, Memory>
    ensures found { IfOk result (IsAnswer p.now) }
    ensures restored { IsRestored (slots_of arena.old) (slots_of arena.new) }
{
    counted_best::<Brand>(alloc, p, arena, Blank::new(1))
}

/// The lesser of the cap (thousandths), if there is one, and of what a best placement costs.
fn last_cap(cap: Option<u64>, best: u64) -> u64
    ensures { IsLastCap cap best result }
{
    match cap {
        Some(cap) if cap < best => cap,
        _ => best,
    }
}

/// Whether a point has a slack (zs) of the target or more.
fn has_enough(points: &[Point], target: i128) -> bool
    ensures { MatchBool result (HasEnough target points.now) (NoneEnough target points.now) }
{
    points.iter().any(|point| point.slack >= target)
}

/// The frontier within the first of some caps that double, the last of which is given (thousandths), in which a point
/// has a slack (zs) of the target or more, or within the last. The search for a frontier within a smaller cap is much
/// the shorter one.
fn near_points(
    alloc: Global,
    p: &Problem,
    last: u64,
    target: i128,
    arena: &mut Arena,
) -> Result<Vec<Point>, Memory>
    ensures searched { IfOk result (λ points. IsSearched p.now (Some last) target points.items) }
    ensures restored { IsRestored (slots_of arena.old) (slots_of arena.new) }
{
    'halvings: for halvings in (1..HALVINGS + 1).rev() {
        let points = frontier_in(alloc, p, Some(last >> halvings), arena)?;
        if has_enough(&points, target) {
            return Ok(points);
        }
    }
    frontier_in(alloc, p, Some(last), arena)
}

/// The points of the frontier within a cap (thousandths), where there is a cap, or as many of them as have one with a
/// slack (zs) of the target or more. A best placement is given: what costs more has no more slack.
fn search_below(
    alloc: Global,
    p: &Problem,
    cap: Option<u64>,
    target: i128,
    best: &Best,
    arena: &mut Arena,
) -> Result<Vec<Point>, Memory>
    requires best { IsAnswer p.now (Some best.now) }
    ensures searched { IfOk result (λ points. IsSearched p.now cap target points.items) }
    ensures restored { IsRestored (slots_of arena.old) (slots_of arena.new) }
{
    let last = last_cap(cap, cost(p, &best.placement));
    if best.slack < target {
        return frontier_in(alloc, p, Some(last), arena);
    }
    near_points(alloc, p, last, target, arena)
}

/// The points of the frontier within a cap (thousandths), where there is a cap, or as many of them as have one with a
/// slack (zs) of the target or more. Answers `Memory` when out of memory.
pub(crate) fn search(
    alloc: Global,
    p: &Problem,
    cap: Option<u64>,
    target: i128,
    arena: &mut Arena,
) -> Result<Vec<Point>, Memory>
    ensures searched { IfOk result (λ points. IsSearched p.now cap target points.items) }
    ensures restored { IsRestored (slots_of arena.old) (slots_of arena.new) }
{
    if p.tree.nodes.len() <= SMALL {
        return frontier_in(alloc, p, cap, arena);
    }
    match best_of(alloc, p, arena)? {
        Some(best) => search_below(alloc, p, cap, target, &best, arena),
        None => Ok(Vec::new(alloc)),
    }
}
