//! The frontier of several nets, by a sweep over theirs. All picks begin at the cheapest points, and those of the least
//! slack move on together: what they come to in between is the frontier of all nets.

ghost use Rattle.std.specs.Prelude.{◌<◌, Some, IfOk};
ghost use Rattle.vg_total.specs.Picks.{AreFronts, AreTotals};
ghost use Rattle.vg_total.specs.Turns.{IsSweep, IsSweepTo, left_in};

use crate::pick::{TotalPoint, cost_of, is_within, least_of};
use crate::sweep::{first_picks, moved};
use std::alloc::Global;
use vg_front::Point;
use vg_num::Memory;

/// Adds what the picks come to, where that is within the cap, to the points, and moves the picks on. Answers none at the
/// end.
fn turn(
    alloc: Global,
    fronts: &[Vec<Point>],
    cap: Option<u64>,
    picks: Vec<u32>,
    points: &mut Vec<TotalPoint>,
) -> Result<Option<Vec<u32>>, Memory>
    requires fronts { AreFronts fronts.now }
    requires sweep { IsSweep fronts.now cap picks.items points.old.items }
    ensures sweep { IfOk result (λ next. IsSweepTo fronts.now cap next points.new.items) }
    ensures nearer { IfOk result (λ next. left_in fronts.now next < left_in fronts.now (Some picks)) }
{
    let cost = cost_of(fronts, &picks);
    if !is_within(cap, cost) {
        return Ok(None);
    }
    let slack = least_of(fronts, &picks);
    let next = moved(alloc, fronts, &picks, slack)?;
    points.push(TotalPoint { cost, slack, picks })?;
    Ok(next)
}

/// The frontier of several nets within a cap of the cost (thousandths), if there is one. A choice takes one point of
/// each net's frontier, costs their sum, and has the least of their slacks: the points are those of the choices that no
/// other outdoes, by rising cost, each with its picks. There is none exactly where no choice is within the cap. Where
/// the frontiers are those of nets under the same cap, this is the frontier over all choices of good placements.
///
/// There is at least one frontier. Each has fewer than 2^32 points, and cost and slack rise strictly along it. The time
/// is linear in the number of nets and the size of the answer. Answers `Memory` when out of memory.
pub fn total(
    alloc: Global,
    fronts: &[Vec<Point>],
    cap: Option<u64>,
) -> Result<Vec<TotalPoint>, Memory>
    requires { AreFronts fronts.now }
    ensures { IfOk result (λ points. AreTotals fronts.now cap points.items) }
{
    let mut points = Vec::new(alloc);
    let mut next = first_picks(alloc, fronts)?;
    'turns: while let Some(picks) = next {
        next = turn(alloc, fronts, cap, picks, &mut points)?;
    }
    Ok(points)
}
