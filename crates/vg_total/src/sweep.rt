//! The picks of a sweep over the frontiers of several nets: where they begin, and how they move on.

ghost use Rattle.std.specs.Prelude.{◌<◌, ℕ, [], Option, IfOk, MatchBool, MatchOption, length};
ghost use Rattle.vg_total.specs.Picks.{front_at, at_of, ArePicks, AreFronts};
ghost use Rattle.vg_total.specs.Turns.{HasEmpty, NoneEmpty, IsMove, IsSweepTo};
ghost use Rattle.vg_total.specs.Sweeps.{IsMovedAt, IsLastAt};

use crate::pick::picked;
use std::alloc::Global;
use vg_front::Point;
use vg_num::Memory;

/// Whether one of the frontiers is empty.
fn has_empty(fronts: &[Vec<Point>]) -> bool
    ensures { MatchBool result (HasEmpty fronts.now) (NoneEmpty fronts.now) }
{
    fronts.iter().any(|front| front.is_empty())
}

/// Picks of the cheapest points, or none where a frontier has no point.
pub(crate) fn first_picks(alloc: Global, fronts: &[Vec<Point>]) -> Result<Option<Vec<u32>>, Memory>
    requires { AreFronts fronts.now }
    ensures { (cap : Option ℕ) → IfOk result (λ next. IsSweepTo fronts.now cap next []) }
{
    if has_empty(fronts) {
        return Ok(None);
    }
    let picks = vec![in alloc; 0; fronts.len()]?;
    Ok(Some(picks))
}

/// The next pick of net `k`: the same, or one more where its slack (zs) is at most this one; none where that was the
/// last.
fn onward(fronts: &[Vec<Point>], picks: &[u32], k: usize, slack: i128) -> Option<u32>
    requires fronts { AreFronts fronts.now }
    requires picks { ArePicks fronts.now picks.now }
    requires net { k < length fronts.now }
    ensures { MatchOption result (IsLastAt (front_at fronts.now) slack (at_of picks.now) k)
        (IsMovedAt (front_at fronts.now) slack (at_of picks.now) k) }
{
    let pick = picks[k];
    if slack < picked(fronts, picks, k).slack {
        return Some(pick);
    }
    if fronts[k].len() <= pick as usize + 1 {
        return None;
    }
    Some(pick + 1)
}

/// The picks after those of at most this slack (zs) moved on, or none where one of them was the last of its frontier.
pub(crate) fn moved(
    alloc: Global,
    fronts: &[Vec<Point>],
    picks: &[u32],
    slack: i128,
) -> Result<Option<Vec<u32>>, Memory>
    requires fronts { AreFronts fronts.now }
    requires picks { ArePicks fronts.now picks.now }
    ensures { IfOk result (IsMove fronts.now slack picks.now) }
{
    let mut after = Vec::new(alloc);
    'nets: for k in 0..fronts.len() {
        let Some(pick) = onward(fronts, picks, k, slack) else {
            return Ok(None);
        };
        after.push(pick)?;
    }
    Ok(Some(after))
}
