//! Frontiers by all placements.

use crate::enumerate::{Good, judged};
use elmore::Problem;
use std::alloc::Global;
use std::test::Fail;
use vg_front::Point;

/// Of what good placements come to that which no other one outdoes, by rising cost.
pub fn front_of(alloc: Global, all: &[Good]) -> Result<Vec<Good>, Fail> {
    let mut sorted = all.to_vec(alloc)?;
    sorted.sort_by_key(|good| good.cost)?;
    let mut front: Vec<Good> = Vec::new(alloc);
    for good in sorted.iter() {
        let last = front.as_slice().last().copied();
        if last.is_none_or(|last| good.slack > last.slack) {
            if last.is_some_and(|last| good.cost == last.cost) {
                front.pop();
            }
            front.push(*good)?;
        }
    }
    Ok(front)
}

/// Whether two placements have the same cost and the same slack.
fn is_same(one: &Good, other: &Good) -> bool {
    one.cost == other.cost && one.slack == other.slack
}

/// Whether two frontiers have the same points.
pub fn are_same(one: &[Good], other: &[Good]) -> bool {
    one.len() == other.len() && one.iter().zip(other.iter()).all(|(a, b)| is_same(a, b))
}

/// Whether a cost (thousandths) is within the cap.
fn is_within(cap: Option<u64>, cost: u64) -> bool {
    cap.is_none_or(|most| cost <= most)
}

/// Whether a point is this one, and its placement comes to it.
fn is_point(alloc: Global, p: &Problem, point: &Point, want: &Good) -> Result<bool, Fail> {
    let Some(good) = judged(alloc, p, point.placement.cells.as_slice())? else {
        return Ok(false);
    };
    Ok(point.cost == want.cost && point.slack == want.slack && is_same(&good, want))
}

/// Whether these points are those of a frontier that are within the cap.
pub fn are_points(
    alloc: Global,
    p: &Problem,
    points: &[Point],
    front: &[Good],
    cap: Option<u64>,
) -> Result<bool, Fail> {
    let count = front
        .iter()
        .filter(|good| is_within(cap, good.cost))
        .count();
    if points.len() != count {
        return Ok(false);
    }
    for (point, want) in points.iter().zip(front.iter()) {
        if !is_point(alloc, p, point, want)? {
            return Ok(false);
        }
    }
    Ok(true)
}
