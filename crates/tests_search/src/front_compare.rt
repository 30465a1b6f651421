//! Frontiers of problems at random, compared with all placements.

use crate::draft::{Draft, Without};
use crate::enumerate::{Good, all_good};
use crate::front_kinds::{Kinds, count};
use crate::front_plain::{are_points, are_same, front_of};
use elmore::Problem;
use sol_arena::Arena;
use std::alloc::Global;
use std::test::Fail;
use tests_random::Random;
use vg_front::{Point, frontier, frontier_in};

/// No cap, and caps (thousandths) about the cost of a point: this cost, one less and one more.
fn caps_about(front: &[Good], random: &mut Random) -> [Option<u64>; 4] {
    let size = front.len() as u64;
    let at = random.draw(size.max(1)) as usize;
    let cost = front.get(at).map_or(0, |point| point.cost);
    [
        None,
        Some(cost),
        Some(cost.saturating_sub(1)),
        Some(cost.saturating_add(1)),
    ]
}

/// The points that the search finds within a cap: without one in an arena of its own, else in the lent one.
fn found(
    alloc: Global,
    p: &Problem,
    cap: Option<u64>,
    arena: &mut Arena,
) -> Result<Vec<Point>, Fail> {
    if cap.is_none() {
        return Ok(frontier(alloc, p, cap)?);
    }
    Ok(frontier_in(alloc, p, cap, arena)?)
}

/// Whether the search answers the points of this frontier within each of these caps, and leaves nothing in the lent
/// arena.
fn agrees(
    alloc: Global,
    p: &Problem,
    front: &[Good],
    caps: &[Option<u64>],
    arena: &mut Arena,
) -> Result<bool, Fail> {
    for cap in caps {
        let points = found(alloc, p, *cap, arena)?;
        if !are_points(alloc, p, points.as_slice(), front, *cap)? || arena.live() != 0 {
            return Ok(false);
        }
    }
    Ok(true)
}

/// The frontier of a problem, by all placements. The problem is counted, as wrong where the search answers another one.
fn checked(
    alloc: Global,
    draft: &Draft,
    without: Without,
    kinds: &mut Kinds,
    random: &mut Random,
    arena: &mut Arena,
) -> Result<Vec<Good>, Fail> {
    let problem = draft.problem(alloc, without)?;
    let all = all_good(alloc, &problem, draft.free.as_slice())?;
    let front = front_of(alloc, all.as_slice())?;
    let caps = caps_about(front.as_slice(), random);
    let right = agrees(alloc, &problem, front.as_slice(), &caps, arena)?;
    count(&mut kinds.wrong, !right);
    kinds.add(&problem, all.as_slice(), front.as_slice());
    Ok(front)
}

/// Checks a problem without some of its parts. Answers whether the frontier is another one then.
fn changes(
    alloc: Global,
    draft: &Draft,
    without: Without,
    front: &[Good],
    kinds: &mut Kinds,
    random: &mut Random,
    arena: &mut Arena,
) -> Result<bool, Fail> {
    let other = checked(alloc, draft, without, kinds, random, arena)?;
    Ok(!are_same(other.as_slice(), front))
}

/// Checks a problem, and the same one without limits and where all is allowed.
fn check(
    alloc: Global,
    draft: &Draft,
    kinds: &mut Kinds,
    random: &mut Random,
    arena: &mut Arena,
) -> Result<(), Fail> {
    let front = checked(alloc, draft, Without::Nothing, kinds, random, arena)?;
    if draft.has_limits() {
        let limited = changes(
            alloc,
            draft,
            Without::Limits,
            front.as_slice(),
            kinds,
            random,
            arena,
        )?;
        count(&mut kinds.limited, limited);
    }
    if draft.has_choices() {
        let confined = changes(
            alloc,
            draft,
            Without::Choices,
            front.as_slice(),
            kinds,
            random,
            arena,
        )?;
        count(&mut kinds.confined, confined);
    }
    Ok(())
}

/// The first of so many problems at random on which the search answers something else than all placements do, and how
/// many of each kind there were until then.
fn first_wrong(alloc: Global, cases: u32) -> Result<(Option<u32>, Kinds), Fail> {
    let mut random = Random::after(4);
    let mut arena = Arena::new(alloc);
    let mut kinds = Kinds::NONE;
    for case in 0..cases {
        let draft = Draft::draw(alloc, &mut random, 8)?;
        check(alloc, &draft, &mut kinds, &mut random, &mut arena)?;
        if kinds.wrong > 0 {
            return Ok((Some(case), kinds));
        }
    }
    Ok((None, kinds))
}

/// The search finds the frontier of all placements, of problems of each kind.
#[test]
fn front_of_all_placements(rt: HostRuntime) -> Result<(), Fail> {
    let (wrong, kinds) = first_wrong(rt.alloc(), 3_000)?;
    assert_eq!(rt; wrong, None);
    assert!(rt; kinds.least() > 100, "{kinds:?}");
    Ok(())
}
