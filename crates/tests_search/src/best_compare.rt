//! Best placements of problems at random, compared with all placements.

ghost use Rattle.std.specs.Prelude.{◌≡◌, ◌<◌};

use crate::draft::{Draft, Without};
use crate::enumerate::{Good, all_good, judged};
use cand_pool::Steps;
use elmore::Problem;
use std::alloc::Global;
use std::marker::Brand;
use std::sync::ledger::{Blank, Ledger};
use std::test::Fail;
use tests_random::Random;
use vg_slack::{Answer, best};

/// The best of all placements: their slack (zs), how many there are, and whether the one without a cell is one of them.
#[derive(Clone, Copy)]
struct Top {
    slack: i128,
    count: usize,
    has_bare: bool,
}

impl Top {
    /// The best of what good placements come to, or none where there is none.
    fn of(all: &[Good]) -> Option<Top> {
        let mut top: Option<Top> = None;
        for good in all {
            top = Some(Top::and(top, *good));
        }
        top
    }

    /// The best of what came before and of one more.
    fn and(before: Option<Top>, good: Good) -> Top {
        let alone = Top {
            slack: good.slack,
            count: 1,
            has_bare: good.bare,
        };
        let Some(top) = before else {
            return alone;
        };
        if good.slack > top.slack {
            return alone;
        }
        if good.slack < top.slack {
            return top;
        }
        Top {
            count: top.count.wrapping_add(1),
            has_bare: top.has_bare || good.bare,
            ..top
        }
    }
}

/// Whether an answer is right, where this is the best of all placements.
fn is_right(alloc: Global, p: &Problem, answer: &Answer, top: Option<Top>) -> Result<bool, Fail> {
    let Some(found) = &answer.found else {
        return Ok(top.is_none());
    };
    let Some(top) = top else {
        return Ok(false);
    };
    let Some(good) = judged(alloc, p, found.placement.cells.as_slice())? else {
        return Ok(false);
    };
    let is_best = found.slack == top.slack && good.slack == top.slack;
    Ok(is_best && good.bare == top.has_bare)
}

/// Of how many problems the answer was wrong; how many had no good placement, how many one without a cell as best, how
/// many only ones with cells, and how many several of these; of how many a limit, or what nodes allow, lessens the
/// best; and how many have sinks that want an inverted signal, nodes without a sink at or below them, and six places.
#[derive(Clone, Copy, Debug)]
struct Kinds {
    wrong: u32,
    none: u32,
    bare: u32,
    celled: u32,
    tied: u32,
    limited: u32,
    confined: u32,
    inverted: u32,
    dead: u32,
    large: u32,
}

/// Adds one where it is so.
fn count(number: &mut u32, so: bool) {
    *number = number.wrapping_add(u32::from(so));
}

impl Kinds {
    const NONE: Kinds = Kinds {
        wrong: 0,
        none: 0,
        bare: 0,
        celled: 0,
        tied: 0,
        limited: 0,
        confined: 0,
        inverted: 0,
        dead: 0,
        large: 0,
    };

    /// Counts a problem with these best placements.
    fn add(&mut self, p: &Problem, top: Option<Top>) {
        count(&mut self.none, top.is_none());
        if let Some(top) = top {
            count(&mut self.bare, top.has_bare);
            count(&mut self.celled, !top.has_bare);
            count(&mut self.tied, !top.has_bare && top.count > 1);
        }
        let sinks = p.sinks.as_slice();
        let inverts = sinks
            .iter()
            .any(|sink| sink.is_some_and(|sink| sink.inverted));
        count(&mut self.inverted, inverts);
        let live = p.live.as_slice();
        count(&mut self.dead, live.contains(&false));
        let places = p.places.as_slice();
        let size = places.iter().filter(|place| **place).count();
        count(&mut self.large, size == 6);
    }

    /// Whether each but the wrong ones is over this number.
    fn are_over(&self, least: u32) -> bool {
        self.none > least
            && self.bare > least
            && self.celled > least
            && self.tied > least
            && self.limited > least
            && self.confined > least
            && self.inverted > least
            && self.dead > least
            && self.large > least
    }
}

/// The greatest slack of all placements of a problem, which is counted, as wrong where the search answers something
/// else.
fn checked<L: Ledger>(
    alloc: Global,
    draft: &Draft,
    without: Without,
    kinds: &mut Kinds,
    steps: &mut Steps<L>,
) -> Result<Option<i128>, Fail> {
    let problem = draft.problem(alloc, without)?;
    let top = top_of(alloc, draft, &problem)?;
    let right = finds(alloc, &problem, top, steps)?;
    count(&mut kinds.wrong, !right);
    kinds.add(&problem, top);
    Ok(top.map(|top| top.slack))
}

/// The best of all placements of a problem.
fn top_of(alloc: Global, draft: &Draft, problem: &Problem) -> Result<Option<Top>, Fail> {
    let all = all_good(alloc, problem, draft.free.as_slice())?;
    Ok(Top::of(all.as_slice()))
}

/// Whether the search finds the best, and keeps no lists.
fn finds<L: Ledger>(
    alloc: Global,
    problem: &Problem,
    top: Option<Top>,
    steps: &mut Steps<L>,
) -> Result<bool, Fail> {
    let answer = best(alloc, problem, false, steps)?;
    Ok(answer.lists.nodes.is_empty() && is_right(alloc, problem, &answer, top)?)
}

/// Checks a problem, and the same one without limits and where all is allowed.
fn check<L: Ledger>(
    alloc: Global,
    draft: &Draft,
    kinds: &mut Kinds,
    steps: &mut Steps<L>,
) -> Result<(), Fail> {
    let slack = checked(alloc, draft, Without::Nothing, kinds, steps)?;
    if draft.has_limits() {
        let unlimited = checked(alloc, draft, Without::Limits, kinds, steps)?;
        count(&mut kinds.limited, unlimited != slack);
    }
    if draft.has_choices() {
        let unconfined = checked(alloc, draft, Without::Choices, kinds, steps)?;
        count(&mut kinds.confined, unconfined != slack);
    }
    Ok(())
}

/// The first of so many problems at random on which the search answers something else than all placements do, and how
/// many of each kind there were until then.
fn first_wrong<L: Ledger>(
    alloc: Global,
    blank: Blank,
    cases: u32,
) -> Result<(Option<u32>, Kinds), Fail>
    requires name { blank.name ≡ L.name }
    requires parts { blank.parts ≡ L.parts }
    requires some { 0 < L.parts }
{
    let mut steps = Steps::<L>::new(blank);
    let mut random = Random::after(1);
    let mut kinds = Kinds::NONE;
    'cases: for case in 0..cases {
        let draft = Draft::draw(alloc, &mut random, 8)?;
        check(alloc, &draft, &mut kinds, &mut steps)?;
        if kinds.wrong > 0 {
            return Ok((Some(case), kinds));
        }
    }
    Ok((None, kinds))
}

/// The search finds the best of all placements, of problems of each kind.
#[test]
fn best_of_all_placements(rt: HostRuntime) -> Result<(), Fail> {
    let (wrong, kinds) = first_wrong::<Brand>(rt.alloc(), Blank::new(1), 10_000)?;
    assert_eq!(rt; wrong, None);
    assert!(rt; kinds.are_over(500), "{kinds:?}");
    Ok(())
}
