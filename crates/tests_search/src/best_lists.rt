//! Lists of the nodes, compared with all placements at or below each of them.

ghost use Rattle.std.specs.Prelude.{◌≡◌, ◌<◌};

use crate::draft::{Draft, Without};
use crate::enumerate::{Good, all_good};
use cand_pool::Steps;
use elmore::Pair;
use std::alloc::Global;
use std::marker::Brand;
use std::sync::ledger::{Blank, Ledger};
use std::test::Fail;
use tests_random::Random;
use vg_slack::{NodeLists, best};

/// The pairs of slack and load of good placements, by rising load.
fn pairs(alloc: Global, all: &[Good]) -> Result<Vec<Pair>, Fail> {
    let mut pairs = Vec::new(alloc);
    for good in all {
        let c = u64::try_from(good.load).map_err(|_| "a great load")?;
        pairs.push(Pair { q: good.slack, c })?;
    }
    pairs.sort_by_key(|pair| pair.c)?;
    Ok(pairs)
}

/// Of pairs by rising load those that no other one dominates, each once.
fn undominated(alloc: Global, pairs: &[Pair]) -> Result<Vec<Pair>, Fail> {
    let mut kept: Vec<Pair> = Vec::new(alloc);
    for pair in pairs {
        let last = kept.as_slice().last().copied();
        if last.is_none_or(|last| pair.q > last.q) {
            if last.is_some_and(|last| pair.c == last.c) {
                kept.pop();
            }
            kept.push(*pair)?;
        }
    }
    Ok(kept)
}

/// The list of a node in one class, by all placements at or below it. Without a sink there it is empty.
fn plain_list(alloc: Global, draft: &Draft, v: usize, odd: bool) -> Result<Vec<Pair>, Fail> {
    let below = draft.below(alloc, v, odd)?;
    if !below.has_sink() {
        return Ok(Vec::new(alloc));
    }
    let problem = below.problem(alloc, Without::Nothing)?;
    let all = all_good(alloc, &problem, below.free.as_slice())?;
    let pairs = pairs(alloc, all.as_slice())?;
    undominated(alloc, pairs.as_slice())
}

/// Whether the lists of a node are those of all placements at or below it.
fn are_plain(alloc: Global, draft: &Draft, v: usize, lists: &NodeLists) -> Result<bool, Fail> {
    let even = plain_list(alloc, draft, v, false)?;
    let odd = plain_list(alloc, draft, v, true)?;
    Ok(even.as_slice() == lists.even.as_slice() && odd.as_slice() == lists.odd.as_slice())
}

/// How long the longest list of a problem is, or none where a node's lists are not those of all placements at or below
/// it.
fn longest<L: Ledger>(
    alloc: Global,
    draft: &Draft,
    steps: &mut Steps<L>,
) -> Result<Option<usize>, Fail> {
    let problem = draft.problem(alloc, Without::Nothing)?;
    let answer = best(alloc, &problem, true, steps)?;
    if answer.lists.nodes.len() != draft.nodes.len() {
        return Ok(None);
    }
    let mut most = 0;
    for (v, lists) in answer.lists.nodes.iter().enumerate() {
        if !are_plain(alloc, draft, v, lists)? {
            return Ok(None);
        }
        most = most.max(lists.even.len()).max(lists.odd.len());
    }
    Ok(Some(most))
}

/// The first of so many problems at random that have other lists than all placements make, and how many until then had
/// a list of three or more pairs.
fn first_wrong<L: Ledger>(
    alloc: Global,
    blank: Blank,
    cases: u32,
) -> Result<(Option<u32>, u32), Fail>
    requires name { blank.name ≡ L.name }
    requires parts { blank.parts ≡ L.parts }
    requires some { 0 < L.parts }
{
    let mut steps = Steps::<L>::new(blank);
    let mut random = Random::after(2);
    let mut long: u32 = 0;
    'cases: for case in 0..cases {
        let draft = Draft::draw(alloc, &mut random, 8)?;
        let Some(most) = longest(alloc, &draft, &mut steps)? else {
            return Ok((Some(case), long));
        };
        long = long.wrapping_add(u32::from(most > 2));
    }
    Ok((None, long))
}

/// The lists that a search keeps of each node are those of all placements at or below it.
#[test]
fn lists_of_all_placements(rt: HostRuntime) -> Result<(), Fail> {
    let (wrong, long) = first_wrong::<Brand>(rt.alloc(), Blank::new(1), 3000)?;
    assert_eq!(rt; wrong, None);
    assert!(rt; long > 100, "{long}");
    Ok(())
}
