//! Where two branches meet, compared with a plain program.

ghost use Rattle.std.specs.Prelude.{◌≡◌, ◌+◌, ◌*◌, ◌≤◌, ◌<◌, ◌∷◌, [], length, IfOk, pos, ◌≤ℤ◌, ◌<ℤ◌};
ghost use Rattle.cand_pool.specs.Pools.{spare, items_of, IsLive, KeepsOthers, Differ, name};
ghost use Rattle.tests_engine.specs.Ready.{IsReady};

use cand_pool::{List, Pool, Steps};
use cand_uses::end_list;
use elmore::Pair;
use sol_arena::Arena;
use std::alloc::{AllocError, Global};
use std::marker::Brand;
use std::sync::ledger::{Blank, Ledger};
use std::test::Fail;
use tests_random::Random;
use vg_merge::merge;
use vg_num::Memory;

/// The tag of a candidate without cells: the number of the empty solution.
pub const BARE: u64 = u64::MAX;

/// The pair at this place of a list that rises strictly.
pub fn drawn_pair(random: &mut Random, at: u32) -> Pair
    ensures from_q { pos (8 * at) ≤ℤ result.q }
    ensures to_q { result.q <ℤ pos (8 * at + 8) }
    ensures from_c { 4 * at ≤ result.c }
    ensures to_c { result.c < 4 * at + 4 }
{
    let at = u64::from(at);
    Pair {
        q: i128::from(8 * at + random.draw(8)),
        c: 4 * at + random.draw(4),
    }
}

/// A list of so many candidates that rise strictly.
fn rising(pool: &mut Pool, random: &mut Random, size: u32) -> List
    requires few { size ≤ 1000 }
    requires room { size ≤ spare pool.old }
    ensures ready { IsReady pool.new result }
    ensures size { length (items_of pool.new result) ≡ size }
    ensures others { KeepsOthers pool.old [] pool.new (name result ∷ []) }
    ensures spare { spare pool.old ≡ spare pool.new + size }
{
    let mut list = pool.none();
    'places: for at in 0..size {
        let pair = drawn_pair(random, at);
        pool.push(&mut list, pair.q, pair.c, BARE);
    }
    list
}

/// The pairs of a list.
pub fn pairs<L: Ledger>(
    alloc: Global,
    pool: &Pool,
    list: &List,
    steps: &mut Steps<L>,
) -> Result<Vec<Pair>, AllocError>
    requires { IsLive pool.now list.now }
{
    let mut pairs = Vec::new(alloc);
    let mut place = pool.first(list);
    'places: while let Some(at) = place {
        let (q, c, _) = pool.tell(at, steps);
        pairs.push(Pair { q, c })?;
        place = pool.next(at);
    }
    Ok(pairs)
}

/// Merges two lists, and ends what comes of it. Answers its pairs.
fn met<L: Ledger>(
    alloc: Global,
    pool: &mut Pool,
    arena: &mut Arena,
    a: List,
    b: List,
    steps: &mut Steps<L>,
) -> Result<Vec<Pair>, Memory>
    requires a { IsReady pool.old a }
    requires b { IsReady pool.old b }
    requires differ { Differ (name a) (name b) }
    ensures { IfOk result (λ _. spare pool.new
        ≡ spare pool.old + length (items_of pool.old a) + length (items_of pool.old b)) }
{
    let list = merge(pool, arena, a, b, steps)?;
    let met = pairs(alloc, pool, &list, steps)?;
    end_list(pool, arena, list);
    Ok(met)
}

/// Whether another pair has no less q and no more c than the pair at this place. Of equal pairs the first stays.
fn is_dominated(pairs: &[Pair], at: usize) -> bool
    requires { at < length pairs.now }
{
    let it = pairs[at];
    let mut found = false;
    for (i, pair) in pairs.iter().enumerate() {
        let same = pair.q == it.q && pair.c == it.c;
        if pair.q >= it.q && pair.c <= it.c && (!same || i < at) {
            found = true;
        }
    }
    found
}

/// What two branches make together, by a plain program: of all pairs of both those that no other one dominates, by
/// rising c.
fn all_met(alloc: Global, one: &[Pair], two: &[Pair]) -> Result<Vec<Pair>, AllocError> {
    let mut all = Vec::new(alloc);
    for x in one {
        for y in two {
            all.push(Pair {
                q: x.q.min(y.q),
                c: x.c.wrapping_add(y.c),
            })?;
        }
    }
    undominated(alloc, all.as_slice())
}

/// Of these pairs those that no other one dominates, by rising c.
pub fn undominated(alloc: Global, all: &[Pair]) -> Result<Vec<Pair>, AllocError> {
    let mut kept = Vec::new(alloc);
    for at in 0..all.len() {
        if !is_dominated(all, at) {
            kept.push(all[at])?;
        }
    }
    kept.sort_by_key(|pair| pair.c)?;
    Ok(kept)
}

/// The candidates that two lists have together at most.
const MOST: u32 = 24;

/// Whether a merge of two lists at random gives what the plain program gives.
fn agrees<L: Ledger>(
    alloc: Global,
    pool: &mut Pool,
    arena: &mut Arena,
    random: &mut Random,
    steps: &mut Steps<L>,
) -> Result<bool, Memory>
    requires { 24 ≤ spare pool.old }
    ensures { IfOk result (λ _. spare pool.new ≡ spare pool.old) }
{
    let sizes = (random.draw(13) as u32, random.draw(13) as u32);
    let a = rising(pool, random, sizes.0);
    let b = rising(pool, random, sizes.1);
    let one = pairs(alloc, pool, &a, steps)?;
    let two = pairs(alloc, pool, &b, steps)?;
    let want = all_met(alloc, one.as_slice(), two.as_slice())?;
    let made = met(alloc, pool, arena, a, b, steps)?;
    Ok(made.as_slice() == want.as_slice())
}

/// The first of so many pairs of lists at random on which a merge gives another answer than the plain program.
fn first_wrong<L: Ledger>(alloc: Global, blank: Blank, cases: u32) -> Result<Option<u32>, Memory>
    requires name { blank.name ≡ L.name }
    requires parts { blank.parts ≡ L.parts }
    requires some { 0 < L.parts }
{
    let mut pool = Pool::new(alloc);
    pool.reserve(MOST as usize)?;
    let mut arena = Arena::new(alloc);
    let mut steps = Steps::<L>::new(blank);
    let mut random = Random::after(1);
    'cases: for case in 0..cases {
        if !agrees(alloc, &mut pool, &mut arena, &mut random, &mut steps)? {
            return Ok(Some(case));
        }
    }
    Ok(None)
}

#[test]
fn generated_merges(rt: HostRuntime) -> Result<(), Fail> {
    assert_eq!(rt;
        first_wrong::<Brand>(rt.alloc(), Blank::new(1), 2000)?,
        None
    );
    Ok(())
}

/// The list (5, 1) (9, 4).
fn two(pool: &mut Pool) -> List
    requires { 2 ≤ spare pool.old }
    ensures ready { IsReady pool.new result }
    ensures others { KeepsOthers pool.old [] pool.new (name result ∷ []) }
    ensures spare { spare pool.old ≡ spare pool.new + 2 }
{
    let mut list = pool.one(5, 1, BARE);
    pool.push(&mut list, 9, 4, BARE);
    list
}

/// The list (7, 2).
fn single(pool: &mut Pool) -> List
    requires { 1 ≤ spare pool.old }
    ensures ready { IsReady pool.new result }
    ensures others { KeepsOthers pool.old [] pool.new (name result ∷ []) }
{
    pool.one(7, 2, BARE)
}

/// The empty list.
fn empty(pool: &mut Pool) -> List
    ensures ready { IsReady pool.new result }
    ensures others { KeepsOthers pool.old [] pool.new (name result ∷ []) }
{
    pool.none()
}

/// The merge of two lists that was worked out by hand.
fn both<L: Ledger>(alloc: Global, steps: &mut Steps<L>) -> Result<Vec<Pair>, Memory> {
    let (mut pool, mut arena) = (Pool::new(alloc), Arena::new(alloc));
    pool.reserve(3)?;
    let a = two(&mut pool);
    let b = single(&mut pool);
    met(alloc, &mut pool, &mut arena, a, b, steps)
}

/// The merge of a list with an empty one.
fn with_empty<L: Ledger>(alloc: Global, steps: &mut Steps<L>) -> Result<Vec<Pair>, Memory> {
    let (mut pool, mut arena) = (Pool::new(alloc), Arena::new(alloc));
    pool.reserve(1)?;
    let a = single(&mut pool);
    let b = empty(&mut pool);
    met(alloc, &mut pool, &mut arena, a, b, steps)
}

fn known<L: Ledger>(alloc: Global, blank: Blank) -> Result<(Vec<Pair>, Vec<Pair>), Memory>
    requires name { blank.name ≡ L.name }
    requires parts { blank.parts ≡ L.parts }
    requires some { 0 < L.parts }
{
    let mut steps = Steps::<L>::new(blank);
    Ok((both(alloc, &mut steps)?, with_empty(alloc, &mut steps)?))
}

#[test]
fn known_merges(rt: HostRuntime) -> Result<(), Fail> {
    let (both, none) = known::<Brand>(rt.alloc(), Blank::new(1))?;
    let want = [Pair { q: 5, c: 3 }, Pair { q: 7, c: 6 }];
    assert_eq!(rt; both.as_slice(), want.as_slice());
    assert_eq!(rt; none.len(), 0);
    Ok(())
}
