//! A pool of a few slots.

ghost use Rattle.std.specs.Prelude.{◌≡◌, ◌+◌, ◌≤◌, ◌<◌, ◌^◌, length, ℕ};
ghost use Rattle.cand_pool.specs.Pools.{spare, items_of, bag_of, IsLive, IsLiveBag, Differ, name, bag_name};
ghost use Rattle.tests_engine.specs.Rows.{AreRising};

use crate::pool_lists::{Tags, has_rows, make, take_all};
use crate::pool_rows::{Row, above_wire, draw_rising, draw_rows, joined, rises, undominated};
use cand_pool::{Bag, List, Pool, Steps};
use std::alloc::Global;
use std::marker::Brand;
use std::sync::ledger::{Blank, Ledger};
use std::test::Fail;
use tests_random::Random;
use vg_num::Memory;

/// A list of one candidate, given up; its slot is drawn again.
#[test]
fn one_candidate(rt: HostRuntime) -> Result<(), Fail> {
    let mut pool = Pool::new(rt.alloc());
    pool.reserve(1)?;
    let list = pool.one(10, 1, 7);
    let mut bag = pool.discard(list);
    let tag = pool.take(&mut bag);
    pool.close(bag);
    assert!(rt; tag == Some(7));
    Ok(())
}

/// The tags of a list and of a bag.
#[derive(Clone, Copy)]
struct Split {
    kept: Tags,
    dropped: Tags,
}

impl Split {
    /// Whether these are the tags of the wanted rows, and all others.
    fn is(self, want: &[Row], all: Option<Tags>) -> bool {
        self.kept == Tags::of(want) && self.kept.and(self.dropped) == all
    }
}

/// Gives up a list and a bag.
fn give_up(pool: &mut Pool, list: List, bag: Bag) -> Split
    requires left { IsLive pool.old list }
    requires gone { IsLiveBag pool.old bag }
    requires differ { Differ (name list) (bag_name bag) }
    ensures { spare pool.new ≡ spare pool.old + length (items_of pool.old list) + length (bag_of pool.old bag) }
{
    let rest = pool.discard(list);
    let kept = take_all(pool, rest);
    let dropped = take_all(pool, bag);
    Split { kept, dropped }
}

/// Takes a list of the second rows into one of the first, where the q of both rises. Answers whether it is the wanted
/// one then, and the tags.
fn absorbed<L: Ledger>(
    pool: &mut Pool,
    one: &[Row],
    two: &[Row],
    want: &[Row],
    steps: &mut Steps<L>,
) -> (bool, Split)
    requires room { length one.now + length two.now ≤ spare pool.old }
    requires one { AreRising (λ row. row.q) one.now }
    requires two { AreRising (λ row. row.q) two.now }
    ensures { spare pool.new ≡ spare pool.old }
{
    let mut list = make(pool, one);
    let other = make(pool, two);
    let bag = pool.absorb(&mut list, other, steps);
    let as_wanted = has_rows(pool, &list, want, steps);
    let split = give_up(pool, list, bag);
    (as_wanted, split)
}

/// Charges a wire to a list of these rows. Answers whether it is the wanted one then, and the tags.
fn wired<L: Ledger>(
    pool: &mut Pool,
    rows: &[Row],
    r: u32,
    want: &[Row],
    steps: &mut Steps<L>,
) -> (bool, Split)
    requires { length rows.now ≤ spare pool.old }
    ensures { spare pool.new ≡ spare pool.old }
{
    let mut list = make(pool, rows);
    let bag = pool.wire(&mut list, u64::from(r), 0, steps);
    let as_wanted = has_rows(pool, &list, want, steps);
    let split = give_up(pool, list, bag);
    (as_wanted, split)
}

/// Whether the q of these lists rises, and they become the wanted one when the second is taken into the first, and the
/// bag has just the other tags.
fn absorbs<L: Ledger>(
    pool: &mut Pool,
    one: &[Row],
    two: &[Row],
    want: &[Row],
    steps: &mut Steps<L>,
) -> bool
    requires { length one.now + length two.now ≤ spare pool.old }
    ensures { spare pool.new ≡ spare pool.old }
{
    if !rises(one) || !rises(two) {
        return false;
    }
    let (as_wanted, split) = absorbed(pool, one, two, want, steps);
    as_wanted && split.is(want, Tags::of(one).and(Tags::of(two)))
}

/// Whether this list becomes the wanted one above a wire, and the bag has just the other tags.
fn wires<L: Ledger>(
    pool: &mut Pool,
    rows: &[Row],
    r: u32,
    want: &[Row],
    steps: &mut Steps<L>,
) -> bool
    requires { length rows.now ≤ spare pool.old }
    ensures { spare pool.new ≡ spare pool.old }
{
    let (as_wanted, split) = wired(pool, rows, r, want, steps);
    as_wanted && split.is(want, Some(Tags::of(rows)))
}

const fn row(q: i64, c: u32, tag: u8) -> Row {
    Row { q, c, tag }
}

/// Whether the calls give what was worked out by hand.
fn known<L: Ledger>(alloc: Global, blank: Blank) -> Result<bool, Memory>
    requires name { blank.name ≡ L.name }
    requires parts { blank.parts ≡ L.parts }
    requires some { 0 < L.parts }
{
    let mut pool = Pool::new(alloc);
    pool.reserve(5)?;
    let mut steps = Steps::<L>::new(blank);
    let one = [row(5, 1, 1), row(9, 4, 2)];
    let two = [row(5, 1, 3), row(8, 3, 4), row(9, 5, 5)];
    let both = [row(5, 1, 1), row(8, 3, 4), row(9, 4, 2)];
    let absorbed = absorbs(&mut pool, &one, &two, &both, &mut steps);
    let above = wires(&mut pool, &both, 2, &[row(3, 1, 1)], &mut steps);
    Ok(absorbed && above)
}

#[test]
fn known_lists(rt: HostRuntime) -> Result<(), Fail> {
    assert!(rt; known::<Brand>(rt.alloc(), Blank::new(1))?);
    Ok(())
}

/// The candidates that two lists have together at most.
const MOST: u32 = 24;

/// Whether the calls give what the plain program gives, on two lists at random.
fn agrees<L: Ledger>(
    alloc: Global,
    pool: &mut Pool,
    random: &mut Random,
    steps: &mut Steps<L>,
) -> Result<bool, Memory>
    requires { 24 ≤ spare pool.old }
    ensures { spare pool.new ≡ spare pool.old }
{
    let (sizes, r) = ((random.below(13), random.below(13)), random.below(4));
    let one = draw_rising(alloc, random, sizes.0, 0)?;
    let two = draw_rising(alloc, random, sizes.1, 32)?;
    let all = joined(alloc, one.as_slice(), two.as_slice())?;
    let both = undominated(alloc, all.as_slice())?;
    let rows = draw_rows(alloc, random, sizes.0, 0)?;
    let above = above_wire(alloc, rows.as_slice(), r)?;
    let kept = undominated(alloc, above.as_slice())?;
    let absorbed = absorbs(pool, one.as_slice(), two.as_slice(), both.as_slice(), steps);
    let wired = wires(pool, rows.as_slice(), r, kept.as_slice(), steps);
    Ok(absorbed && wired)
}

/// The first of so many pairs of lists at random on which a call gives another answer than the plain program. All slots
/// come back, so that a last list has each of them.
fn first_wrong<L: Ledger>(alloc: Global, blank: Blank, cases: u32) -> Result<Option<u32>, Memory>
    requires name { blank.name ≡ L.name }
    requires parts { blank.parts ≡ L.parts }
    requires some { 0 < L.parts }
{
    let mut pool = Pool::new(alloc);
    pool.reserve(MOST as usize)?;
    let mut steps = Steps::<L>::new(blank);
    let mut random = Random::after(1);
    'cases: for case in 0..cases {
        if !agrees(alloc, &mut pool, &mut random, &mut steps)? {
            return Ok(Some(case));
        }
    }
    let last = draw_rows(alloc, &mut random, MOST, 0)?;
    let kept = undominated(alloc, last.as_slice())?;
    let wired = wires(&mut pool, last.as_slice(), 0, kept.as_slice(), &mut steps);
    Ok(if wired { None } else { Some(cases) })
}

#[test]
fn generated_lists(rt: HostRuntime) -> Result<(), Fail> {
    assert_eq!(rt;
        first_wrong::<Brand>(rt.alloc(), Blank::new(1), 2000)?,
        None
    );
    Ok(())
}
