//! Lists that are made, changed by an operation, and given up.

ghost use Rattle.std.specs.Prelude.{◌≡◌, suc, ◌+◌, ◌*◌, ◌^◌, ◌≤◌, [], ◌∷◌, length};
ghost use Rattle.cand_pool.specs.Candidates.{Candidate, Candidates};
ghost use Rattle.cand_pool.specs.Laws.{RisesInTime};
ghost use Rattle.cand_pool.specs.Pools.{Block, spare, HoldsBag, IsLive, IsLiveBag, items_of, bag_of, KeepsOthers, Differ, name, bag_name};
ghost use Rattle.bench_lists.specs.Turns.{IsMade, size as size_of, IsFull, IsApplied};

use crate::operation::Operation;
use crate::random::Random;
use cand_pool::{Bag, List, Pool, Steps};
use std::sync::ledger::Ledger;

/// The resistance of the wire: one of 30 candidates or so is then dominated.
const RESISTANCE: u64 = 52;

/// The load that is added.
const LOAD: u64 = 1000;

/// A list of so many candidates at random, whose times rise.
fn fill(pool: &mut Pool, size: u32, random: &mut Random) -> List
    requires few { size ≤ 10 ^ 6 }
    requires room { size ≤ spare pool.old }
    ensures made { IsMade pool.new result }
    ensures rises { RisesInTime (items_of pool.new result) }
    ensures size { size_of pool.new result ≡ size }
    ensures others { KeepsOthers pool.old [] pool.new (name result ∷ []) }
    ensures spare { spare pool.old ≡ spare pool.new + size }
{
    let mut list = pool.none();
    'places: for at in 0..size {
        let point = random.point(at);
        pool.push(&mut list, point.q, point.c, u64::from(at));
    }
    list
}

/// A sum with one more number, in which the order counts.
fn mixed(sum: u64, number: u64) -> u64 {
    sum.wrapping_mul(31).wrapping_add(number)
}

/// Takes a tag out of a bag that is not empty.
fn take_one(pool: &mut Pool, bag: &mut Bag) -> u64
    requires { IsFull pool.old bag.old }
    ensures taken { (x : Candidate) (xs : Candidates) → HoldsBag pool.old bag.old (x ∷ xs)
        → HoldsBag pool.new bag.new xs }
    ensures spare { spare pool.new ≡ suc (spare pool.old) }
{
    pool.take(bag).unwrap()
}

/// Takes all tags, so many, out of a bag. Answers a sum over them.
fn empty(pool: &mut Pool, mut bag: Bag, size: u64) -> u64
    requires live { IsLiveBag pool.old bag }
    requires size { length (bag_of pool.old bag) ≡ size }
    ensures { spare pool.new ≡ spare pool.old + size }
{
    let mut sum = 0u64;
    'tags: for _ in 0..size {
        sum = mixed(sum, take_one(pool, &mut bag));
    }
    pool.close(bag);
    sum
}

/// Gives up a list and a bag, of so many candidates. Answers a sum over their tags.
fn give_up(pool: &mut Pool, list: List, bag: Bag, size: u64) -> u64
    requires { (s : Block) × IsApplied size s pool.old list bag }
    ensures { spare pool.new ≡ spare pool.old + size }
{
    let mut all = pool.discard(list);
    pool.append(&mut all, bag);
    empty(pool, all, size)
}

/// A wire above a list.
fn wire<L: Ledger>(pool: &mut Pool, list: &mut List, other: List, steps: &mut Steps<L>) -> Bag
    requires made { IsMade pool.old list.old × IsMade pool.old other }
    requires differ { Differ (name list.old) (name other) }
    ensures { IsApplied (size_of pool.old list.old + size_of pool.old other) pool.old pool.new list.new result }
{
    let mut bag = pool.wire(list, RESISTANCE, 0, steps);
    let rest = pool.discard(other);
    pool.append(&mut bag, rest);
    bag
}

/// A load beside a list.
fn load<L: Ledger>(pool: &mut Pool, list: &mut List, other: List, steps: &mut Steps<L>) -> Bag
    requires made { IsMade pool.old list.old × IsMade pool.old other }
    requires differ { Differ (name list.old) (name other) }
    ensures { IsApplied (size_of pool.old list.old + size_of pool.old other) pool.old pool.new list.new result }
{
    pool.load(list, LOAD, steps);
    pool.discard(other)
}

/// Does an operation on a list, with another one at hand.
fn apply<L: Ledger>(
    pool: &mut Pool,
    operation: Operation,
    list: &mut List,
    other: List,
    steps: &mut Steps<L>,
) -> Bag
    requires made { IsMade pool.old list.old × IsMade pool.old other }
    requires rises { RisesInTime (items_of pool.old list.old) × RisesInTime (items_of pool.old other) }
    requires differ { Differ (name list.old) (name other) }
    ensures { IsApplied (size_of pool.old list.old + size_of pool.old other) pool.old pool.new list.new result }
{
    match operation {
        Operation::Nothing | Operation::NothingOfTwo => pool.discard(other),
        Operation::Wire => wire(pool, list, other, steps),
        Operation::Load => load(pool, list, other, steps),
        Operation::Absorb => pool.absorb(list, other, steps),
    }
}

/// A list and a bag that an operation left, and how many candidates they have together.
struct Changed {
    list: List,
    bag: Bag,
    size: u64,
}

/// Makes lists, and does the operation.
fn change<L: Ledger>(
    pool: &mut Pool,
    operation: Operation,
    size: u32,
    random: &mut Random,
    steps: &mut Steps<L>,
) -> Changed
    requires few { size ≤ 10 ^ 6 }
    requires room { 2 * size ≤ spare pool.old }
    ensures applied { (s : Block) × IsApplied result.size s pool.new result.list result.bag }
    ensures spare { spare pool.old ≡ spare pool.new + result.size }
{
    let mut list = fill(pool, size, random);
    let others = operation.others(size);
    let other = fill(pool, others, random);
    let bag = apply(pool, operation, &mut list, other, steps);
    Changed {
        list,
        bag,
        size: u64::from(size) + u64::from(others),
    }
}

/// One turn: lists are made, the operation is done, and all is given up. Answers a sum over all tags.
pub fn turn<L: Ledger>(
    pool: &mut Pool,
    operation: Operation,
    size: u32,
    random: &mut Random,
    steps: &mut Steps<L>,
) -> u64
    requires few { size ≤ 10 ^ 6 }
    requires room { 2 * size ≤ spare pool.old }
    ensures { spare pool.new ≡ spare pool.old }
{
    let Changed { list, bag, size } = change(pool, operation, size, random, steps);
    give_up(pool, list, bag, size)
}

/// What a list has: how many candidates, and a sum over their numbers.
#[derive(Clone, Copy)]
pub struct Sum {
    pub count: usize,
    pub numbers: u64,
}

/// Sums up a list.
pub fn sum_up<L: Ledger>(pool: &Pool, list: &List, steps: &mut Steps<L>) -> u64
    requires { IsLive pool.now list.now }
{
    let mut sum = 0u64;
    let mut place = pool.first(list);
    'places: while let Some(at) = place {
        let (q, c, tag) = pool.tell(at, steps);
        sum = mixed(mixed(mixed(sum, u64::try_from(q).unwrap_or(0)), c), tag);
        place = pool.next(at);
    }
    sum
}

/// A turn that tells what the operation left, and a sum over all tags.
pub fn show<L: Ledger>(
    pool: &mut Pool,
    operation: Operation,
    size: u32,
    random: &mut Random,
    steps: &mut Steps<L>,
) -> (Sum, u64)
    requires few { size ≤ 10 ^ 6 }
    requires room { 2 * size ≤ spare pool.old }
    ensures { spare pool.new ≡ spare pool.old }
{
    let Changed { list, bag, size } = change(pool, operation, size, random, steps);
    let sum = Sum {
        count: pool.len(&list),
        numbers: sum_up(pool, &list, steps),
    };
    let tags = give_up(pool, list, bag, size);
    (sum, tags)
}
