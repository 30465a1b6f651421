//! What repeaters make of a list, compared with a plain program.

ghost use Rattle.std.specs.Prelude.{◌≡◌, ℕ, suc, ◌+◌, ◌^◌, ◌≤◌, ◌<◌, length, IfOk, IsTrue, vec_len, pos, ◌≤ℤ◌};
ghost use Rattle.cand_pool.specs.Pools.{Block, spare, IsLive};
ghost use Rattle.vg_convex.specs.Orders.{IsShelf};
ghost use Rattle.tests_engine.specs.Ready.{IsReady, IsListed};
ghost use Rattle.tests_engine.specs.Found.{IsFoundOfBare};

use crate::branches::{BARE, drawn_pair, pairs, undominated};
use cand_pool::{List, Pool, Steps};
use elmore::{Allowed, Pair, Rep};
use sol_arena::Arena;
use std::alloc::{AllocError, Global};
use std::marker::Brand;
use std::sync::ledger::{Blank, Ledger};
use std::test::Fail;
use tests_random::Random;
use vg_convex::{Kept, Shelf, Work, add_cells, find_each};
use vg_num::Memory;

/// Whether a pair rises over the floor, and is small.
fn is_over(floor: Pair, pair: Pair) -> bool
    ensures time { IsTrue result → floor.q ≤ℤ pair.q }
    ensures load { IsTrue result → floor.c ≤ pair.c }
    ensures early { IsTrue result → pair.q ≤ℤ pos 1000 }
    ensures light { IsTrue result → pair.c ≤ 1000 }
{
    if pair.q < floor.q {
        return false;
    }
    if pair.c < floor.c {
        return false;
    }
    if pair.q > 1000 {
        return false;
    }
    pair.c <= 1000
}

/// Puts a pair at the end of a list, if it rises over the floor and is small. Answers the floor over it.
fn put(pool: &mut Pool, list: &mut List, floor: Pair, pair: Pair) -> Pair
    requires live { IsLive pool.old list.old }
    requires room { 0 < spare pool.old }
    ensures { (s : Block) (n : ℕ) → IsListed s pool.old list.old floor n → IsListed s pool.new list.new result (suc n) }
{
    let over = is_over(floor, pair);
    if !over {
        return floor;
    }
    pool.push(list, pair.q, pair.c, BARE);
    Pair {
        q: pair.q + 1,
        c: pair.c + 1,
    }
}

/// A list of these pairs, without those that do not rise strictly or are not small.
fn listed(pool: &mut Pool, pairs: &[Pair]) -> List
    requires { length pairs.now ≤ spare pool.old }
    ensures { IsReady pool.new result }
{
    let mut list = pool.none();
    let mut floor = Pair { q: 0, c: 0 };
    'pairs: for pair in pairs {
        floor = put(pool, &mut list, floor, *pair);
    }
    list
}

/// What these repeaters find in a list of these pairs, at a node that allows all of them.
fn found_in<L: Ledger>(
    alloc: Global,
    from: &[Pair],
    reps: &[Rep],
    shelf: &Shelf,
    steps: &mut Steps<L>,
) -> Result<Work, Memory>
    requires shelf { IsShelf reps.now shelf.now }
    ensures { IfOk result (IsFoundOfBare reps.now) }
{
    let mut pool = Pool::new(alloc);
    let mut work = Work::new(alloc);
    pool.reserve(from.len())?;
    let list = listed(&mut pool, from);
    find_each(&pool, &list, reps, shelf, &Allowed::All, &mut work, steps)?;
    Ok(work)
}

/// The pairs that these repeaters make of two lists: buffers of the first one, and inverters of the second one.
fn added<L: Ledger>(
    alloc: Global,
    lists: [&[Pair]; 2],
    reps: &[Rep],
    steps: &mut Steps<L>,
) -> Result<Vec<Pair>, Memory>
    requires { length reps.now < 2 ^ 32 }
{
    let (mut pool, mut arena) = (Pool::new(alloc), Arena::new(alloc));
    let shelf = Shelf::new(alloc, reps)?;
    let mut kept = Kept::new(alloc);
    let buffers = found_in(alloc, lists[0], reps, &shelf, steps)?;
    let inverters = found_in(alloc, lists[1], reps, &shelf, steps)?;
    pool.reserve(reps.len())?;
    let made = add_cells(
        &mut pool, &mut arena, 0, reps, &shelf, &buffers, &inverters, &mut kept,
    )?;
    let made = pairs(alloc, &pool, &made, steps)?;
    Ok(made)
}

/// What one repeater makes of these pairs, by a plain program: the greatest time of those within its limit.
fn best(from: &[Pair], rep: &Rep) -> Option<Pair> {
    let mut best = None;
    for pair in from {
        let time = pair
            .q
            .wrapping_sub(i128::from(rep.r.wrapping_mul(pair.c)))
            .wrapping_sub(i128::from(rep.k));
        let within = rep.limit.is_none_or(|most| pair.c <= most);
        if within && best.is_none_or(|before: Pair| before.q < time) {
            best = Some(Pair {
                q: time,
                c: rep.cin,
            });
        }
    }
    best
}

/// What repeaters make of two lists, by a plain program: buffers of the first one, and inverters of the second one.
fn all_added(alloc: Global, lists: [&[Pair]; 2], reps: &[Rep]) -> Result<Vec<Pair>, AllocError> {
    let mut all = Vec::new(alloc);
    for rep in reps {
        let from = if rep.inverts { lists[1] } else { lists[0] };
        if let Some(pair) = best(from, rep) {
            all.push(pair)?;
        }
    }
    undominated(alloc, all.as_slice())
}

const fn rep(r: u64, cin: u64) -> Rep {
    Rep {
        inverts: false,
        cin,
        k: 0,
        r,
        cost: 1,
        limit: None,
    }
}

const fn limited(r: u64, cin: u64, most: u64) -> Rep {
    Rep {
        limit: Some(most),
        ..rep(r, cin)
    }
}

const fn pair(q: i128, c: u64) -> Pair {
    Pair { q, c }
}

/// Whether these buffers make the wanted pairs of this list. An inverter would make none, of an empty list.
fn gives<L: Ledger>(
    alloc: Global,
    from: &[Pair],
    reps: &[Rep],
    want: &[Pair],
    steps: &mut Steps<L>,
) -> Result<bool, Memory>
    requires { length reps.now < 2 ^ 32 }
{
    let made = added(alloc, [from, &[]], reps, steps)?;
    Ok(made.as_slice() == want)
}

/// Whether these repeaters make of these lists what the plain program makes.
fn agrees<L: Ledger>(
    alloc: Global,
    lists: [&[Pair]; 2],
    reps: &[Rep],
    steps: &mut Steps<L>,
) -> Result<bool, Memory>
    requires { length reps.now < 2 ^ 32 }
{
    let made = added(alloc, lists, reps, steps)?;
    let want = all_added(alloc, lists, reps)?;
    Ok(made == want)
}

/// Whether buffers make what was worked out by hand.
fn known<L: Ledger>(alloc: Global, blank: Blank) -> Result<bool, Memory>
    requires name { blank.name ≡ L.name }
    requires parts { blank.parts ≡ L.parts }
    requires some { 0 < L.parts }
{
    let mut steps = Steps::<L>::new(blank);
    let three = [pair(10, 1), pair(14, 3), pair(15, 6)];
    let sagging = [pair(10, 1), pair(11, 3), pair(15, 6)];
    let shelf = [rep(0, 3), rep(1, 2), rep(3, 1)];
    let made = [pair(7, 1), pair(11, 2), pair(15, 3)];
    let all = gives(alloc, &three, &shelf, &made, &mut steps)?;
    let one = gives(alloc, &sagging, &[rep(1, 2)], &[pair(9, 2)], &mut steps)?;
    let none = gives(alloc, &[], &shelf, &[], &mut steps)?;
    let single = gives(
        alloc,
        &[pair(10, 1)],
        &[rep(2, 5), rep(2, 4)],
        &[pair(8, 4)],
        &mut steps,
    )?;
    let within = gives(
        alloc,
        &three,
        &[limited(0, 3, 5)],
        &[pair(14, 3)],
        &mut steps,
    )?;
    let outside = gives(alloc, &three, &[limited(0, 3, 0)], &[], &mut steps)?;
    Ok(all && one && none && single && within && outside)
}

#[test]
fn known_cells(rt: HostRuntime) -> Result<(), Fail> {
    assert!(rt; known::<Brand>(rt.alloc(), Blank::new(1))?);
    Ok(())
}

/// So many pairs at random that rise strictly.
fn draw_pairs(alloc: Global, random: &mut Random, size: u32) -> Result<Vec<Pair>, AllocError> {
    let mut drawn = Vec::new(alloc);
    for at in 0..size {
        drawn.push(drawn_pair(random, at))?;
    }
    Ok(drawn)
}

/// So many repeaters at random, with many ties.
fn draw_reps(alloc: Global, random: &mut Random, size: u32) -> Result<Vec<Rep>, AllocError>
    ensures { IfOk result (λ reps. vec_len reps ≡ size) }
{
    let mut reps = Vec::new(alloc);
    'reps: for at in 0..size {
        let most = random.draw(60);
        let k = random.draw(3);
        reps.push(Rep {
            inverts: random.draw(2) == 1,
            k,
            limit: if most < 50 { Some(most) } else { None },
            ..rep(random.draw(6), random.draw(8))
        })?;
    }
    Ok(reps)
}

/// The first of so many pairs of lists at random of which repeaters at random make other pairs than the plain program.
fn first_wrong<L: Ledger>(alloc: Global, blank: Blank, cases: u32) -> Result<Option<u32>, Memory>
    requires name { blank.name ≡ L.name }
    requires parts { blank.parts ≡ L.parts }
    requires some { 0 < L.parts }
{
    let mut steps = Steps::<L>::new(blank);
    let mut random = Random::after(1);
    'cases: for case in 0..cases {
        let sizes = (
            random.draw(13) as u32,
            random.draw(13) as u32,
            random.draw(9) as u32,
        );
        let own = draw_pairs(alloc, &mut random, sizes.0)?;
        let other = draw_pairs(alloc, &mut random, sizes.1)?;
        let reps = draw_reps(alloc, &mut random, sizes.2)?;
        let lists = [own.as_slice(), other.as_slice()];
        if !agrees(alloc, lists, reps.as_slice(), &mut steps)? {
            return Ok(Some(case));
        }
    }
    Ok(None)
}

#[test]
fn generated_cells(rt: HostRuntime) -> Result<(), Fail> {
    assert_eq!(rt;
        first_wrong::<Brand>(rt.alloc(), Blank::new(1), 2000)?,
        None
    );
    Ok(())
}
