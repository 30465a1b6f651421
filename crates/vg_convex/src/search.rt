//! The greatest time of each repeater, on the upper convex hull of the candidates (Li and Shi 2005).

ghost use Rattle.std.specs.Prelude.{◌≡◌, ℕ, ◌+◌, ◌-◌, ◌*◌, ◌^◌, ◌<◌, ◌≤◌, ◌-ℤ◌, pos, [], set, length, IfOk, OnOk, OnErr, Option, None};
ghost use Rattle.std.specs.List.{All};
ghost use Rattle.elmore.specs.Allowances.{Allows};
ghost use Rattle.elmore.specs.Cells.{rep_at};
ghost use Rattle.elmore.specs.Legal.{IsWithin};
ghost use Rattle.cand_pool.specs.Candidates.{Candidates, IsModest, AreModest};
ghost use Rattle.cand_pool.specs.Pools.{Holds};
ghost use Rattle.vg_convex.specs.Hulls.{Rise, IsGreatest};
ghost use Rattle.vg_convex.specs.Places.{row, told_by, IsPointOf, IsHullOf, IsWalk, IsFurther, IsOver, AreWithin, AreFrontOf};
ghost use Rattle.vg_convex.specs.Answers.{IsFoundFor, IsAnswer, found_at, IsRow, AreAnswered, AreServed, AreFound};
ghost use Rattle.vg_convex.specs.Orders.{AreByLimit, RiseInResistance, AreRising, IsDriverOf, IsShelf};
ghost use Rattle.vg_convex.specs.declared.work.Found.{Found as FoundSpec};

use crate::drive::{allows_any, is_allowed, is_within, time_before};
use crate::hull::{greatest_on, is_less, put_on};
use crate::shelf::{Driver, Shelf};
use crate::work::{Found, Point, Work};
use cand_pool::{Cand, List, Pool, Steps};
use elmore::{Allowed, Rep};
use std::sync::ledger::Ledger;
use vg_num::Memory;

/// Puts the points of the further candidates that are within a limit on the hull, and answers the place of the first
/// that is not.
fn grow<L: Ledger>(
    pool: &Pool,
    limit: Option<u64>,
    stack: &mut Vec<Point>,
    next: Option<Cand>,
    steps: &mut Steps<L>,
) -> Result<Option<Cand>, Memory>
    ghost xs: { Candidates }
    requires walk { (n : ℕ) × IsWalk pool.now xs n stack.old.items next }
    ensures grown { IfOk result (λ after. (n : ℕ) → IsWalk pool.now xs n stack.old.items next
        → (f : IsFurther pool.now xs limit n stack.new.items after) × IsOver limit xs f.seen
        × (steps.new + length stack.new.items + 3 * n ≤ steps.old + length stack.old.items + 3 * f.seen + 1)) }
    ensures cost { (n : ℕ) → IsWalk pool.now xs n stack.old.items next
        → steps.new + length stack.new.items + 3 * n ≤ steps.old + length stack.old.items + 3 * length xs }
{
    let mut next = next;
    'grow: while let Some(place) = next {
        let (q, c, tag) = pool.tell(place, steps);
        if !is_within(limit, c) {
            break;
        }
        put_on(stack, Point { q, c, tag }, steps)?;
        next = pool.next(place);
    }
    Ok(next)
}

/// What a repeater with this resistance, and this delay without a load, makes of a point.
fn made_of(r: u64, k: u64, point: Point) -> Found
    requires { IsModest (told_by point) }
    ensures time { result.time ≡ point.q -ℤ pos (k + r * point.c) }
    ensures tag { result.tag ≡ point.tag }
{
    let time = time_before(r, k, point.q, point.c);
    Found {
        time,
        tag: point.tag,
    }
}

/// The greatest time of one repeater, where the hull is that of the candidates within its limit.
fn find<L: Ledger>(rep: &Rep, stack: &[Point], steps: &mut Steps<L>) -> Option<Found>
    ghost xs: { Candidates }
    requires hull { (n : ℕ) × IsHullOf xs n stack.now × AreWithin rep.now.limit xs n }
    ensures found { IsFoundFor rep.now xs result }
    ensures cost { (d : ℕ) → length xs < 2 ^ d → steps.new ≤ steps.old + d }
{
    if stack.is_empty() {
        return None;
    }
    let point = greatest_on(stack, rep.r, steps);
    Some(made_of(rep.r, rep.k, point))
}

/// Goes on along a list as far as a repeater's limit allows, and puts its greatest time into the row of results;
/// nothing is done for a repeater that is not allowed. Answers the place of the candidate that comes next, or `Memory`
/// where there is no room.
fn find_next<L: Ledger>(
    pool: &Pool,
    reps: &[Rep],
    number: u32,
    allowed: &Allowed,
    work: &mut Work,
    next: Option<Cand>,
    steps: &mut Steps<L>,
) -> Result<Option<Cand>, Memory>
    ghost xs: { Candidates }
    requires walk { (n : ℕ) × IsWalk pool.now xs n work.old.stack.items next
        × ((i : ℕ) → i < n → IsWithin (rep_at reps.now number).limit (row xs i).c) }
    requires named { number < length reps.now }
    requires rows { number < length work.old.found.items }
    requires none { (Allows allowed.now number → ⊥) → found_at work.old.found.items number ≡ None }
    requires rising { AreRising allowed.now }
    ensures walk { IfOk result (λ after. (n : ℕ) → IsWalk pool.now xs n work.old.stack.items next
        → (f : IsFurther pool.now xs (rep_at reps.now number).limit n work.new.stack.items after)
        × ((d : ℕ) → length xs < 2 ^ d → steps.new + length work.new.stack.items + 3 * n
        ≤ steps.old + length work.old.stack.items + 3 * f.seen + d + 2)) }
    ensures found { OnOk result ((found : Option FoundSpec) × IsAnswer allowed.now reps.now xs number found
        × (work.new.found.items ≡ set work.old.found.items number found)) }
    ensures cost { OnErr result ((n : ℕ) → IsWalk pool.now xs n work.old.stack.items next
        → steps.new + 3 * n ≤ steps.old + length work.old.stack.items + 3 * length xs) }
{
    if !is_allowed(allowed, number) {
        return Ok(next);
    }
    let rep = &reps[number as usize];
    let after = grow(pool, rep.limit, &mut work.stack, next, steps)?;
    work.found[number as usize] = find(rep, &work.stack, steps);
    Ok(after)
}

/// The greatest time of each repeater of an order by limit that is allowed, in its place of the row. Answers the place
/// of the candidate that comes next, or `Memory` where there is no room.
fn find_limited<L: Ledger>(
    pool: &Pool,
    first: Option<Cand>,
    reps: &[Rep],
    order: &[u32],
    allowed: &Allowed,
    work: &mut Work,
    steps: &mut Steps<L>,
) -> Result<Option<Cand>, Memory>
    ghost xs: { Candidates }
    requires walk { IsWalk pool.now xs 0 work.old.stack.items first }
    requires row { IsRow allowed.now reps.now work.old.found.items }
    requires named { All (λ b. b < length reps.now) order.now }
    requires by_limit { AreByLimit reps.now order.now }
    requires rising { AreRising allowed.now }
    ensures walk { IfOk result (λ next. (n : ℕ) × IsWalk pool.now xs n work.new.stack.items next
        × ((d : ℕ) → length xs < 2 ^ d
        → steps.new + length work.new.stack.items ≤ steps.old + 3 * n + length order.now * (d + 2))) }
    ensures row { OnOk result (IsRow allowed.now reps.now work.new.found.items) }
    ensures found { OnOk result (AreAnswered allowed.now reps.now xs order.now work.new.found.items) }
    ensures cost { (d : ℕ) → length xs < 2 ^ d → steps.new ≤ steps.old + 3 * length xs + length order.now * (d + 2) }
{
    let mut next = first;
    'reps: for number in order {
        next = find_next(pool, reps, *number, allowed, work, next, steps)?;
    }
    Ok(next)
}

/// Puts the greatest time of a repeater without a limit into the row of results, where it makes that of this point;
/// nothing is done for a repeater that is not allowed.
fn put_free(
    reps: &[Rep],
    driver: Driver,
    point: Point,
    allowed: &Allowed,
    found: &mut [Option<Found>],
)
    ghost xs: { Candidates }
    requires driver { IsDriverOf reps.now driver }
    requires rise { Rise (row xs) (length xs) }
    requires modest { AreModest xs }
    requires best { (i : ℕ) × IsPointOf xs point i × IsGreatest (row xs) (length xs) driver.r i }
    requires row { IsRow allowed.now reps.now found.old }
    requires rising { AreRising allowed.now }
    ensures { (answer : Option FoundSpec) × IsAnswer allowed.now reps.now xs driver.rep answer
        × (found.new ≡ set found.old driver.rep answer) }
{
    let _ = reps;
    if is_allowed(allowed, driver.rep) {
        found[driver.rep as usize] = Some(made_of(driver.r, driver.k, point));
    }
}

/// Puts the greatest times of the next repeaters of an order by resistance into the row of results: of those to which
/// the last point that is left of the hull is worth more than the one before it. Answers the first one to which it is
/// worth no more.
fn put_served<L: Ledger>(
    reps: &[Rep],
    drivers: &[Driver],
    from: usize,
    stack: &[Point],
    left: usize,
    allowed: &Allowed,
    found: &mut [Option<Found>],
    steps: &mut Steps<L>,
) -> usize
    ghost xs: { Candidates }
    requires drivers { All (IsDriverOf reps.now) drivers.now }
    requires from { from ≤ length drivers.now }
    requires front { AreFrontOf xs stack.now left drivers.now from }
    requires left { (2 ≤ left) × (left ≤ length stack.now) }
    requires row { IsRow allowed.now reps.now found.old }
    requires rising { AreRising allowed.now }
    requires by_resistance { RiseInResistance drivers.now }
    ensures inside { (from ≤ result) × (result ≤ length drivers.now) }
    ensures served { AreServed allowed.now reps.now xs drivers.now from result found.old found.new }
    ensures front { AreFrontOf xs stack.now (left - 1) drivers.now result }
    ensures cost { steps.new + from ≤ steps.old + result + 1 }
{
    let before = stack[left - 2];
    let last = stack[left - 1];
    let mut at = from;
    'drivers: while at < drivers.len() {
        let driver = drivers[at];
        if !is_less(before, last, driver.r, steps) {
            break;
        }
        put_free(reps, driver, last, allowed, found);
        at += 1;
    }
    at
}

/// Puts the greatest times of the other repeaters of an order by resistance into the row of results, where the first
/// point of the hull is left alone.
fn put_others(
    reps: &[Rep],
    drivers: &[Driver],
    from: usize,
    stack: &[Point],
    allowed: &Allowed,
    found: &mut [Option<Found>],
)
    ghost xs: { Candidates }
    requires drivers { All (IsDriverOf reps.now) drivers.now }
    requires from { from ≤ length drivers.now }
    requires front { AreFrontOf xs stack.now 1 drivers.now from }
    requires some { 0 < length stack.now }
    requires row { IsRow allowed.now reps.now found.old }
    requires rising { AreRising allowed.now }
    ensures { AreServed allowed.now reps.now xs drivers.now from (length drivers.now) found.old found.new }
{
    let first = stack[0];
    'drivers: for at in from..drivers.len() {
        put_free(reps, drivers[at], first, allowed, found);
    }
}

/// The greatest time of each repeater of an order by resistance that is allowed, in its place of the row, where the
/// hull is that of all candidates. None of these repeaters has a limit. From the end of the hull those points come off
/// that are worth no more than the one before them: they serve no greater resistance either, since the less a
/// candidate's load is, the less worth it loses there.
// Inlined, it would keep less in registers.
#[inline(never)]
fn find_each_free<L: Ledger>(
    reps: &[Rep],
    drivers: &[Driver],
    stack: &[Point],
    allowed: &Allowed,
    found: &mut [Option<Found>],
    steps: &mut Steps<L>,
)
    ghost xs: { Candidates }
    requires drivers { All (IsDriverOf reps.now) drivers.now }
    requires hull { IsHullOf xs (length xs) stack.now }
    requires some { 0 < length stack.now }
    requires row { IsRow allowed.now reps.now found.old }
    requires rising { AreRising allowed.now }
    requires by_resistance { RiseInResistance drivers.now }
    ensures served { AreServed allowed.now reps.now xs drivers.now 0 (length drivers.now) found.old found.new }
    ensures cost { steps.new ≤ steps.old + length stack.now + length drivers.now }
{
    let mut at = 0;
    let mut left = stack.len();
    'points: while left >= 2 && at < drivers.len() {
        at = put_served(reps, drivers, at, stack, left, allowed, found, steps);
        left -= 1;
    }
    if at < drivers.len() {
        put_others(reps, drivers, at, stack, allowed, found);
    }
}

/// The greatest time of each repeater of a shelf that is allowed, in its place of the row: of those with a limit while
/// the hull grows, and then of those without one on the hull of the whole list, which is found where one of them is
/// allowed.
pub(crate) fn find_all<L: Ledger>(
    pool: &Pool,
    from: &List,
    reps: &[Rep],
    shelf: &Shelf,
    allowed: &Allowed,
    work: &mut Work,
    steps: &mut Steps<L>,
) -> Result<(), Memory>
    ghost xs: { Candidates }
    requires list { Holds pool.now from.now xs }
    requires rise { Rise (row xs) (length xs) }
    requires modest { AreModest xs }
    requires stack { work.old.stack.items ≡ [] }
    requires row { IsRow allowed.now reps.now work.old.found.items }
    requires shelf { IsShelf reps.now shelf.now }
    requires rising { AreRising allowed.now }
    ensures rows { OnOk result (length reps.now ≤ length work.new.found.items) }
    ensures found { OnOk result (AreFound allowed.now reps.now xs work.new.found.items) }
    ensures cost { (d : ℕ) → length xs < 2 ^ d → steps.new ≤ steps.old + 3 * length xs + length reps.now * (d + 2) }
{
    let first = pool.first(from);
    let next = find_limited(pool, first, reps, &shelf.limited, allowed, work, steps)?;
    if !allows_any(allowed, &shelf.free) {
        return Ok(());
    }
    grow(pool, None, &mut work.stack, next, steps)?;
    if work.stack.is_empty() {
        work.forget();
        return Ok(());
    }
    find_each_free(
        reps,
        &shelf.free,
        &work.stack,
        allowed,
        &mut work.found,
        steps,
    );
    Ok(())
}
