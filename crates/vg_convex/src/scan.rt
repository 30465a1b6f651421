//! The greatest time of each of a few repeaters, which are tried on each candidate (van Ginneken 1990).

ghost use Rattle.std.specs.Prelude.{◌≡◌, ◌⊎◌, ◌+◌, ◌*◌, ◌^◌, ◌<◌, ◌≤◌, ◌≤ℤ◌, set, length, Option, MatchOption};
ghost use Rattle.cand_pool.specs.Candidates.{Candidates, AreModest};
ghost use Rattle.cand_pool.specs.Pools.{Holds};
ghost use Rattle.vg_convex.specs.Answers.{IsFoundFor, IsAnswer, IsRow, AreFound};
ghost use Rattle.vg_convex.specs.Hulls.{Rise};
ghost use Rattle.vg_convex.specs.Orders.{AreRising};
ghost use Rattle.vg_convex.specs.Places.{row};
ghost use Rattle.vg_convex.specs.declared.work.Found.{Found as FoundSpec};

use crate::drive::{is_allowed, is_within, time_before};
use crate::work::{Found, Work};
use cand_pool::{List, Pool, Steps};
use elmore::{Allowed, Rep};
use std::sync::ledger::Ledger;

/// The one with more time, and of two with the same the one that was found first.
fn better(found: Option<Found>, made: Found) -> Found
    ensures { MatchOption found (result ≡ made)
        (λ best. ((result ≡ best) × (made.time ≤ℤ best.time)) ⊎ ((result ≡ made) × (best.time ≤ℤ made.time))) }
{
    match found {
        Some(best) => if best.time < made.time { made } else { best },
        None => made,
    }
}

/// The greatest time of one repeater. The loads of a list rise, so the candidates within its limit come first.
fn scan<L: Ledger>(pool: &Pool, from: &List, rep: &Rep, steps: &mut Steps<L>) -> Option<Found>
    ghost xs: { Candidates }
    requires list { Holds pool.now from.now xs }
    requires rise { Rise (row xs) (length xs) }
    requires modest { AreModest xs }
    ensures found { IsFoundFor rep.now xs result }
    ensures cost { steps.new ≤ steps.old + length xs }
{
    let mut found = None;
    let mut next = pool.first(from);
    'scan: while let Some(place) = next {
        let (q, c, tag) = pool.tell(place, steps);
        if !is_within(rep.limit, c) {
            break;
        }
        let time = time_before(rep.r, rep.k, q, c);
        found = Some(better(found, Found { time, tag }));
        next = pool.next(place);
    }
    found
}

/// Puts the greatest time of a repeater into the row of results; nothing is done for a repeater that is not allowed.
fn scan_next<L: Ledger>(
    pool: &Pool,
    from: &List,
    reps: &[Rep],
    number: u32,
    allowed: &Allowed,
    work: &mut Work,
    steps: &mut Steps<L>,
)
    ghost xs: { Candidates }
    requires list { Holds pool.now from.now xs }
    requires rise { Rise (row xs) (length xs) }
    requires modest { AreModest xs }
    requires named { number < length reps.now }
    requires row { IsRow allowed.now reps.now work.old.found.items }
    requires rising { AreRising allowed.now }
    ensures found { (found : Option FoundSpec) × IsAnswer allowed.now reps.now xs number found
        × (work.new.found.items ≡ set work.old.found.items number found) }
    ensures cost { steps.new ≤ steps.old + length xs }
{
    if is_allowed(allowed, number) {
        let at = number as usize;
        work.found[at] = scan(pool, from, &reps[at], steps);
    }
}

/// The greatest time of each repeater that is allowed, in its place of the row.
pub(crate) fn scan_all<L: Ledger>(
    pool: &Pool,
    from: &List,
    reps: &[Rep],
    allowed: &Allowed,
    work: &mut Work,
    steps: &mut Steps<L>,
)
    ghost xs: { Candidates }
    requires list { Holds pool.now from.now xs }
    requires rise { Rise (row xs) (length xs) }
    requires modest { AreModest xs }
    requires row { IsRow allowed.now reps.now work.old.found.items }
    requires few { length reps.now < 2 ^ 32 }
    requires rising { AreRising allowed.now }
    ensures row { IsRow allowed.now reps.now work.new.found.items }
    ensures found { AreFound allowed.now reps.now xs work.new.found.items }
    ensures cost { steps.new ≤ steps.old + length reps.now * length xs }
{
    'reps: for number in 0..reps.len() {
        scan_next(pool, from, reps, number as u32, allowed, work, steps);
    }
}
