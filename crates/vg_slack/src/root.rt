//! The candidate of the root for which the driver leaves the most slack.

ghost use Rattle.std.specs.Prelude.{◌≡◌, ◌↔◌, ◌+◌, ◌*◌, ◌^◌, ◌≤◌, [], ◌∷◌, ◌++◌, length, IsTrue};
ghost use Rattle.std.specs.Prelude.{◌≤ℤ◌, ◌+ℤ◌, ◌-ℤ◌, pos, negsuc};
ghost use Rattle.elmore.specs.Legal.{IsWithin};
ghost use Rattle.elmore.specs.Problems.{IsDriverWithin};
ghost use Rattle.cand_pool.specs.Candidates.{Candidate, Candidates, AreModest};
ghost use Rattle.cand_pool.specs.Pools.{IsLive, items_of};
ghost use Rattle.vg_slack.specs.Roots.{IsChoice};

use cand_pool::{List, Pool, Steps};
use elmore::{Driver, Problem};
use sol_arena::Sol;
use std::sync::ledger::Ledger;

/// A candidate of the root: the slack (zs) that the driver leaves, and its solution.
#[derive(Clone, Copy)]
pub(crate) struct Choice {
    pub slack: i128,
    pub sol: Sol,
}

/// Whether the driver may charge a load (aF).
fn may_charge(p: &Problem, load: u64) -> bool
    ensures { IsTrue result ↔ IsWithin p.now.driver.limit load }
{
    match p.driver.limit {
        Some(most) => load <= most,
        None => true,
    }
}

/// When a signal is behind a resistor (mΩ) that charges a load (aF), where it is before it at this time (zs).
fn behind(before: i128, r: u64, load: u64) -> i128
    requires low { (pos 0 -ℤ pos (10 ^ 24)) ≤ℤ before }
    requires high { before ≤ℤ pos (10 ^ 24) }
    requires resistance { r ≤ 10 ^ 9 }
    requires load { load ≤ 10 ^ 11 }
    ensures is { result ≡ before +ℤ pos (r * load) }
    ensures low { (pos 0 -ℤ pos (10 ^ 25)) ≤ℤ result }
    ensures high { result ≤ℤ pos (10 ^ 25) }
{
    before + i128::from(r) * i128::from(load)
}

/// When the signal leaves the driver (zs), which charges a load (aF).
fn departure(driver: &Driver, load: u64) -> i128
    requires driver { IsDriverWithin driver.now }
    requires load { load ≤ 10 ^ 11 }
    ensures is { result ≡ driver.now.arrival +ℤ driver.now.k +ℤ pos (driver.now.r * load) }
    ensures low { (pos 0 -ℤ pos (10 ^ 25)) ≤ℤ result }
    ensures high { result ≤ℤ pos (10 ^ 25) }
{
    behind(driver.arrival + driver.k, driver.r, load)
}

/// The slack (zs) that the driver leaves of a required time (zs) at the root when it charges a load (aF).
fn slack_from(driver: &Driver, q: i128, load: u64) -> i128
    requires driver { IsDriverWithin driver.now }
    requires low { negsuc (10 ^ 25) ≤ℤ q }
    requires high { q ≤ℤ pos (10 ^ 25) }
    requires load { load ≤ 10 ^ 11 }
    ensures { result ≡ q -ℤ (driver.now.arrival +ℤ driver.now.k +ℤ pos (driver.now.r * load)) }
{
    q - departure(driver, load)
}

/// The better of what was chosen so far and of one candidate more, of which the pool told its q, its c and its tag.
fn better(p: &Problem, best: Option<Choice>, told: (i128, u64, u64)) -> Option<Choice>
    requires low { negsuc (10 ^ 25) ≤ℤ told.0 }
    requires high { told.0 ≤ℤ pos (10 ^ 25) }
    requires load { told.1 ≤ 10 ^ 11 }
    ensures { (xs : Candidates) (x : Candidate) → (told.0 ≡ x.q) × (told.1 ≡ x.c) × (told.2 ≡ x.tag)
        → IsChoice p.now xs best → IsChoice p.now (xs ++ x ∷ []) result }
{
    let (q, c, tag) = told;
    if !may_charge(p, c) {
        return best;
    }
    let slack = slack_from(&p.driver, q, c);
    if let Some(best) = best {
        if slack <= best.slack {
            return Some(best);
        }
    }
    Some(Choice {
        slack,
        sol: Sol(tag),
    })
}

/// Of the candidates of a list at the root whose load the driver may charge, the one for which it leaves the most slack
/// (van Ginneken 1990). `None`: the driver may charge none of the loads. It walks over the list once.
pub(crate) fn best_candidate<L: Ledger>(
    pool: &Pool,
    p: &Problem,
    list: &List,
    steps: &mut Steps<L>,
) -> Option<Choice>
    requires live { IsLive pool.now list.now }
    requires modest { AreModest (items_of pool.now list.now) }
    ensures choice { IsChoice p.now (items_of pool.now list.now) result }
    ensures steps { steps.new ≡ steps.old + length (items_of pool.now list.now) }
{
    let mut best = None;
    let mut next = pool.first(list);
    'walk: while let Some(place) = next {
        let told = pool.tell(place, steps);
        best = better(p, best, told);
        next = pool.next(place);
    }
    best
}
