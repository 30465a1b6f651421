//! What the pairs at the root are worth to the driver.

ghost use Rattle.std.specs.Prelude.{◌≡◌, ◌↔◌, ◌*◌, ◌^◌, ◌≤◌, ◌++◌, ◌∷◌, [], List, ◌+ℤ◌, ◌-ℤ◌, ◌≤ℤ◌, pos, IsTrue};
ghost use Rattle.std.specs.List.{All};
ghost use Rattle.elmore.specs.Problems.{IsDriverWithin};
ghost use Rattle.cand_pairs.specs.Candidates.{Drives};
ghost use Rattle.elmore.specs.declared.pair.Pair.{Pair as PairSpec};
ghost use Rattle.vg_cert.specs.Fits.{IsEntry, IsTime};
ghost use Rattle.vg_check.specs.Verdicts.{IsBoundOf, IsOver};

use elmore::{Driver, Pair, Problem};

/// Whether the driver may charge the load of a pair.
fn drives(p: &Problem, pair: &Pair) -> bool
    ensures { IsTrue result ↔ Drives p.now pair.now }
{
    match p.driver.limit {
        Some(most) => pair.c <= most,
        None => true,
    }
}

/// The delay (zs) of a driver into a load (aF).
fn delay(driver: Driver, load: u64) -> i128
    requires driver { IsDriverWithin driver }
    requires load { load ≤ 10 ^ 11 }
    ensures is { result ≡ driver.k +ℤ pos (driver.r * load) }
    ensures low { (pos 0 -ℤ pos (10 ^ 25)) ≤ℤ result }
    ensures high { result ≤ℤ pos (10 ^ 25) }
{
    driver.k + i128::from(driver.r) * i128::from(load)
}

/// The slack (zs) that a driver makes of a pair.
fn value(driver: Driver, pair: Pair) -> i128
    requires driver { IsDriverWithin driver }
    requires time { IsTime pair.q }
    requires load { pair.c ≤ 10 ^ 11 }
    ensures { result ≡ pair.q -ℤ (driver.k +ℤ pos (driver.r * pair.c)) -ℤ driver.arrival }
{
    pair.q - delay(driver, pair.c) - driver.arrival
}

/// The greatest slack of those found and of one pair more.
fn with_pair(p: &Problem, found: Option<i128>, pair: &Pair) -> Option<i128>
    requires entry { IsEntry pair.now }
    ensures { (seen : List PairSpec) → IsBoundOf p.now seen found → IsBoundOf p.now (seen ++ pair.now ∷ []) result }
{
    if !drives(p, pair) {
        return found;
    }
    let value = value(p.driver, *pair);
    match found {
        Some(most) => Some(most.max(value)),
        None => Some(value),
    }
}

/// The greatest slack (zs) that the driver makes of the pairs that it may charge. None where it may charge no pair.
pub(crate) fn root_bound(p: &Problem, pairs: &[Pair]) -> Option<i128>
    requires entries { All IsEntry pairs.now }
    ensures { IsBoundOf p.now pairs.now result }
{
    let mut found = None;
    'pairs: for pair in pairs {
        found = with_pair(p, found, pair);
    }
    found
}

/// Whether a slack is more than the one that was written, if one was.
pub(crate) fn is_over(bound: i128, written: Option<i128>) -> bool
    ensures { IsTrue result ↔ IsOver written bound }
{
    match written {
        Some(slack) => slack < bound,
        None => true,
    }
}
