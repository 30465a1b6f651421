//! What a repeater may drive at a node, and the time before it.

ghost use Rattle.std.specs.Prelude.{◌≡◌, ◌↔◌, ℕ, ◌+◌, ◌*◌, ◌^◌, ◌≤◌, ◌≤ℤ◌, ◌-ℤ◌, pos, negsuc, IsTrue, MatchBool};
ghost use Rattle.std.specs.List.{All, Contains};
ghost use Rattle.elmore.specs.Allowances.{Allows};
ghost use Rattle.elmore.specs.Legal.{IsWithin};
ghost use Rattle.vg_convex.specs.Orders.{AreRising};
ghost use Rattle.vg_convex.specs.declared.shelf.Driver.{Driver as DriverSpec};

use crate::shelf::Driver;
use elmore::Allowed;

/// Whether a load is within a limit, if there is one.
pub(crate) fn is_within(limit: Option<u64>, load: u64) -> bool
    ensures { IsTrue result ↔ IsWithin limit load }
{
    match limit {
        Some(most) => load <= most,
        None => true,
    }
}

/// Whether a node allows a repeater, by its number.
pub(crate) fn is_allowed(allowed: &Allowed, rep: u32) -> bool
    requires rising { AreRising allowed.now }
    ensures { IsTrue result ↔ Allows allowed.now rep }
{
    match allowed {
        Allowed::All => true,
        Allowed::Only(numbers) => numbers.as_slice().binary_search(&rep).is_ok(),
    }
}

/// Whether a node allows the repeater of some driver.
pub(crate) fn allows_any(allowed: &Allowed, drivers: &[Driver]) -> bool
    requires rising { AreRising allowed.now }
    ensures { MatchBool result ((driver : DriverSpec) × Contains drivers.now driver × Allows allowed.now driver.rep)
        (All (λ driver. Allows allowed.now driver.rep → ⊥) drivers.now) }
{
    'drivers: for driver in drivers {
        if is_allowed(allowed, driver.rep) {
            return true;
        }
    }
    false
}

/// The delay into a load of a repeater with this resistance, and this delay without a load.
fn delay_into(r: u64, k: u64, load: u64) -> i128
    requires { load ≤ 10 ^ 11 }
    ensures value { result ≡ pos (k + r * load) }
    ensures small { k + r * load ≤ 2 ^ 64 + 2 ^ 64 * 10 ^ 11 }
{
    i128::from(k) + i128::from(r) * i128::from(load)
}

/// The time before such a repeater, which drives a load.
pub(crate) fn time_before(r: u64, k: u64, q: i128, load: u64) -> i128
    requires low { negsuc (10 ^ 25) ≤ℤ q }
    requires high { q ≤ℤ pos (10 ^ 25) }
    requires load { load ≤ 10 ^ 11 }
    ensures { result ≡ q -ℤ pos (k + r * load) }
{
    q - delay_into(r, k, load)
}
