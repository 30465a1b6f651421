//! The undominated ones of some results.

ghost use Rattle.std.specs.Prelude.{◌≡◌, ◌<◌, ◌≤◌, length, take, IfOk, OnOk};
ghost use Rattle.std.specs.List.{All};
ghost use Rattle.vg_convex.specs.Answers.{found_by, found_for, IsKept, IsLast, AreSwept};
ghost use Rattle.vg_convex.specs.Orders.{AreByInput, IsPinOf, reps_of_pins};

use crate::shelf::Pin;
use crate::work::{Found, Made};
use elmore::{Pair, Rep};
use vg_num::Memory;

/// Puts a result after those of an undominated list, none of which has more input capacitance, and answers the pair of
/// the last one.
fn keep(kept: &mut Vec<Made>, last: Pair, made: Made) -> Result<Pair, Memory>
    requires { IsLast kept.old.items last }
    ensures kept { OnOk result (IsKept kept.old.items made kept.new.items) }
    ensures last { IfOk result (IsLast kept.new.items) }
{
    if made.pair.q <= last.q {
        return Ok(last);
    }
    if made.pair.c == last.c {
        let end = kept.len() - 1;
        kept[end] = made;
        return Ok(made.pair);
    }
    kept.push(made)?;
    Ok(made.pair)
}

/// What was found for a repeater, in the row of its kind.
fn found_for(pin: Pin, buffers: &[Option<Found>], inverters: &[Option<Found>]) -> Option<Found>
    requires buffers { pin.rep < length buffers.now }
    requires inverters { pin.rep < length inverters.now }
    ensures { result ≡ found_for buffers.now inverters.now pin }
{
    if pin.inverts {
        inverters[pin.rep as usize]
    } else {
        buffers[pin.rep as usize]
    }
}

/// What a repeater makes where this was found for it.
fn made_of(pin: Pin, best: Found) -> Made
    ensures { result ≡ record { pair = record { q = best.time; c = pin.cin }; rep = pin.rep; tag = best.tag } }
{
    let pair = Pair {
        q: best.time,
        c: pin.cin,
    };
    Made {
        pair,
        rep: pin.rep,
        tag: best.tag,
    }
}

/// Puts the results of the repeaters of an order from a place on after those of an undominated list, whose last pair
/// this is.
fn keep_all(
    reps: &[Rep],
    pins: &[Pin],
    from: usize,
    buffers: &[Option<Found>],
    inverters: &[Option<Found>],
    first: Pair,
    kept: &mut Vec<Made>,
) -> Result<(), Memory>
    requires pins { All (IsPinOf reps.now) pins.now }
    requires from { from ≤ length pins.now }
    requires buffers { length reps.now ≤ length buffers.now }
    requires inverters { length reps.now ≤ length inverters.now }
    requires by_input { AreByInput reps.now (reps_of_pins pins.now) }
    requires swept { AreSwept reps.now (found_by reps.now buffers.now inverters.now)
        (take from (reps_of_pins pins.now)) kept.old.items }
    requires first { IsLast kept.old.items first }
    ensures { OnOk result
        (AreSwept reps.now (found_by reps.now buffers.now inverters.now) (reps_of_pins pins.now) kept.new.items) }
{
    let _ = reps;
    let mut last = first;
    'pins: for at in from..pins.len() {
        let pin = pins[at];
        if let Some(best) = found_for(pin, buffers, inverters) {
            last = keep(kept, last, made_of(pin, best))?;
        }
    }
    Ok(())
}

/// The undominated ones of the results of these repeaters, which are in the order of their input capacitances: those of
/// buffers stand in one row, and those of inverters in the other.
// Inlined, it would keep less in registers.
#[inline(never)]
pub(crate) fn sweep(
    reps: &[Rep],
    pins: &[Pin],
    buffers: &[Option<Found>],
    inverters: &[Option<Found>],
    kept: &mut Vec<Made>,
) -> Result<(), Memory>
    requires pins { All (IsPinOf reps.now) pins.now }
    requires buffers { length reps.now ≤ length buffers.now }
    requires inverters { length reps.now ≤ length inverters.now }
    requires by_input { AreByInput reps.now (reps_of_pins pins.now) }
    ensures { OnOk result
        (AreSwept reps.now (found_by reps.now buffers.now inverters.now) (reps_of_pins pins.now) kept.new.items) }
{
    kept.clear();
    'pins: for at in 0..pins.len() {
        let pin = pins[at];
        if let Some(best) = found_for(pin, buffers, inverters) {
            let made = made_of(pin, best);
            kept.push(made)?;
            keep_all(reps, pins, at + 1, buffers, inverters, made.pair, kept)?;
            return Ok(());
        }
    }
    Ok(())
}
