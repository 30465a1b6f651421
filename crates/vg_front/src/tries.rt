//! Repeaters that are tried at a node before candidates of one class.
//!
//! Of the candidates of a run, the best one for a repeater has no more load than the best one for a repeater of less
//! resistance. So the repeaters of a node are tried by halves: once the best candidate of the middle one is known,
//! those of more resistance look no further than there, and those of less resistance begin there.

ghost use Rattle.std.specs.Prelude.{◌≡◌, ◌+◌, ◌*◌, ◌^◌, ◌<◌, ◌≤◌, ◌-ℤ◌, pos, ℕ, List, length, slice_index_or, IfOk, OnOk, IsTrue};
ghost use Rattle.std.specs.List.{All, Contains};
ghost use Rattle.elmore.specs.Cells.{rep_at};
ghost use Rattle.elmore.specs.Legal.{IsWithin};
ghost use Rattle.elmore.specs.Problems.{IsRepWithin};
ghost use Rattle.vg_front.specs.Driving.{driven_offer, BeatsBy, IsReached, IsDriven, IsTried};
ghost use Rattle.vg_front.specs.Held.{IsBounded, AreBounded};
ghost use Rattle.vg_front.specs.Meeting.{IsRunAt};
ghost use Rattle.vg_front.specs.Offers.{Adds, OfSome};
ghost use Rattle.vg_front.specs.Tries.{before as before_spec, stand_at, IsLatest, IsTriedBy, AreNumbers, AreBests, DriveAll};
ghost use Rattle.vg_front.specs.declared.offer.Candidate.{Candidate as CandidateSpec};

use crate::offer::{Candidate, Offer, Origin, Proposal, beats, is_within};
use crate::propose::put;
use crate::runs::run_end;
use elmore::Rep;
use vg_num::Memory;

/// A node where repeaters may stand, and the cap of the cost (thousandths), if there is one.
#[derive(Clone, Copy)]
pub(crate) struct Site {
    pub node: u32,
    pub cap: Option<u64>,
}

/// When the signal of an offer may reach a resistor (mΩ) that charges its load (zs).
fn before(r: u64, x: Offer) -> i128
    requires resistance { r ≤ 10 ^ 9 }
    requires bounded { IsBounded x }
    ensures { result ≡ before_spec r x }
{
    x.q - i128::from(r) * i128::from(x.c)
}

/// What a repeater makes of an offer that it drives.
fn driven(rep: &Rep, x: Offer) -> Offer
    requires rep { IsRepWithin rep.now }
    requires bounded { IsBounded x }
    ensures { result ≡ driven_offer rep.now x }
{
    Offer {
        cost: x.cost + rep.cost,
        q: x.q - (i128::from(rep.k) + i128::from(rep.r) * i128::from(x.c)),
        c: rep.cin,
    }
}

/// Whether an offer, if there is one, beats another one.
fn is_beaten(best: Option<Offer>, x: Offer) -> bool
    ensures { IsTrue result → BeatsBy best x }
{
    match best {
        Some(best) => beats(best, x),
        None => false,
    }
}

/// Proposes a repeater for a candidate, if it may drive it within the cap, unless what was proposed for it last beats
/// that.
fn drive_one(
    site: Site,
    number: u32,
    rep: &Rep,
    x: Candidate,
    best: &mut Option<Offer>,
    made: &mut Vec<Proposal>,
) -> Result<(), Memory>
    requires rep { IsRepWithin rep.now }
    requires bounded { IsBounded x.offer }
    requires best { IsReached made.old.items best.old }
    ensures tried { OnOk result (IsTried (stand_at site number rep.now) site.cap x made.old.items made.new.items) }
    ensures best { OnOk result (IsReached made.new.items best.new) }
{
    let offer = driven(rep, x.offer);
    if is_beaten(*best, offer) {
        return Ok(());
    }
    if !is_within(rep.limit, x.offer.c) || !is_within(site.cap, offer.cost) {
        return Ok(());
    }
    let origin = Origin::Cell {
        node: site.node,
        rep: number,
        below: x.sol,
    };
    put(made, Proposal { offer, origin })?;
    *best = Some(offer);
    Ok(())
}

/// Proposes a repeater for each of these candidates that it may drive within the cap, but those that others beat.
fn drive(
    site: Site,
    number: u32,
    rep: &Rep,
    xs: &[Candidate],
    best: &mut Option<Offer>,
    made: &mut Vec<Proposal>,
) -> Result<(), Memory>
    requires rep { IsRepWithin rep.now }
    requires bounded { AreBounded xs.now }
    requires best { IsReached made.old.items best.old }
    ensures driven { OnOk result
        (Adds (IsDriven (stand_at site number rep.now) site.cap xs.now) made.old.items made.new.items) }
    ensures best { OnOk result (IsReached made.new.items best.new) }
{
    'candidates: for x in xs {
        drive_one(site, number, rep, *x, best, made)?;
    }
    Ok(())
}

/// The number of the candidate whose signal may reach a resistor (mΩ) latest that charges its load.
fn latest(xs: &[Candidate], r: u64) -> usize
    requires some { 0 < length xs.now }
    requires resistance { r ≤ 10 ^ 9 }
    requires bounded { AreBounded xs.now }
    ensures { IsLatest xs.now (length xs.now) r result }
{
    let mut at = 0;
    let mut best = before(r, xs[0].offer);
    'candidates: for i in 1..xs.len() {
        let q = before(r, xs[i].offer);
        if q <= best {
            continue 'candidates;
        }
        at = i;
        best = q;
    }
    at
}

/// Whether each of these repeaters may charge a load (aF).
fn drive_all(reps: &[Rep], numbers: &[u32], c: u64) -> bool
    requires { (b : ℕ) → Contains numbers.now b → b < length reps.now }
    ensures { IsTrue result → DriveAll reps.now numbers.now c }
{
    'numbers: for number in numbers {
        if !is_within(reps[*number as usize].limit, c) {
            return false;
        }
    }
    true
}

/// Tries each of these repeaters before each of these candidates.
fn try_each(
    site: Site,
    reps: &[Rep],
    numbers: &[u32],
    xs: &[Candidate],
    bests: &mut [Option<Offer>],
    made: &mut Vec<Proposal>,
) -> Result<(), Memory>
    requires reps { All IsRepWithin reps.now }
    requires numbers { AreNumbers reps.now numbers.now }
    requires bounded { AreBounded xs.now }
    requires bests { AreBests reps.now made.old.items bests.old }
    ensures tried { OnOk result
        (Adds (OfSome numbers.now (IsTriedBy site reps.now xs.now)) made.old.items made.new.items) }
    ensures bests { OnOk result (AreBests reps.now made.new.items bests.new) }
{
    'numbers: for number in numbers {
        let at = *number as usize;
        let mut best = bests[at];
        drive(site, *number, &reps[at], xs, &mut best, made)?;
        bests[at] = best;
    }
    Ok(())
}

/// Tries a repeater before a run of candidates all of which it may charge, and answers the number of the best one for
/// it.
fn try_one(
    site: Site,
    reps: &[Rep],
    number: u32,
    xs: &[Candidate],
    bests: &mut [Option<Offer>],
    made: &mut Vec<Proposal>,
) -> Result<usize, Memory>
    requires reps { All IsRepWithin reps.now }
    requires named { number < length reps.now }
    requires run { IsRunAt xs.now 0 (length xs.now) }
    requires bounded { AreBounded xs.now }
    requires charges { (x : CandidateSpec) → Contains xs.now x → IsWithin (rep_at reps.now number).limit x.offer.c }
    requires bests { AreBests reps.now made.old.items bests.old }
    ensures latest { IfOk result (λ at. IsLatest xs.now (length xs.now) (rep_at reps.now number).r at) }
    ensures tried { OnOk result (Adds (IsTriedBy site reps.now xs.now number) made.old.items made.new.items) }
    ensures bests { OnOk result (AreBests reps.now made.new.items bests.new) }
{
    let rep = &reps[number as usize];
    let at = latest(xs, rep.r);
    let mut best = bests[number as usize];
    drive_one(site, number, rep, xs[at], &mut best, made)?;
    bests[number as usize] = best;
    Ok(at)
}

/// Tries repeaters by rising resistance before a run of candidates all of which they may charge, by halves.
fn try_halves(
    site: Site,
    reps: &[Rep],
    numbers: &[u32],
    xs: &[Candidate],
    bests: &mut [Option<Offer>],
    made: &mut Vec<Proposal>,
) -> Result<(), Memory>
    requires reps { All IsRepWithin reps.now }
    requires numbers { AreNumbers reps.now numbers.now }
    requires run { IsRunAt xs.now 0 (length xs.now) }
    requires bounded { AreBounded xs.now }
    requires charge { (x : CandidateSpec) → Contains xs.now x → DriveAll reps.now numbers.now x.offer.c }
    requires bests { AreBests reps.now made.old.items bests.old }
    ensures tried { OnOk result
        (Adds (OfSome numbers.now (IsTriedBy site reps.now xs.now)) made.old.items made.new.items) }
    ensures bests { OnOk result (AreBests reps.now made.new.items bests.new) }
{
    let len = numbers.len();
    if len == 0 {
        return Ok(());
    }
    let mid = len / 2;
    let at = try_one(site, reps, numbers[mid], xs, bests, made)?;
    try_halves(site, reps, &numbers[..mid], &xs[at..], bests, made)?;
    try_halves(site, reps, &numbers[mid + 1..], &xs[..at + 1], bests, made)?;
    Ok(())
}

/// Tries repeaters by rising resistance before a run of candidates.
fn try_run(
    site: Site,
    reps: &[Rep],
    numbers: &[u32],
    xs: &[Candidate],
    bests: &mut [Option<Offer>],
    made: &mut Vec<Proposal>,
) -> Result<(), Memory>
    requires reps { All IsRepWithin reps.now }
    requires numbers { AreNumbers reps.now numbers.now }
    requires run { IsRunAt xs.now 0 (length xs.now) }
    requires bounded { AreBounded xs.now }
    requires bests { AreBests reps.now made.old.items bests.old }
    ensures tried { OnOk result
        (Adds (OfSome numbers.now (IsTriedBy site reps.now xs.now)) made.old.items made.new.items) }
    ensures bests { OnOk result (AreBests reps.now made.new.items bests.new) }
{
    if drive_all(reps, numbers, xs[xs.len() - 1].offer.c) {
        try_halves(site, reps, numbers, xs, bests, made)?;
        return Ok(());
    }
    try_each(site, reps, numbers, xs, bests, made)?;
    Ok(())
}

/// Tries repeaters by rising resistance before all candidates of a list, run by run.
pub(crate) fn try_all(
    site: Site,
    reps: &[Rep],
    numbers: &[u32],
    xs: &[Candidate],
    bests: &mut [Option<Offer>],
    made: &mut Vec<Proposal>,
) -> Result<(), Memory>
    requires reps { All IsRepWithin reps.now }
    requires numbers { AreNumbers reps.now numbers.now }
    requires bounded { AreBounded xs.now }
    requires bests { AreBests reps.now made.old.items bests.old }
    ensures { OnOk result (Adds (OfSome numbers.now (IsTriedBy site reps.now xs.now)) made.old.items made.new.items) }
{
    let mut from = 0;
    'runs: while from < xs.len() {
        let end = run_end(xs, from);
        try_run(site, reps, numbers, &xs[from..end], bests, made)?;
        from = end;
    }
    Ok(())
}
