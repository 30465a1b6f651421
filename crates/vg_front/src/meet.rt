//! Two branches meet.

ghost use Rattle.std.specs.Prelude.{[], ◌≡◌, ◌+◌, ◌<◌, ◌≤◌, ◌^◌, length, OnOk};
ghost use Rattle.std.specs.BinaryHeap.{heap_items};
ghost use Rattle.std.specs.Int.{int_min};
ghost use Rattle.std.specs.List.{Contains};
ghost use Rattle.vg_front.specs.Desks.{all_in};
ghost use Rattle.vg_front.specs.Offers.{proposed_by, IsPartOf, Adds};
ghost use Rattle.vg_front.specs.Seen.{AreReached};
ghost use Rattle.vg_front.specs.Held.{IsBounded, AreBounded};
ghost use Rattle.vg_front.specs.Meeting.{met_offer, IsMetOf, IsMet, IsRun, IsAdvance};
ghost use Rattle.vg_front.specs.Runs.{run_in as run_in_spec, IsRunOf, AreRunsOf};
ghost use Rattle.vg_front.specs.Turns.{AreTurns};
ghost use Rattle.vg_front.specs.declared.offer.Proposal.{Proposal as ProposalSpec};

use crate::offer::{Candidate, Offer, Origin, Proposal};
use crate::propose::Desk;
use crate::runs::{Run, run_in, runs_of};
use crate::turns::{Turn, put, put_all};
use std::alloc::Global;
use std::cmp::Reverse;
use std::collections::BinaryHeap;
use vg_num::Memory;

/// The lesser of two times (zs).
fn lesser(a: i128, b: i128) -> i128
    ensures { result ≡ int_min a b }
{
    if a <= b { a } else { b }
}

/// The costs of two offers together.
fn both_costs(a: Offer, b: Offer) -> u64
    requires first { IsBounded a }
    requires second { IsBounded b }
    ensures { result ≡ a.cost + b.cost }
{
    a.cost + b.cost
}

/// Two offers of branches that meet, together.
fn met(a: Offer, b: Offer) -> Offer
    requires first { IsBounded a }
    requires second { IsBounded b }
    ensures { result ≡ met_offer a b }
{
    Offer {
        cost: both_costs(a, b),
        q: lesser(a.q, b.q),
        c: a.c + b.c,
    }
}

/// Goes on to the next candidates of two lists: past the one with the lesser time, or past both where the times are
/// equal.
fn advance(x: Offer, y: Offer, i: &mut usize, j: &mut usize)
    requires i { i.old + 1 < 2 ^ 64 }
    requires j { j.old + 1 < 2 ^ 64 }
    ensures { IsAdvance x.q y.q i.old j.old i.new j.new }
{
    if x.q < y.q {
        *i += 1;
        return;
    }
    if y.q < x.q {
        *j += 1;
        return;
    }
    *i += 1;
    *j += 1;
}

/// Proposes the pairs of two runs, but those that others beat (van Ginneken 1990).
fn meet_runs(xs: &[Candidate], ys: &[Candidate], desk: &mut Desk) -> Result<(), Memory>
    requires first { IsRun xs.now }
    requires second { IsRun ys.now }
    requires bounded_first { AreBounded xs.now }
    requires bounded_second { AreBounded ys.now }
    requires reached { AreReached desk.old.stairs (proposed_by desk.old.made.items) }
    ensures met { OnOk result (Adds (IsMetOf xs.now ys.now) (all_in desk.old) (all_in desk.new)) }
    ensures reached { OnOk result (AreReached desk.new.stairs (proposed_by desk.new.made.items)) }
{
    let (mut i, mut j) = (0, 0);
    'pairs: while i < xs.len() && j < ys.len() {
        let (x, y) = (xs[i], ys[j]);
        let origin = Origin::Join { a: x.sol, b: y.sol };
        let offer = met(x.offer, y.offer);
        desk.propose(Proposal { offer, origin })?;
        advance(x.offer, y.offer, &mut i, &mut j);
    }
    Ok(())
}

/// Proposes the pairs of a run of each of two lists, but those that others beat.
fn meet_one(
    xs: &[Candidate],
    ys: &[Candidate],
    first: Run,
    second: Run,
    desk: &mut Desk,
) -> Result<(), Memory>
    requires first { IsRunOf xs.now first }
    requires second { IsRunOf ys.now second }
    requires bounded_first { AreBounded xs.now }
    requires bounded_second { AreBounded ys.now }
    requires reached { AreReached desk.old.stairs (proposed_by desk.old.made.items) }
    ensures met { OnOk result
        (Adds (IsMetOf (run_in_spec xs.now first) (run_in_spec ys.now second)) (all_in desk.old) (all_in desk.new)) }
    ensures reached { OnOk result (AreReached desk.new.stairs (proposed_by desk.new.made.items)) }
{
    let first = run_in(xs, first);
    let second = run_in(ys, second);
    meet_runs(first, second, desk)?;
    Ok(())
}

/// Where another cost begins, keeps what no others beat of what was proposed at the cost before.
fn turn_to(cost: u64, at: &mut u64, desk: &mut Desk) -> Result<(), Memory>
    requires reached { AreReached desk.old.stairs (proposed_by desk.old.made.items) }
    ensures kept { OnOk result (IsPartOf (Contains (all_in desk.old)) (all_in desk.new)) }
    ensures reached { OnOk result (AreReached desk.new.stairs (proposed_by desk.new.made.items)) }
{
    if cost == *at {
        return Ok(());
    }
    desk.settle()?;
    *at = cost;
    Ok(())
}

/// Proposes the pairs of all runs of two lists within the cap, turn by turn, but those that others beat: the pairs of
/// one cost after those of another, so that only pairs of one cost are to be put in order.
fn meet_by_turns(
    xs: &[Candidate],
    ys: &[Candidate],
    firsts: &[Run],
    seconds: &[Run],
    cap: Option<u64>,
    turns: &mut BinaryHeap<Reverse<Turn>, Global>,
    desk: &mut Desk,
) -> Result<(), Memory>
    requires firsts { AreRunsOf xs.now xs.now firsts.now }
    requires seconds { AreRunsOf ys.now ys.now seconds.now }
    requires turns { AreTurns cap firsts.now seconds.now (heap_items turns.old) }
    requires bounded_first { AreBounded xs.now }
    requires bounded_second { AreBounded ys.now }
    ensures met { OnOk result (IsPartOf (IsMet cap xs.now ys.now) (all_in desk.new)) }
    ensures reached { OnOk result (AreReached desk.new.stairs (proposed_by desk.new.made.items)) }
{
    desk.clear();
    let mut cost = 0;
    'turns: while let Some(next) = turns.pop() {
        let turn = next.0;
        turn_to(turn.cost, &mut cost, desk)?;
        meet_one(xs, ys, turn.first, seconds[turn.second], desk)?;
        put(turns, turn.first, seconds, cap, turn.second + 1)?;
    }
    Ok(())
}

/// Proposes the pairs of two lists within the cap, but those that others beat.
pub(crate) fn meet_lists(
    alloc: Global,
    xs: &[Candidate],
    ys: &[Candidate],
    cap: Option<u64>,
    desk: &mut Desk,
) -> Result<(), Memory>
    requires bounded_first { AreBounded xs.now }
    requires bounded_second { AreBounded ys.now }
    ensures { OnOk result (IsPartOf (IsMet cap xs.now ys.now) desk.new.made.items) }
{
    let firsts = runs_of(alloc, xs)?;
    let seconds = runs_of(alloc, ys)?;
    let mut turns = BinaryHeap::new(alloc);
    put_all(&mut turns, &firsts, &seconds, cap)?;
    meet_by_turns(xs, ys, &firsts, &seconds, cap, &mut turns, desk)?;
    desk.settle()?;
    Ok(())
}
