//! Lists of candidates.

ghost use Rattle.std.specs.Prelude.{◌≡◌, ◌+◌, ◌≤◌, ◌^◌, [], ◌++◌, map, length, MatchOption};
ghost use Rattle.std.specs.Vec.{vec_capacity};
ghost use Rattle.sol_arena.specs.Arenas.{slots_of, made_of};
ghost use Rattle.vg_front.specs.Offers.{IsNext};
ghost use Rattle.vg_front.specs.Held.{AreHeld, IsGiven, MeanTheSame, IsPruned, IsBlend, IsBounded, AreBounded, carried_offer, carried_by};

use crate::offer::{Candidate, Offer, comes_first};
use crate::stairs::Stairs;
use sol_arena::Arena;

/// Gives up all candidates of a list, with the uses of their solutions.
pub(crate) fn give_up(list: Vec<Candidate>, arena: &mut Arena)
    requires { AreHeld (slots_of arena.old) list.items }
    ensures { IsGiven (slots_of arena.old) list.items (slots_of arena.new) [] }
{
    let mut list = list;
    'candidates: while let Some(x) = list.pop() {
        arena.release(x.sol);
    }
}

/// Gives up the candidates of a list that others of it beat, with the uses of their solutions.
pub(crate) fn prune(list: &mut Vec<Candidate>, arena: &mut Arena, stairs: &mut Stairs)
    requires held { AreHeld (slots_of arena.old) list.old.items }
    ensures pruned { IsPruned list.old.items list.new.items }
    ensures uses { IsGiven (slots_of arena.old) list.old.items (slots_of arena.new) list.new.items }
    ensures same { MeanTheSame (made_of arena.old) (made_of arena.new) list.new.items }
{
    stairs.clear();
    let mut kept = 0;
    'candidates: for at in 0..list.len() {
        let x = list[at];
        if stairs.admits(x.offer) {
            list[kept] = x;
            kept += 1;
        } else {
            arena.release(x.sol);
        }
    }
    list.truncate(kept);
}

/// What a wire of a resistance (mΩ) makes of an offer, with a load (aF) more beside its upper end.
fn carried(r: u64, load: u64, x: Offer) -> Offer
    requires resistance { r ≤ 10 ^ 12 }
    requires load { load ≤ 10 ^ 11 }
    requires bounded { IsBounded x }
    ensures { result ≡ carried_offer r load x }
{
    Offer {
        cost: x.cost,
        q: x.q - i128::from(r) * i128::from(x.c),
        c: x.c + load,
    }
}

/// Charges a wire of a resistance (mΩ) to each candidate, and adds a load (aF) beside its upper end.
pub(crate) fn carry(list: &mut Vec<Candidate>, r: u64, load: u64)
    requires resistance { r ≤ 10 ^ 12 }
    requires load { load ≤ 10 ^ 11 }
    requires bounded { AreBounded list.old.items }
    ensures { list.new.items ≡ map (carried_by r load) list.old.items }
{
    'candidates: for at in 0..list.len() {
        list[at].offer = carried(r, load, list[at].offer);
    }
}

/// The candidate that comes next of two lists, from their numbers `i` and `j` on.
fn next_of(xs: &[Candidate], ys: &[Candidate], i: &mut usize, j: &mut usize) -> Option<Candidate>
    requires i { i.old ≤ length xs.now }
    requires j { j.old ≤ length ys.now }
    ensures { MatchOption result ((i.old ≡ length xs.now) × (j.old ≡ length ys.now)) (λ x.
        IsNext xs.now ys.now i.old j.old i.new j.new x) }
{
    let of_ys = if *i == xs.len() {
        if *j == ys.len() {
            return None;
        }
        true
    } else {
        *j != ys.len() && !comes_first(xs[*i].offer, ys[*j].offer)
    };
    if of_ys {
        *j += 1;
        Some(ys[*j - 1])
    } else {
        *i += 1;
        Some(xs[*i - 1])
    }
}

/// Puts the candidates of two lists into another one, but those that others of them beat, which give up the uses of
/// their solutions. What the other list had before is dropped; it takes no memory.
pub(crate) fn blend(
    xs: &[Candidate],
    ys: &[Candidate],
    arena: &mut Arena,
    stairs: &mut Stairs,
    all: &mut Vec<Candidate>,
)
    requires room { length xs.now + length ys.now ≤ vec_capacity all.old }
    requires held { AreHeld (slots_of arena.old) (xs.now ++ ys.now) }
    ensures blend { IsBlend xs.now ys.now all.new.items }
    ensures given { IsGiven (slots_of arena.old) (xs.now ++ ys.now) (slots_of arena.new) all.new.items }
    ensures same { MeanTheSame (made_of arena.old) (made_of arena.new) all.new.items }
{
    all.clear();
    stairs.clear();
    let (mut i, mut j) = (0, 0);
    'turns: while let Some(x) = next_of(xs, ys, &mut i, &mut j) {
        if stairs.admits(x.offer) {
            let Ok(()) = all.push(x) else { unreachable!() };
        } else {
            arena.release(x.sol);
        }
    }
}
