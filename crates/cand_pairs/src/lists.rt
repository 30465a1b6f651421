//! Undominated lists of pairs: the steps by which they are worked upward.

ghost use Rattle.std.specs.Prelude.{◌≡◌, ◌+◌, ◌*◌, ◌^◌, ◌<◌, ◌≤◌, ◌≤ℤ◌, ◌<ℤ◌, ◌-ℤ◌, pos, length, IfOk};
ghost use Rattle.std.specs.Bool.{MatchBool};
ghost use Rattle.std.specs.List.{All, AllPairs, Contains};
ghost use Rattle.elmore.specs.Pairs.{IsUndominated, IsBelow};
ghost use Rattle.cand_pairs.specs.Candidates.{wired};
ghost use Rattle.cand_pairs.specs.Merging.{Precedes, Meets, Wires, Raises, meet, IsModest};
ghost use Rattle.elmore.specs.declared.pair.Pair.{Pair as PairSpec};

use elmore::Pair;
use std::alloc::Global;
use vg_num::Memory;

/// Whether the pair has more time than all of a rising list; if not, one of the list has as much.
fn is_later(kept: &[Pair], pair: &Pair) -> bool
    requires { AllPairs IsBelow kept.now }
    ensures { MatchBool result (All (λ y. y.q <ℤ pair.now.q) kept.now) ((y : PairSpec) × Contains kept.now y
        × (pair.now.q ≤ℤ y.q)) }
{
    let len = kept.len();
    if len == 0 {
        return true;
    }
    kept[len - 1].q < pair.q
}

/// The undominated pairs of a list by rising load, of equal loads the later time first. Answers `Memory` where there is
/// no room.
pub fn sweep(alloc: Global, sorted: &[Pair]) -> Result<Vec<Pair>, Memory>
    requires { AllPairs Precedes sorted.now }
    ensures { IfOk result (λ kept. IsUndominated (Contains sorted.now) kept.items) }
{
    let mut kept: Vec<Pair> = Vec::new(alloc);
    'sweep: for pair in sorted {
        if is_later(&kept, pair) {
            kept.push(*pair)?;
        }
    }
    Ok(kept)
}

/// The undominated pairs of two branches together, of all pairs of two rising lists. Answers `Memory` where there is no
/// room.
pub fn meet_all(alloc: Global, xs: &[Pair], ys: &[Pair]) -> Result<Vec<Pair>, Memory>
    requires xs_rise { AllPairs IsBelow xs.now }
    requires ys_rise { AllPairs IsBelow ys.now }
    requires xs_small { All IsModest xs.now }
    requires ys_small { All IsModest ys.now }
    ensures { IfOk result (λ merged. IsUndominated (Meets xs.now ys.now) merged.items) }
{
    let mut merged: Vec<Pair> = Vec::new(alloc);
    let mut i = 0;
    let mut j = 0;
    'merge: while i < xs.len() && j < ys.len() {
        let x = xs[i];
        let y = ys[j];
        merged.push(both(x, y))?;
        if x.q <= y.q {
            i += 1;
        }
        if y.q <= x.q {
            j += 1;
        }
    }
    Ok(merged)
}

fn both(x: Pair, y: Pair) -> Pair
    requires { x.c + y.c < 2 ^ 64 }
    ensures { result ≡ meet x y }
{
    Pair {
        q: if y.q < x.q { y.q } else { x.q },
        c: x.c + y.c,
    }
}

/// What a resistor makes of the pairs of a rising list, undominated. Answers `Memory` where there is no room.
pub fn through_wire(alloc: Global, r: u64, pairs: &[Pair]) -> Result<Vec<Pair>, Memory>
    requires rise { AllPairs IsBelow pairs.now }
    requires limits { All IsModest pairs.now }
    requires r { r ≤ 10 ^ 12 }
    ensures { IfOk result (λ kept. IsUndominated (Wires r pairs.now) kept.items) }
{
    let mut kept: Vec<Pair> = Vec::new(alloc);
    'wire: for pair in pairs {
        let seen = seen_through(r, *pair);
        if is_later(&kept, &seen) {
            kept.push(seen)?;
        }
    }
    Ok(kept)
}

fn seen_through(r: u64, pair: Pair) -> Pair
    requires limits { IsModest pair }
    requires r { r ≤ 10 ^ 12 }
    ensures { result ≡ wired r pair }
{
    Pair {
        q: pair.q - i128::from(r) * i128::from(pair.c),
        c: pair.c,
    }
}

/// Adds so much to the load of each pair of a rising list.
pub fn raise(more: u64, pairs: &mut [Pair])
    requires rise { AllPairs IsBelow pairs.old }
    requires limits { All IsModest pairs.old }
    requires more { more ≤ 10 ^ 18 }
    ensures { IsUndominated (Raises more pairs.old) pairs.new }
{
    'raise: for i in 0..pairs.len() {
        pairs[i].c += more;
    }
}
