//! The upper hull of a rising list: of which pair a repeater makes the greatest, whatever its resistance is.

ghost use Rattle.std.specs.Prelude.{◌≡◌, ℕ, ◌+◌, ◌^◌, ◌<◌, ◌≤◌, [], ◌∷◌, ◌++◌, length, pos, ◌-ℤ◌, ◌≤ℤ◌, ◌<ℤ◌, IfOk, MatchBool, OnOk, IsTrue, ◌↔◌};
ghost use Rattle.std.specs.List.{All, AllPairs};
ghost use Rattle.elmore.specs.Legal.{IsWithin};
ghost use Rattle.elmore.specs.Pairs.{IsBelow};
ghost use Rattle.elmore.specs.Problems.{IsRepWithin};
ghost use Rattle.cand_pairs.specs.Merging.{IsGreatestOf, IsModest};
ghost use Rattle.vg_check.specs.Hulls.{AreAllWithin, AreWithin, IsHull, IsLast, IsPlace, IsReady, pair_at, point_at, value};

use cand_pairs::greatest;
use elmore::{Pair, Rep};
use std::alloc::Global;
use vg_num::Memory;

/// The greatest resistance (mΩ) of a repeater.
const MOST: u64 = 1_000_000_000;

/// A pair of a list, by its number, and the last resistance (mΩ) above which it is worth more than the point before it:
/// the greatest of a repeater at the first point.
#[derive(Clone, Copy)]
pub(crate) struct Point {
    pub(crate) at: usize,
    pub(crate) last: u64,
}

/// The upper hull of the pairs of a list that come before one of them. One serves all lists.
#[derive(Drop)]
pub(crate) struct Hull {
    pub(crate) points: Vec<Point>,
    pub(crate) next: usize,
}

/// Whether a load is within a limit, if there is one.
fn is_within(limit: Option<u64>, load: u64) -> bool
    ensures { IsTrue result ↔ IsWithin limit load }
{
    match limit {
        Some(most) => load <= most,
        None => true,
    }
}

/// What a pair is worth above a resistance (mΩ): its time (zs) there.
fn value(pair: Pair, r: u64) -> i128
    requires pair { IsModest pair }
    requires r { r ≤ 10 ^ 9 }
    ensures { result ≡ value r pair }
{
    pair.q - i128::from(r) * i128::from(pair.c)
}

/// Whether the first of two pairs is worth less above a resistance (mΩ).
fn is_less(a: Pair, b: Pair, r: u64) -> bool
    requires a { IsModest a }
    requires b { IsModest b }
    requires r { r ≤ 10 ^ 9 }
    ensures { MatchBool result (value r a <ℤ value r b) (value r b ≤ℤ value r a) }
{
    value(a, r) < value(b, r)
}

/// How much later the second of two pairs is, which rise (zs), less one.
fn further(a: Pair, b: Pair) -> u128
    requires below { IsBelow a b }
    requires a { IsModest a }
    requires b { IsModest b }
    ensures { pos result ≡ b.q -ℤ a.q -ℤ pos 1 }
{
    (b.q - a.q - 1) as u128
}

/// The last resistance (mΩ) above which the second of two pairs, which rise, is worth more than the first: a greater one
/// takes all its further time away for its further load.
fn last_over(a: Pair, b: Pair) -> u64
    requires below { IsBelow a b }
    requires a { IsModest a }
    requires b { IsModest b }
    ensures { IsLast a b result }
{
    let last = further(a, b) / u128::from(b.c - a.c);
    if last < 1_000_000_000 {
        last as u64
    } else {
        MOST
    }
}

/// How many of the first points of a hull stay under the next pair, less one: the last points go that are worth less
/// than it wherever they are worth more than the point before them.
fn staying(pairs: &[Pair], next: usize, points: &[Point]) -> usize
    requires hull { IsHull pairs.now next points.now }
    requires some { 0 < length points.now }
    requires next { next < length pairs.now }
    requires rising { AllPairs IsBelow pairs.now }
    requires modest { All IsModest pairs.now }
    ensures ready { IsReady pairs.now next points.now result }
    ensures stays { 0 < result → value (point_at points.now result).last (pair_at pairs.now next)
        ≤ℤ value (point_at points.now result).last (pair_at pairs.now (point_at points.now result).at) }
{
    let mut top = points.len() - 1;
    'points: while top > 0 && is_less(pairs[points[top].at], pairs[next], points[top].last) {
        top -= 1;
    }
    top
}

/// The place of the point of a hull that is worth the most above a resistance, found by halves.
fn place_of(points: &[Point], r: u64) -> usize
    requires some { 0 < length points.now }
    requires first { (point_at points.now 0).last ≡ 10 ^ 9 }
    requires r { r ≤ 10 ^ 9 }
    ensures { IsPlace points.now (length points.now) r result }
{
    let mut low = 0;
    let mut high = points.len();
    'search: while high - low > 1 {
        let middle = low + (high - low) / 2;
        if r <= points[middle].last {
            low = middle;
        } else {
            high = middle;
        }
    }
    low
}

/// The greatest pair that a repeater makes of those of a list that are within its limit, which are those of the hull.
/// None where no pair is.
fn greatest_on(rep: &Rep, pairs: &[Pair], hull: &Hull) -> Option<Pair>
    requires rep { IsRepWithin rep.now }
    requires rising { AllPairs IsBelow pairs.now }
    requires modest { All IsModest pairs.now }
    requires hull { IsHull pairs.now hull.now.next hull.now.points.items }
    requires within { AreAllWithin rep.now.limit pairs.now hull.now.next }
    ensures { IsGreatestOf rep.now pairs.now result }
{
    if hull.points.is_empty() {
        return None;
    }
    let place = place_of(&hull.points, rep.r);
    greatest(rep, &[pairs[hull.points[place].at]])
}

impl Hull {
    /// The hull of no pairs.
    pub fn new(alloc: Global) -> Hull {
        Hull {
            points: Vec::new(alloc),
            next: 0,
        }
    }

    /// Begins with the first pair of another list.
    pub fn clear(&mut self)
        ensures points { self.new.points.items ≡ [] }
        ensures next { self.new.next ≡ 0 }
    {
        self.points.clear();
        self.next = 0;
    }

    /// Takes those points off the hull that the next pair of a list makes needless. Answers the last resistance (mΩ)
    /// above which that pair, which may go on then, is worth more than the point before it.
    fn take_off(&mut self, pairs: &[Pair]) -> u64
        requires hull { IsHull pairs.now self.old.next self.old.points.items }
        requires next { self.old.next < length pairs.now }
        requires rising { AllPairs IsBelow pairs.now }
        requires modest { All IsModest pairs.now }
        ensures hull { IsHull pairs.now (self.old.next + 1)
            (self.new.points.items ++ (record { at = self.old.next; last = result }) ∷ []) }
        ensures next { self.new.next ≡ self.old.next }
    {
        if self.points.is_empty() {
            return MOST;
        }
        let top = staying(pairs, self.next, &self.points);
        let last = last_over(pairs[self.points[top].at], pairs[self.next]);
        self.points.truncate(top + 1);
        last
    }

    /// Puts the further pairs of a list on the hull that are within a limit. Answers `Memory` where there is no room.
    pub fn grow(&mut self, pairs: &[Pair], limit: Option<u64>) -> Result<(), Memory>
        requires hull { IsHull pairs.now self.old.next self.old.points.items }
        requires within { AreWithin limit pairs.now self.old.next }
        requires rising { AllPairs IsBelow pairs.now }
        requires modest { All IsModest pairs.now }
        ensures hull { OnOk result (IsHull pairs.now self.new.next self.new.points.items) }
        ensures within { OnOk result (AreAllWithin limit pairs.now self.new.next) }
    {
        'pairs: while self.next < pairs.len() && is_within(limit, pairs[self.next].c) {
            let last = self.take_off(pairs);
            self.points.push(Point {
                at: self.next,
                last,
            })?;
            self.next += 1;
        }
        Ok(())
    }
}

/// The greatest pair that a repeater makes of those of a list that are within its limit: on the hull, which goes on to
/// the limit, or among few of them one by one. None where no pair is. Answers `Memory` where there is no room.
pub(crate) fn find_greatest(
    rep: &Rep,
    pairs: &[Pair],
    few: bool,
    hull: &mut Hull,
) -> Result<Option<Pair>, Memory>
    requires rep { IsRepWithin rep.now }
    requires rising { AllPairs IsBelow pairs.now }
    requires modest { All IsModest pairs.now }
    requires hull { IsHull pairs.now hull.old.next hull.old.points.items }
    requires within { AreWithin rep.now.limit pairs.now hull.old.next }
    ensures found { IfOk result (IsGreatestOf rep.now pairs.now) }
    ensures hull { OnOk result (IsHull pairs.now hull.new.next hull.new.points.items) }
    ensures within { OnOk result (AreWithin rep.now.limit pairs.now hull.new.next) }
{
    if few {
        return Ok(greatest(rep, pairs));
    }
    hull.grow(pairs, rep.limit)?;
    Ok(greatest_on(rep, pairs, hull))
}
