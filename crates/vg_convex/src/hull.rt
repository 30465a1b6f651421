//! The upper hull of the first candidates of a list, on a stack of points.

ghost use Rattle.std.specs.Prelude.{◌≡◌, ℕ, suc, ◌+◌, ◌*◌, ◌^◌, ◌<◌, ◌≤◌, pos, ◌*ℤ◌, ◌<ℤ◌, ◌≤ℤ◌, int_lt, length, MatchBool, OnOk};
ghost use Rattle.elmore.specs.Pairs.{IsBelow};
ghost use Rattle.cand_pool.specs.Candidates.{Candidates, IsModest};
ghost use Rattle.vg_convex.specs.Hulls.{value, Bends, Sags, IsGreatest};
ghost use Rattle.vg_convex.specs.Places.{row, told_by, pair_in, IsPointOf, IsHullOf, IsFrontOf};

use crate::work::Point;
use cand_pool::Steps;
use std::sync::ledger::Ledger;
use vg_num::Memory;

/// Whether the first of two products of a time and a load is the lesser.
fn is_product_less(a_q: i128, a_c: u64, b_q: i128, b_c: u64) -> bool
    requires a_late { pos 0 ≤ℤ a_q }
    requires a_early { a_q ≤ℤ pos (2 * 10 ^ 25 + 1) }
    requires a_small { a_c ≤ 10 ^ 11 }
    requires b_late { pos 0 ≤ℤ b_q }
    requires b_early { b_q ≤ℤ pos (2 * 10 ^ 25 + 1) }
    requires b_small { b_c ≤ 10 ^ 11 }
    ensures { result ≡ int_lt (a_q *ℤ pos a_c) (b_q *ℤ pos b_c) }
{
    a_q * i128::from(a_c) < b_q * i128::from(b_c)
}

/// Whether the second of three points, which rise, lies strictly above the line from the first to the third.
fn bends<L: Ledger>(a: Point, b: Point, c: Point, steps: &mut Steps<L>) -> bool
    requires a { IsModest (told_by a) }
    requires b { IsModest (told_by b) }
    requires c { IsModest (told_by c) }
    requires a_b { IsBelow (pair_in a) (pair_in b) }
    requires b_c { IsBelow (pair_in b) (pair_in c) }
    ensures bend { MatchBool result (Bends (pair_in a) (pair_in b) (pair_in c))
        (Sags (pair_in a) (pair_in b) (pair_in c)) }
    ensures step { steps.new ≡ suc steps.old }
{
    steps.tick();
    is_product_less(c.q - b.q, b.c - a.c, b.q - a.q, c.c - b.c)
}

/// Puts a point on the hull of those before it. What then no longer bends comes off (Graham 1972).
pub(crate) fn put_on<L: Ledger>(
    stack: &mut Vec<Point>,
    point: Point,
    steps: &mut Steps<L>,
) -> Result<(), Memory>
    ghost xs: { Candidates }
    requires hull { (n : ℕ) × IsHullOf xs n stack.old.items × IsPointOf xs point n }
    ensures hull { OnOk result ((n : ℕ) → IsHullOf xs n stack.old.items → IsPointOf xs point n
        → IsHullOf xs (n + 1) stack.new.items) }
    ensures cost { steps.new + length stack.new.items ≤ steps.old + length stack.old.items + 2 }
{
    let mut left = stack.len();
    'pops: while left >= 2 {
        if bends(stack[left - 2], stack[left - 1], point, steps) {
            break;
        }
        left -= 1;
    }
    stack.truncate(left);
    stack.push(point)?;
    Ok(())
}

/// What a load loses above a resistance.
fn loss(r: u64, load: u64) -> i128
    requires { load ≤ 10 ^ 11 }
    ensures { result ≡ pos (r * load) }
{
    i128::from(r) * i128::from(load)
}

/// Whether the first of two points, which rise, is worth less above a resistance: the further load of the second loses
/// less than its further time.
pub(crate) fn is_less<L: Ledger>(a: Point, b: Point, r: u64, steps: &mut Steps<L>) -> bool
    requires a { IsModest (told_by a) }
    requires b { IsModest (told_by b) }
    requires a_b { IsBelow (pair_in a) (pair_in b) }
    ensures order { MatchBool result (value r (pair_in a) <ℤ value r (pair_in b)) (value r (pair_in b)
        ≤ℤ value r (pair_in a)) }
    ensures step { steps.new ≡ suc steps.old }
{
    steps.tick();
    loss(r, b.c - a.c) < b.q - a.q
}

/// The point of a hull that is worth the most above a resistance, found by halves: along a hull the worth rises and
/// then falls.
pub(crate) fn greatest_on<L: Ledger>(stack: &[Point], r: u64, steps: &mut Steps<L>) -> Point
    ghost xs: { Candidates }
    requires hull { (n : ℕ) × IsHullOf xs n stack.now }
    requires some { 0 < length stack.now }
    ensures greatest { (n : ℕ) → IsHullOf xs n stack.now → (i : ℕ) × IsPointOf xs result i × IsGreatest (row xs) n r i }
    ensures cost { (d : ℕ) → length stack.now ≤ 2 ^ d → steps.new ≤ steps.old + d }
{
    let mut low = 0;
    let mut high = stack.len() - 1;
    'search: while low < high {
        let middle = low + (high - low) / 2;
        if is_less(stack[middle], stack[middle + 1], r, steps) {
            low = middle + 1;
        } else {
            high = middle;
        }
    }
    stack[low]
}
