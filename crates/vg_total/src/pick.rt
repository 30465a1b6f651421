//! One point picked of each net's frontier: what they cost together, and the least of their slacks.

ghost use Rattle.std.specs.Prelude.{◌≡◌, ◌<◌, ◌↔◌, IsTrue, length};
ghost use Rattle.std.specs.List.{sum_by};
ghost use Rattle.elmore.specs.Legal.{IsWithin};
ghost use Rattle.elmore.specs.Path.{nodes as numbers};
ghost use Rattle.vg_front.specs.Points.{point_in};
ghost use Rattle.vg_total.specs.Totals.{IsLeastOf};
ghost use Rattle.vg_total.specs.Picks.{picked_by, ArePicks};

use vg_front::Point;

/// A point of the frontier of several nets: the cost of all (thousandths), the least slack (zs), and for each net the
/// number, from 0, of the point that is picked of its frontier.
#[derive(Drop)]
pub struct TotalPoint {
    pub cost: u128,
    pub slack: i128,
    pub picks: Vec<u32>,
}

/// The point that is picked of net `k`.
pub(crate) fn picked<'a>(fronts: &'a [Vec<Point>], picks: &[u32], k: usize) -> &'a Point
    requires net { k < length fronts.now }
    requires picks { ArePicks fronts.now picks.now }
    ensures { point_in result.now ≡ picked_by fronts.now picks.now k }
{
    &fronts[k][picks[k] as usize]
}

/// What the picked points cost together (thousandths).
pub(crate) fn cost_of(fronts: &[Vec<Point>], picks: &[u32]) -> u128
    requires picks { ArePicks fronts.now picks.now }
    ensures { result ≡ sum_by (λ k. (picked_by fronts.now picks.now k).cost) (numbers (length fronts.now)) }
{
    let mut cost = 0;
    'nets: for k in 0..fronts.len() {
        cost += u128::from(picked(fronts, picks, k).cost);
    }
    cost
}

/// The least slack (zs) of the picked points.
pub(crate) fn least_of(fronts: &[Vec<Point>], picks: &[u32]) -> i128
    requires some { 0 < length fronts.now }
    requires picks { ArePicks fronts.now picks.now }
    ensures { IsLeastOf (length fronts.now) (picked_by fronts.now picks.now) result }
{
    let mut least = picked(fronts, picks, 0).slack;
    'nets: for k in 1..fronts.len() {
        let slack = picked(fronts, picks, k).slack;
        if slack < least {
            least = slack;
        }
    }
    least
}

/// Whether a cost (thousandths) is within the cap, if there is one.
pub(crate) fn is_within(cap: Option<u64>, cost: u128) -> bool
    ensures { IsTrue result ↔ IsWithin cap cost }
{
    match cap {
        Some(most) => cost <= u128::from(most),
        None => true,
    }
}
