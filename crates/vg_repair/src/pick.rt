//! The point of a frontier that a repair takes.

ghost use Rattle.std.specs.Prelude.{◌≡◌, [], MatchOption};
ghost use Rattle.vg_repair.specs.Picks.{IsFirstEnough, NoneEnough, IsPick};

use vg_front::Point;

/// The number of the first point whose slack (zs) is the target or more.
fn first_enough(points: &[Point], target: i128) -> Option<usize>
    ensures { MatchOption result (NoneEnough target points.now) (IsFirstEnough target points.now) }
{
    points.iter().position(|point| point.slack >= target)
}

/// The first point whose slack (zs) is the target or more, or the last one where none has so much.
pub(crate) fn pick(mut points: Vec<Point>, target: i128) -> Option<Point>
    ensures { MatchOption result (points.items ≡ []) (IsPick target points.items) }
{
    match first_enough(&points, target) {
        Some(at) => Some(points.swap_remove(at)),
        None => points.pop(),
    }
}
