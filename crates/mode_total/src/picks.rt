//! What a point of the frontier of all nets takes of each.

ghost use Rattle.std.specs.Prelude.{◌≡◌, ◌<◌, length, slice_index_or};
ghost use Rattle.mode_total.specs.Picked.{AreInside, NO_PICK, picks_in};

use vg_front::Point;

/// The point that is picked of the frontier of a net, by the net's number among the accepted ones.
pub fn picked<'a>(fronts: &'a [Vec<Point>], picks: &[u32], at: usize) -> &'a Point
    requires inside { AreInside fronts.now picks.now }
    requires at { at < length fronts.now }
    ensures { result.now ≡ slice_index_or (picks_in fronts.now picks.now) at NO_PICK }
{
    &fronts[at][picks[at] as usize]
}
