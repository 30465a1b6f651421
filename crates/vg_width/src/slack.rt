//! The slack of a placement with widths.

ghost use Rattle.std.specs.Prelude.{◌≡◌, ℕ, ◌*◌, ◌^◌, ◌<◌, ◌≤◌, ◌≤ℤ◌, ◌+ℤ◌, ◌-ℤ◌, true, length, slice_index_or, pos, Option, Some, is_some};
ghost use Rattle.std.specs.List.{list_any};
ghost use Rattle.elmore.specs.Legal.{IsPlaced};
ghost use Rattle.elmore.specs.Placed.{IsLeast};
ghost use Rattle.elmore.specs.Placements.{IsPlacement};
ghost use Rattle.elmore.specs.Problems.{IsDriverWithin, IsSmall, sink_of};
ghost use Rattle.vg_width.specs.Nets.{IsWideNet, left_after};
ghost use Rattle.vg_width.specs.Room.{room_of};
ghost use Rattle.wire_widths.specs.Fits.{Fits};
ghost use Rattle.wire_widths.specs.Widths.{IsLawful, IsWideSlack};

use crate::delays::sum_delays;
use crate::loads::sum_loads;
use crate::scratch::WideScratch;
use elmore::{Driver, Placement, Problem, Sink};
use wire_widths::{Width, Widths};

/// What is left of a required time by a signal that starts at `start` and takes `delay`.
fn time_left(required: i128, start: i128, delay: u128) -> i128
    requires required { IsSmall required }
    requires start_low { (pos 0 -ℤ pos (10 ^ 25)) ≤ℤ start }
    requires start_high { start ≤ℤ pos (10 ^ 25) }
    requires delay { delay ≤ 10 ^ 25 }
    ensures { result ≡ required -ℤ (start +ℤ pos delay) }
{
    required - (start + delay as i128)
}

/// The least of what the sinks' required times leave, where the signal starts at `start`.
fn least_slack(sinks: &[Option<Sink>], delays: &[u128], start: i128) -> i128
    requires room { length sinks.now ≤ length delays.now }
    requires some_sink { list_any is_some sinks.now ≡ true }
    requires times { (v : ℕ) (sink : Sink) → sink_of sinks.now v ≡ Some sink → IsSmall sink.required }
    requires delays { (v : ℕ) → v < length sinks.now → slice_index_or delays.now v 0 ≤ 10 ^ 25 }
    requires start_low { (pos 0 -ℤ pos (10 ^ 25)) ≤ℤ start }
    requires start_high { start ≤ℤ pos (10 ^ 25) }
    ensures { IsLeast sinks.now (left_after start delays.now) result }
{
    let mut least = i128::MAX;
    'sinks: for v in 0..sinks.len() {
        if let Some(sink) = sinks[v] {
            least = least.min(time_left(sink.required, start, delays[v]));
        }
    }
    least
}

/// When the signal leaves the driver, which charges this load.
fn departure(driver: Driver, load: u128) -> i128
    requires driver { IsDriverWithin driver }
    requires load { load ≤ 10 ^ 11 }
    ensures is { result ≡ driver.arrival +ℤ driver.k +ℤ pos (driver.r * load) }
    ensures low { (pos 0 -ℤ pos (10 ^ 25)) ≤ℤ result }
    ensures high { result ≤ℤ pos (10 ^ 25) }
{
    driver.arrival + driver.k + (u128::from(driver.r) * load) as i128
}

/// The slack of a placement with widths. It leaves the loads and the delays of the nodes.
fn slack_by(
    p: &Problem,
    widths: &[Width],
    cells: &[Option<u32>],
    chosen: &[u8],
    loads: &mut [u128],
    delays: &mut [u128],
) -> i128
    requires net { IsWideNet p.now widths.now cells.now chosen.now }
    requires loads { length p.now.tree.nodes ≤ length loads.old }
    requires delays { length p.now.tree.nodes ≤ length delays.old }
    ensures { IsWideSlack p.now widths.now cells.now chosen.now result }
{
    sum_loads(p, widths, cells, chosen, loads);
    sum_delays(p, widths, cells, chosen, loads, delays);
    least_slack(p.sinks.as_slice(), delays, departure(p.driver, loads[0]))
}

/// The slack (zs) of a placement whose cells stand only at places and whose wires have these widths: the least, over
/// the sinks, of the time at which the signal has to be there less the time at which it is there by Elmore's delay.
///
/// For each node `chosen` has the number of the width of the wire above it: 0 for the root, and for a node that is not
/// live. The net and the widths are such as `fits` tells. It walks the whole net, and the scratch has room for its
/// nodes.
///
/// J. Lillis, C.-K. Cheng, T.-T. Y. Lin, "Optimal wire sizing and buffer insertion for low power and a generalized
/// delay model", IEEE Journal of Solid-State Circuits 31, 1996.
pub fn width_slack(
    p: &Problem,
    at: &Placement,
    chosen: &[u8],
    widths: &Widths,
    scratch: &mut WideScratch,
) -> i128
    requires fits { Fits p.now widths.now.rows }
    requires placement { IsPlacement p.now at.now.cells }
    requires placed { IsPlaced p.now at.now.cells }
    requires lawful { IsLawful p.now widths.now.rows chosen.now }
    requires room { length p.now.tree.nodes ≤ room_of scratch.old }
    ensures slack { IsWideSlack p.now widths.now.rows at.now.cells chosen.now result }
    ensures room { room_of scratch.new ≡ room_of scratch.old }
{
    let widths = widths.rows.as_slice();
    let cells = at.cells.as_slice();
    slack_by(
        p,
        widths,
        cells,
        chosen,
        &mut scratch.loads,
        &mut scratch.delays,
    )
}
