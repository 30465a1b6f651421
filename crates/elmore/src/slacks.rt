//! Delays of a placement from the root down, and its slack.

ghost use Rattle.std.specs.Prelude.{◌≡◌, ℕ, ◌+◌, ◌*◌, ◌^◌, ◌<◌, ◌≤◌, ◌≤ℤ◌, ◌+ℤ◌, ◌-ℤ◌, true, length, slice_index_or, pos, Option, Some, is_some};
ghost use Rattle.std.specs.List.{All, list_any};
ghost use Rattle.elmore.specs.Cells.{rep_of, cell_delay as delay_of};
ghost use Rattle.elmore.specs.Stage.{seen};
ghost use Rattle.elmore.specs.Placed.{placed_load, placed_delay, IsLeast};
ghost use Rattle.elmore.specs.Steps.{IsPlacedTree};
ghost use Rattle.elmore.specs.Problems.{IsRepWithin, IsDriverWithin, IsSmall, sink_of};
ghost use Rattle.elmore.specs.Legal.{IsPlaced};
ghost use Rattle.elmore.specs.Placements.{IsPlacement, IsSlack};
ghost use Rattle.elmore.specs.Room.{room_of};

use crate::loads::{seen_above, sum_loads};
use crate::parts::{Driver, Sink};
use crate::placement::Placement;
use crate::problem::Problem;
use crate::rep::Rep;
use crate::scratch::Scratch;
use crate::sums::sum_at;
use crate::tree::Node;
use crate::wire::delay_behind;

/// The delay of a cell, if there is one, into its load.
fn cell_delay(cell: Option<u32>, reps: &[Rep], load: u128) -> i128
    requires cell { (b : ℕ) → cell ≡ Some b → b < length reps.now }
    requires each { All IsRepWithin reps.now }
    requires load { load ≤ 10 ^ 11 }
    ensures { result ≡ pos (delay_of (rep_of reps.now cell) load) }
{
    match cell {
        Some(b) => {
            let rep = reps[b as usize];
            delay_behind(i128::from(rep.k), rep.r, load)
        }
        None => 0,
    }
}

/// The delay behind a node: the delay before it, its wire's and its cell's.
fn delay_past(before: i128, r: u64, cell: Option<u32>, reps: &[Rep], load: u128) -> i128
    requires before_low { pos 0 ≤ℤ before }
    requires before_high { before ≤ℤ pos (10 ^ 25) }
    requires resistance { r ≤ 10 ^ 12 }
    requires cell { (b : ℕ) → cell ≡ Some b → b < length reps.now }
    requires each { All IsRepWithin reps.now }
    requires load { load ≤ 10 ^ 11 }
    requires seen { seen (rep_of reps.now cell) load ≤ 10 ^ 11 }
    ensures { result ≡ before +ℤ pos (r * seen (rep_of reps.now cell) load + delay_of (rep_of reps.now cell) load) }
{
    let behind_wire = delay_behind(before, r, seen_above(cell, reps, load));
    behind_wire + cell_delay(cell, reps, load)
}

/// Each node's delay from the root, its own cell included, in place of its load.
fn sum_placed_delays(nodes: &[Node], cells: &[Option<u32>], reps: &[Rep], delays: &mut [i128])
    requires placed { IsPlacedTree nodes.now reps.now cells.now }
    requires room { length nodes.now ≤ length delays.old }
    requires loads { (v : ℕ) → v < length nodes.now
        → slice_index_or delays.old v (pos 0) ≡ pos (placed_load nodes.now reps.now cells.now v) }
    ensures { (v : ℕ) → v < length nodes.now
        → slice_index_or delays.new v (pos 0) ≡ pos (placed_delay nodes.now reps.now cells.now 0 v) }
{
    delays[0] = cell_delay(cells[0], reps, sum_at(delays, 0));
    'down: for v in 1..nodes.len() {
        let before = delays[nodes[v].parent as usize];
        let load = sum_at(delays, v);
        delays[v] = delay_past(before, nodes[v].r, cells[v], reps, load);
    }
}

/// What is left of a required time by a signal that starts at `start` and takes `delay`.
fn time_left(required: i128, start: i128, delay: i128) -> i128
    requires required { IsSmall required }
    requires start_low { (pos 0 -ℤ pos (10 ^ 25)) ≤ℤ start }
    requires start_high { start ≤ℤ pos (10 ^ 25) }
    requires delay_low { pos 0 ≤ℤ delay }
    requires delay_high { delay ≤ℤ pos (10 ^ 25) }
    ensures { result ≡ required -ℤ (start +ℤ delay) }
{
    required - (start + delay)
}

/// The least of what the sinks' required times leave, where the signal starts at `start`.
fn least_slack(sinks: &[Option<Sink>], delays: &[i128], start: i128) -> i128
    requires room { length sinks.now ≤ length delays.now }
    requires some_sink { list_any is_some sinks.now ≡ true }
    requires times { (v : ℕ) (sink : Sink) → sink_of sinks.now v ≡ Some sink → IsSmall sink.required }
    requires delays_low { (v : ℕ) → v < length sinks.now → pos 0 ≤ℤ slice_index_or delays.now v (pos 0) }
    requires delays_high { (v : ℕ) → v < length sinks.now → slice_index_or delays.now v (pos 0) ≤ℤ pos (10 ^ 25) }
    requires start_low { (pos 0 -ℤ pos (10 ^ 25)) ≤ℤ start }
    requires start_high { start ≤ℤ pos (10 ^ 25) }
    ensures { IsLeast sinks.now (λ v sink. sink.required -ℤ (start +ℤ slice_index_or delays.now v (pos 0))) result }
{
    let mut least = i128::MAX;
    'sinks: for v in 0..sinks.len() {
        if let Some(sink) = sinks[v] {
            least = least.min(time_left(sink.required, start, delays[v]));
        }
    }
    least
}

/// When the signal leaves the driver, which charges this load.
fn departure(driver: Driver, load: u128) -> i128
    requires driver { IsDriverWithin driver }
    requires load { load ≤ 10 ^ 11 }
    ensures is { result ≡ driver.arrival +ℤ driver.k +ℤ pos (driver.r * load) }
    ensures low { (pos 0 -ℤ pos (10 ^ 25)) ≤ℤ result }
    ensures high { result ≤ℤ pos (10 ^ 25) }
{
    delay_behind(driver.arrival + driver.k, driver.r, load)
}

/// The slack of a placement whose cells stand only at places. It leaves the delays of its nodes.
#[tactic(auto, using(crate::proofs::ProblemLemmas::placed_tree))]
fn slack_by(p: &Problem, cells: &[Option<u32>], delays: &mut [i128]) -> i128
    requires placement { IsPlacement p.now cells.now }
    requires placed { IsPlaced p.now cells.now }
    requires room { length p.now.tree.nodes ≤ length delays.old }
    ensures { IsSlack p.now cells.now result }
{
    let nodes = p.tree.nodes.as_slice();
    let reps = p.reps.as_slice();
    sum_loads(nodes, cells, reps, delays);
    let start = departure(p.driver, sum_at(delays, 0));
    sum_placed_delays(nodes, cells, reps, delays);
    least_slack(p.sinks.as_slice(), delays, start)
}

/// The slack (zs) of a placement whose cells stand only at places: the least, over the sinks, of the time at which the
/// signal has to be there less the time at which it is there by Elmore's delay. It walks the whole net, and the scratch
/// has room for its nodes.
///
/// L. P. P. P. van Ginneken, "Buffer placement in distributed RC-tree networks for minimal Elmore delay", ISCAS 1990.
pub fn slack(p: &Problem, at: &Placement, scratch: &mut Scratch) -> i128
    requires placement { IsPlacement p.now at.now.cells }
    requires placed { IsPlaced p.now at.now.cells }
    requires room { length p.now.tree.nodes ≤ room_of scratch.old }
    ensures slack { IsSlack p.now at.now.cells result }
    ensures room { room_of scratch.new ≡ room_of scratch.old }
{
    slack_by(p, at.cells.as_slice(), &mut scratch.delays)
}
