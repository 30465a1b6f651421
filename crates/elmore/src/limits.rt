//! The limits under which nothing is too large to be computed.

ghost use Rattle.std.specs.Prelude.{◌≡◌, ℕ, ◌↔◌, ◌≤◌, ◌^◌, length, Option, Some, IsTrue};
ghost use Rattle.std.specs.List.{All};
ghost use Rattle.elmore.specs.Trees.{total_resistance};
ghost use Rattle.elmore.specs.Problems.{IsProblemWithin, IsRepWithin, IsDriverWithin, IsSmall, greatest_input, greatest_load, place_count, sink_of};
ghost use Rattle.elmore.specs.Steps.{IsNetWithin};
ghost use Rattle.elmore.specs.declared.parts.Sink.{Sink as SomeSink};

use crate::parts::{Driver, Sink};
use crate::rep::Rep;
use crate::tree::{Node, capacitance_left, is_resistance_within};

const MOST_NODES: usize = 65_536;

const MOST_REPEATERS: usize = 256;

const MOST_CELL_RESISTANCE: u64 = 1_000_000_000;

const MOST_CELL_DELAY: u64 = 1_000_000_000_000_000_000;

const MOST_CELL_COST: u64 = 1_000_000_000_000;

const MOST_TIME: i128 = 100_000_000_000_000_000_000_000;

/// Whether all limits of a problem hold.
pub(crate) fn is_within(
    nodes: &[Node],
    driver: &Driver,
    sinks: &[Option<Sink>],
    places: &[bool],
    reps: &[Rep],
) -> bool
    ensures { IsTrue result ↔ IsProblemWithin nodes.now driver.now sinks.now places.now reps.now }
{
    is_net_within(nodes, places, reps) && are_cells_within(driver, reps) && are_times_within(sinks)
}

fn is_net_within(nodes: &[Node], places: &[bool], reps: &[Rep]) -> bool
    ensures { IsTrue result ↔ IsNetWithin nodes.now places.now reps.now }
{
    nodes.len() <= MOST_NODES && is_resistance_within(nodes) && is_load_within(nodes, places, reps)
}

fn are_cells_within(driver: &Driver, reps: &[Rep]) -> bool
    ensures { IsTrue result
        ↔ ((length reps.now ≤ MOST_REPEATERS) × All IsRepWithin reps.now × IsDriverWithin driver.now) }
{
    reps.len() <= MOST_REPEATERS && are_reps_within(reps) && is_driver_within(driver)
}

fn is_load_within(nodes: &[Node], places: &[bool], reps: &[Rep]) -> bool
    ensures { IsTrue result ↔ (greatest_load nodes.now places.now reps.now ≤ 10 ^ 11) }
{
    match capacitance_left(nodes) {
        Some(left) => u128::from(count_places(places)) * u128::from(most_input(reps)) <= left,
        None => false,
    }
}

fn count_places(places: &[bool]) -> u64
    ensures { result ≡ place_count places.now }
{
    places.iter().filter(|place| **place).count() as u64
}

fn most_input(reps: &[Rep]) -> u64
    ensures { result ≡ greatest_input reps.now }
{
    let mut most = 0;
    'inputs: for rep in reps {
        most = rep.cin.max(most);
    }
    most
}

fn are_reps_within(reps: &[Rep]) -> bool
    ensures { IsTrue result ↔ All IsRepWithin reps.now }
{
    reps.iter().all(is_rep_within)
}

fn is_rep_within(rep: &Rep) -> bool
    ensures { IsTrue result ↔ IsRepWithin rep.now }
{
    let rep = *rep;
    rep.r <= MOST_CELL_RESISTANCE && rep.k <= MOST_CELL_DELAY && rep.cost <= MOST_CELL_COST
}

fn is_driver_within(driver: &Driver) -> bool
    ensures { IsTrue result ↔ IsDriverWithin driver.now }
{
    is_small(driver.k) && driver.r <= MOST_CELL_RESISTANCE && is_small(driver.arrival)
}

fn are_times_within(sinks: &[Option<Sink>]) -> bool
    ensures { IsTrue result ↔ ((v : ℕ) (sink : SomeSink) → sink_of sinks.now v ≡ Some sink → IsSmall sink.required) }
{
    'sinks: for sink in sinks {
        if let Some(sink) = sink {
            if !is_small(sink.required) {
                return false;
            }
        }
    }
    true
}

fn is_small(time: i128) -> bool
    ensures { IsTrue result ↔ IsSmall time }
{
    -MOST_TIME <= time && time <= MOST_TIME
}
