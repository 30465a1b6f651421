//! Whether loads stay within the limit of a net with any widths.

ghost use Rattle.std.specs.Prelude.{◌≡◌, ◌↔◌, ◌≤◌, ◌^◌, length, IsTrue};
ghost use Rattle.std.specs.List.{All, filter, sum_by};
ghost use Rattle.elmore.specs.Path.{nodes as node_numbers};
ghost use Rattle.elmore.specs.Problems.{greatest_input, greatest_load as greatest_of, place_count};
ghost use Rattle.elmore.specs.Steps.{marked};
ghost use Rattle.elmore.specs.Trees.{resistance, total_capacitance as capacitance_of, total_resistance};
ghost use Rattle.wire_widths.specs.Fits.{Fits, most_added};
ghost use Rattle.wire_widths.specs.Widths.{IsWidth};

use elmore::{Node, Problem, Rep};
use wire_widths::{Width, Widths};

const MOST_LOAD: u128 = 100_000_000_000;

/// The most that a width adds to a wire of so much resistance.
fn most_added(widths: &[Width], r: u64) -> u64
    requires each { All IsWidth widths.now }
    requires resistance { r ≤ 10 ^ 12 }
    ensures { result ≡ most_added widths.now r }
{
    let mut most = 0;
    'widths: for width in widths {
        most = width.added(r).max(most);
    }
    most
}

/// The most that widths add to the wires to all live nodes together.
fn all_added(nodes: &[Node], live: &[bool], widths: &[Width]) -> u128
    requires each { All IsWidth widths.now }
    requires few { length nodes.now ≤ 65536 }
    requires resistances { total_resistance nodes.now ≤ 10 ^ 12 }
    requires one_each { length live.now ≡ length nodes.now }
    ensures sum { result ≡ sum_by (λ u. most_added widths.now (resistance nodes.now u))
        (filter (marked live.now) (node_numbers (length nodes.now))) }
    ensures small { result ≤ 2 ^ 80 }
{
    let mut sum = 0u128;
    'nodes: for v in 0..nodes.len() {
        if live[v] {
            sum += u128::from(most_added(widths, nodes[v].r));
        }
    }
    sum
}

fn total_capacitance(nodes: &[Node]) -> u128
    requires { capacitance_of nodes.now ≤ 10 ^ 11 }
    ensures { result ≡ capacitance_of nodes.now }
{
    let mut total = 0;
    'capacitors: for node in nodes {
        total += node.c;
    }
    total
}

fn count_places(places: &[bool]) -> u64
    ensures { result ≡ place_count places.now }
{
    places.iter().filter(|place| **place).count() as u64
}

fn most_input(reps: &[Rep]) -> u64
    ensures { result ≡ greatest_input reps.now }
{
    let mut most = 0;
    'inputs: for rep in reps {
        most = rep.cin.max(most);
    }
    most
}

/// All that can be a load without widths.
fn greatest_load(p: &Problem) -> u128
    ensures { result ≡ greatest_of p.now.tree.nodes p.now.places p.now.reps }
{
    let inputs = u128::from(count_places(p.places.as_slice()))
        * u128::from(most_input(p.reps.as_slice()));
    total_capacitance(p.tree.nodes.as_slice()) + inputs
}

/// Whether each load of the net stays within 10^11 aF, whatever repeaters stand at its places and whatever widths its
/// wires have: all capacitors, the greatest input capacitance of the repeaters at each place, and the most that a width
/// adds to the wire of each live node, are at most so much together.
pub fn fits(p: &Problem, widths: &Widths) -> bool
    ensures { IsTrue result ↔ Fits p.now widths.now.rows }
{
    let nodes = p.tree.nodes.as_slice();
    let added = all_added(nodes, p.live.as_slice(), widths.rows.as_slice());
    greatest_load(p) + added <= MOST_LOAD
}
