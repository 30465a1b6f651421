//! Delays of a placement with widths, from the root down.

ghost use Rattle.std.specs.Prelude.{◌≡◌, ℕ, ◌+◌, ◌*◌, ◌^◌, ◌<◌, ◌≤◌, length, slice_index_or, Option, Some};
ghost use Rattle.std.specs.List.{All};
ghost use Rattle.elmore.specs.Cells.{rep_of, cell_delay as delay_of};
ghost use Rattle.elmore.specs.Problems.{IsRepWithin};
ghost use Rattle.vg_width.specs.Nets.{IsWideNet};
ghost use Rattle.wire_widths.specs.Widths.{wide_delay_between, wide_load_of};

use crate::loads::{charged, chosen_width};
use elmore::{Problem, Rep};
use wire_widths::Width;

/// The delay of a cell, if there is one, into its load.
fn cell_delay(cell: Option<u32>, reps: &[Rep], load: u128) -> u128
    requires cell { (b : ℕ) → cell ≡ Some b → b < length reps.now }
    requires each { All IsRepWithin reps.now }
    requires load { load ≤ 10 ^ 11 }
    ensures { result ≡ delay_of (rep_of reps.now cell) load }
{
    match cell {
        Some(b) => {
            let rep = reps[b as usize];
            u128::from(rep.k) + u128::from(rep.r) * load
        }
        None => 0,
    }
}

/// The delay behind a resistor: the delay before it, and the resistance times the capacitance that it charges.
fn delay_behind(before: u128, r: u64, load: u128) -> u128
    requires before { before ≤ 10 ^ 25 }
    requires load { load ≤ 10 ^ 11 }
    ensures { result ≡ before + r * load }
{
    before + u128::from(r) * load
}

/// Each node's delay from the root, its own cell included, by the loads of the nodes.
pub(crate) fn sum_delays(
    p: &Problem,
    widths: &[Width],
    cells: &[Option<u32>],
    chosen: &[u8],
    loads: &[u128],
    delays: &mut [u128],
)
    requires net { IsWideNet p.now widths.now cells.now chosen.now }
    requires loads_room { length p.now.tree.nodes ≤ length loads.now }
    requires room { length p.now.tree.nodes ≤ length delays.old }
    requires loads { (v : ℕ) → v < length p.now.tree.nodes
        → slice_index_or loads.now v 0 ≡ wide_load_of p.now widths.now cells.now chosen.now v }
    ensures { (v : ℕ) → v < length p.now.tree.nodes
        → slice_index_or delays.new v 0 ≡ wide_delay_between p.now widths.now cells.now chosen.now 0 v }
{
    let nodes = p.tree.nodes.as_slice();
    let reps = p.reps.as_slice();
    delays[0] = cell_delay(cells[0], reps, loads[0]);
    'down: for v in 1..nodes.len() {
        let node = nodes[v];
        let width = chosen_width(widths, chosen, v);
        let before = delays[node.parent as usize];
        let load = charged(cells[v], reps, loads[v], width.added(node.r));
        let behind_wire = delay_behind(before, width.resistance(node.r), load);
        delays[v] = behind_wire + cell_delay(cells[v], reps, loads[v]);
    }
}
