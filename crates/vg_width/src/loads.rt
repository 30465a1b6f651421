//! Loads of a placement with widths, by one pass from the last node to the root.

ghost use Rattle.std.specs.Prelude.{◌≡◌, ℕ, ◌+◌, ◌^◌, ◌<◌, ◌≤◌, length, slice_index_or, Option, Some};
ghost use Rattle.elmore.specs.Cells.{rep_of};
ghost use Rattle.elmore.specs.Stage.{seen};
ghost use Rattle.elmore.specs.Trees.{capacitance};
ghost use Rattle.vg_width.specs.Nets.{IsWideNet};
ghost use Rattle.wire_widths.specs.Widths.{AreWidths, IsWidth, chosen_at, width_at, wide_load_of};

use elmore::{Node, Problem, Rep};
use wire_widths::Width;

/// The width of the wire above a node.
pub(crate) fn chosen_width(widths: &[Width], chosen: &[u8], v: usize) -> Width
    requires are { AreWidths widths.now }
    requires node { v < length chosen.now }
    requires row { chosen_at chosen.now v < length widths.now }
    ensures width { result ≡ width_at widths.now (chosen_at chosen.now v) }
    ensures is { IsWidth result }
{
    widths[chosen[v] as usize]
}

/// What is charged through a wire: what is seen of the node at its lower end, and what its width adds there.
pub(crate) fn charged(cell: Option<u32>, reps: &[Rep], load: u128, added: u64) -> u128
    requires cell { (b : ℕ) → cell ≡ Some b → b < length reps.now }
    requires load { load ≤ 10 ^ 11 }
    ensures { result ≡ seen (rep_of reps.now cell) load + added }
{
    let seen = match cell {
        Some(b) => u128::from(reps[b as usize].cin),
        None => load,
    };
    seen + u128::from(added)
}

fn fill_capacitances(nodes: &[Node], loads: &mut [u128])
    requires room { length nodes.now ≤ length loads.old }
    ensures { (v : ℕ) → v < length nodes.now → slice_index_or loads.new v 0 ≡ capacitance nodes.now v }
{
    'fill: for v in 0..nodes.len() {
        loads[v] = nodes[v].c;
    }
}

/// Each node's load: from the last node on, what is charged through each wire adds to the load of its upper end.
pub(crate) fn sum_loads(
    p: &Problem,
    widths: &[Width],
    cells: &[Option<u32>],
    chosen: &[u8],
    loads: &mut [u128],
)
    requires net { IsWideNet p.now widths.now cells.now chosen.now }
    requires room { length p.now.tree.nodes ≤ length loads.old }
    ensures { (v : ℕ) → v < length p.now.tree.nodes
        → slice_index_or loads.new v 0 ≡ wide_load_of p.now widths.now cells.now chosen.now v }
{
    let nodes = p.tree.nodes.as_slice();
    let reps = p.reps.as_slice();
    fill_capacitances(nodes, loads);
    'up: for v in (1..nodes.len()).rev() {
        let added = chosen_width(widths, chosen, v).added(nodes[v].r);
        loads[nodes[v].parent as usize] += charged(cells[v], reps, loads[v], added);
    }
}
