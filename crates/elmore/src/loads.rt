//! Loads of a placement, by one pass from the last node to the root.

ghost use Rattle.std.specs.Prelude.{◌≡◌, ℕ, ◌^◌, ◌<◌, ◌≤◌, length, slice_index_or, pos, Option, Some};
ghost use Rattle.elmore.specs.Cells.{rep_of};
ghost use Rattle.elmore.specs.Stage.{seen};
ghost use Rattle.elmore.specs.Placed.{IsPlacementOf, placed_load};
ghost use Rattle.elmore.specs.Steps.{placed_capacitance};
ghost use Rattle.elmore.specs.Legal.{IsPlaced};
ghost use Rattle.elmore.specs.Placements.{IsPlacement, load_of as load_at};
ghost use Rattle.elmore.specs.Trees.{IsTree};
ghost use Rattle.elmore.specs.Room.{room_of};

use crate::placement::Placement;
use crate::problem::Problem;
use crate::rep::Rep;
use crate::scratch::Scratch;
use crate::sums::{add_to, fill_capacitances, sum_at};
use crate::tree::Node;

/// What is seen of a node from above: the input of its cell, or without one its load.
pub(crate) fn seen_above(cell: Option<u32>, reps: &[Rep], load: u128) -> u128
    requires { (b : ℕ) → cell ≡ Some b → b < length reps.now }
    ensures { result ≡ seen (rep_of reps.now cell) load }
{
    match cell {
        Some(b) => u128::from(reps[b as usize].cin),
        None => load,
    }
}

/// Each node's load: from the last node on, what is seen of each adds to its parent's.
pub(crate) fn sum_loads(nodes: &[Node], cells: &[Option<u32>], reps: &[Rep], sums: &mut [i128])
    requires tree { IsTree nodes.now }
    requires placement { IsPlacementOf (length nodes.now) (length reps.now) cells.now }
    requires sum { placed_capacitance nodes.now reps.now cells.now ≤ 2 ^ 100 }
    requires room { length nodes.now ≤ length sums.old }
    ensures { (v : ℕ) → v < length nodes.now
        → slice_index_or sums.new v (pos 0) ≡ pos (placed_load nodes.now reps.now cells.now v) }
{
    fill_capacitances(nodes, sums);
    'up: for v in (1..nodes.len()).rev() {
        let seen = seen_above(cells[v], reps, sum_at(sums, v));
        add_to(sums, nodes[v].parent as usize, seen);
    }
}

/// The load of a node under a placement. It leaves the loads of all nodes.
fn load_by(p: &Problem, cells: &[Option<u32>], node: u32, sums: &mut [i128]) -> u128
    requires placement { IsPlacement p.now cells.now }
    requires node { node < length p.now.tree.nodes }
    requires room { length p.now.tree.nodes ≤ length sums.old }
    ensures { result ≡ load_at p.now cells.now node }
{
    sum_loads(p.tree.nodes.as_slice(), cells, p.reps.as_slice(), sums);
    sum_at(sums, node as usize)
}

/// The load (aF) of a node under a placement whose cells stand only at places: the capacitances of the wire from it
/// down to the next cells, and the input capacitances of these. It is what a cell at the node, or the driver at the
/// root, has to charge. It walks the whole net, and the scratch has room for its nodes.
pub fn load_of(p: &Problem, at: &Placement, node: u32, scratch: &mut Scratch) -> u128
    requires placement { IsPlacement p.now at.now.cells }
    requires placed { IsPlaced p.now at.now.cells }
    requires node { node < length p.now.tree.nodes }
    requires room { length p.now.tree.nodes ≤ room_of scratch.old }
    ensures load { result ≡ load_at p.now at.now.cells node }
    ensures room { room_of scratch.new ≡ room_of scratch.old }
{
    load_by(p, at.cells.as_slice(), node, &mut scratch.delays)
}
