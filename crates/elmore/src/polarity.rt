//! Polarity of the sinks under a placement.

ghost use Rattle.std.specs.Prelude.{◌≡◌, ℕ, ◌<◌, ◌≤◌, false, length, slice_index_or, Option, Some, None, MatchBool, MatchOption};
ghost use Rattle.elmore.specs.Trees.{IsTree};
ghost use Rattle.elmore.specs.Cells.{rep_of, is_inverter};
ghost use Rattle.elmore.specs.Placed.{IsPlacementOf, placed_inverted, IsUnwanted, IsWanted, IsFirstUnwanted, AreWanted};
ghost use Rattle.elmore.specs.Steps.{marked};
ghost use Rattle.elmore.specs.Placements.{IsPlacement, HasPolarity, IsFirstWrong};
ghost use Rattle.elmore.specs.Room.{room_of};

use crate::parts::Sink;
use crate::placement::Placement;
use crate::problem::Problem;
use crate::rep::Rep;
use crate::scratch::Scratch;
use crate::tree::Node;

/// Whether a cell, if there is one, inverts.
fn inverts(cell: Option<u32>, reps: &[Rep]) -> bool
    requires { (b : ℕ) → cell ≡ Some b → b < length reps.now }
    ensures { result ≡ is_inverter (rep_of reps.now cell) }
{
    match cell {
        Some(b) => reps[b as usize].inverts,
        None => false,
    }
}

/// Marks the nodes behind which the signal is inverted, their own cells included.
fn mark_inverted(nodes: &[Node], cells: &[Option<u32>], reps: &[Rep], inverted: &mut [bool])
    requires tree { IsTree nodes.now }
    requires placement { IsPlacementOf (length nodes.now) (length reps.now) cells.now }
    requires room { length nodes.now ≤ length inverted.old }
    ensures { (v : ℕ) → v < length nodes.now
        → slice_index_or inverted.new v false ≡ placed_inverted nodes.now reps.now cells.now v }
{
    inverted[0] = inverts(cells[0], reps);
    'down: for v in 1..nodes.len() {
        let before = inverted[nodes[v].parent as usize];
        inverted[v] = before != inverts(cells[v], reps);
    }
}

/// Whether there is a sink that is to be inverted where it is not, or the other way round.
fn is_wrong(sink: Option<Sink>, inverted: bool) -> bool
    ensures { MatchBool result (IsUnwanted sink inverted) (IsWanted sink inverted) }
{
    match sink {
        Some(sink) => sink.inverted != inverted,
        None => false,
    }
}

/// The first node whose sink is not inverted as it is to be.
fn first_unlike(sinks: &[Option<Sink>], inverted: &[bool]) -> Option<u32>
    requires nodes { length sinks.now ≤ 65536 }
    requires room { length sinks.now ≤ length inverted.now }
    ensures { MatchOption result (AreWanted sinks.now (marked inverted.now)) (λ w.
        IsFirstUnwanted sinks.now (marked inverted.now) w) }
{
    'sinks: for w in 0..sinks.len() {
        if is_wrong(sinks[w], inverted[w]) {
            return Some(w as u32);
        }
    }
    None
}

fn first_wrong_by(p: &Problem, cells: &[Option<u32>], inverted: &mut [bool]) -> Option<u32>
    requires placement { IsPlacement p.now cells.now }
    requires room { length p.now.tree.nodes ≤ length inverted.old }
    ensures { MatchOption result ((w : ℕ) → HasPolarity p.now cells.now w) (λ w. IsFirstWrong p.now cells.now w) }
{
    mark_inverted(p.tree.nodes.as_slice(), cells, p.reps.as_slice(), inverted);
    first_unlike(p.sinks.as_slice(), inverted)
}

/// The first sink, in the order of the nodes, whose polarity under the placement is not the one that is wanted: it is
/// inverted by an odd number of inverters on its path from the root, the root's own included. It walks the whole net,
/// and the scratch has room for its nodes.
pub fn first_wrong(p: &Problem, at: &Placement, scratch: &mut Scratch) -> Option<u32>
    requires placement { IsPlacement p.now at.now.cells }
    requires room { length p.now.tree.nodes ≤ room_of scratch.old }
    ensures wrong { MatchOption result ((w : ℕ) → HasPolarity p.now at.now.cells w) (λ w.
        IsFirstWrong p.now at.now.cells w) }
    ensures room { room_of scratch.new ≡ room_of scratch.old }
{
    first_wrong_by(p, at.cells.as_slice(), &mut scratch.inverted)
}
