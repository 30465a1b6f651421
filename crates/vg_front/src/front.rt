//! The search for the frontier of cost and slack of a net.

ghost use Rattle.std.specs.Prelude.{IfOk, [], length};
ghost use Rattle.sol_arena.specs.Arenas.{slots_of, made_of};
ghost use Rattle.sol_arena.specs.Reach.{IsRestored};
ghost use Rattle.vg_front.specs.Held.{AreHeld, IsGiven};
ghost use Rattle.vg_front.specs.Parts.{held_in, IsPart, all_held, AreParts};
ghost use Rattle.vg_front.specs.Points.{IsFrontierOf};

use crate::climb::{climb, give_up_all, start};
use crate::part::Part;
use crate::propose::Desk;
use crate::root::{Point, points};
use elmore::Problem;
use sol_arena::Arena;
use std::alloc::Global;
use vg_num::Memory;

/// The points that the part of the root comes to when all other nodes came in. The part is given up.
fn points_at_root(
    alloc: Global,
    arena: &mut Arena,
    p: &Problem,
    cap: Option<u64>,
    part: Part,
) -> Result<Vec<Point>, Memory>
    requires held { AreHeld (slots_of arena.old) (held_in part) }
    requires part { IsPart p.now cap 1 0 (made_of arena.old) part }
    ensures frontier { IfOk result (λ points. IsFrontierOf p.now cap points.items) }
    ensures given { IsGiven (slots_of arena.old) (held_in part) (slots_of arena.new) [] }
{
    let Part::Live(branch) = part else {
        unreachable!()
    };
    let found = points(alloc, arena, p, cap, &branch.even);
    branch.give_up(arena);
    found
}

/// The points that the parts of all nodes come to. The parts are given up.
fn points_of_parts(
    alloc: Global,
    arena: &mut Arena,
    p: &Problem,
    parts: &mut Vec<Part>,
    cap: Option<u64>,
    desk: &mut Desk,
) -> Result<Vec<Point>, Memory>
    requires held { AreHeld (slots_of arena.old) (all_held parts.old.items) }
    requires parts { AreParts p.now cap (length p.now.tree.nodes) (made_of arena.old) parts.old.items }
    ensures frontier { IfOk result (λ points. IsFrontierOf p.now cap points.items) }
    ensures given { IsGiven (slots_of arena.old) (all_held parts.old.items) (slots_of arena.new) [] }
{
    if let Err(memory) = climb(alloc, arena, p, parts, cap, desk) {
        give_up_all(parts, arena);
        return Err(memory);
    }
    let Some(root) = parts.pop() else {
        unreachable!()
    };
    points_at_root(alloc, arena, p, cap, root)
}

/// The frontier of cost and slack of the good placements of a problem within a cap of the cost (thousandths), if there
/// is one (Lillis, Cheng and Lin 1996): by rising cost, each point with a placement. It is empty where no good
/// placement is within the cap. The solutions of the search stand in the lent arena, which afterwards is as before.
/// Answers `Memory` when out of memory.
pub fn frontier_in(
    alloc: Global,
    p: &Problem,
    cap: Option<u64>,
    arena: &mut Arena,
) -> Result<Vec<Point>, Memory>
    ensures frontier { IfOk result (λ points. IsFrontierOf p.now cap points.items) }
    ensures restored { IsRestored (slots_of arena.old) (slots_of arena.new) }
{
    let mut parts = Vec::new(alloc);
    let mut desk = Desk::new(alloc);
    start(alloc, arena, p, &mut parts)?;
    points_of_parts(alloc, arena, p, &mut parts, cap, &mut desk)
}

/// The frontier of cost and slack of the good placements of a problem within a cap of the cost (thousandths), if there
/// is one. Answers `Memory` when out of memory.
pub fn frontier(alloc: Global, p: &Problem, cap: Option<u64>) -> Result<Vec<Point>, Memory>
    ensures frontier { IfOk result (λ points. IsFrontierOf p.now cap points.items) }
{
    let mut arena = Arena::new(alloc);
    frontier_in(alloc, p, cap, &mut arena)
}
