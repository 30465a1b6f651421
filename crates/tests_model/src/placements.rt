//! What a placement costs, and where it is illegal first.

ghost use Rattle.std.specs.Prelude.{◌≡◌, ℕ, true, None, Some, ◌<◌, slice_index_or, IfOk};
ghost use Rattle.elmore.specs.Placed.{IsPlacementOf};

use crate::problems::{BUF, DRIVER, INV, LEAF, ROOT, TRUNK, worked_problem};
use elmore::{Placement, Problem, Scratch, Sink, cost, first_illegal};
use std::alloc::Global;
use std::test::Fail;
use vg_num::Row;

const SINK: Sink = Sink {
    required: 400_000_000_000,
    inverted: false,
};

/// The cells of the three nodes, the first illegal node, and the cost.
static PLACEMENTS: [(&[Option<u32>], Option<u32>, u64); 5] = [
    (&[None, None, None], None, 0),
    (&[None, Some(0), None], None, 2_000),
    (&[None, Some(1), None], None, 1_000),
    (&[None, Some(1), Some(0)], Some(2), 3_000),
    (&[Some(0), Some(0), Some(0)], Some(0), 6_000),
];

fn are_named(reps: usize, cells: &[Option<u32>]) -> bool
    ensures { result ≡ true → (v b : ℕ) → slice_index_or cells.now v None ≡ Some b → b < reps }
{
    'cells: for cell in cells {
        if let Some(b) = cell {
            if *b as usize >= reps {
                return false;
            }
        }
    }
    true
}

/// The placement of these cells in a net of `n` nodes with so many repeaters to choose from.
fn placement(alloc: Global, n: usize, reps: usize, cells: &[Option<u32>]) -> Result<Placement, Fail>
    ensures { IfOk result (λ at. IsPlacementOf n reps at.cells) }
{
    if cells.len() != n || !are_named(reps, cells) {
        return Err("no placement".into());
    }
    let cells = cells.to_vec(alloc)?;
    Ok(Placement {
        cells: Row::from_vec(cells),
    })
}

fn worked(alloc: Global) -> Result<Problem, Fail> {
    let nodes = [ROOT, TRUNK, LEAF];
    let sinks = [None, None, Some(SINK)];
    let free = [false, true, false];
    let made = worked_problem(alloc, &nodes, DRIVER, &sinks, &free, &[BUF, INV])?;
    let problem = made.ok_or("beyond the limits")?;
    Ok(problem)
}

/// The first illegal node, and the cost.
fn judged(alloc: Global, cells: &[Option<u32>]) -> Result<(Option<u32>, u64), Fail> {
    let problem = worked(alloc)?;
    let n = problem.tree.nodes.len();
    let at = placement(alloc, n, problem.reps.len(), cells)?;
    let mut scratch = Scratch::new(alloc, n)?;
    Ok((
        first_illegal(&problem, &at, &mut scratch),
        cost(&problem, &at),
    ))
}

#[test]
fn judges_placements(rt: HostRuntime) -> Result<(), Fail> {
    for (cells, illegal, costs) in &PLACEMENTS {
        assert_eq!(rt; judged(rt.alloc(), cells)?, (*illegal, *costs));
    }
    Ok(())
}
