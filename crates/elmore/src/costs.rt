ghost use Rattle.std.specs.Prelude.{◌≡◌, ◌<◌, ◌≤◌, ◌^◌, length, IfSome};
ghost use Rattle.std.specs.List.{All};
ghost use Rattle.elmore.specs.Cells.{rep_of, cell_cost};
ghost use Rattle.elmore.specs.Placements.{IsPlacement, cost_of};

use crate::placement::Placement;
use crate::problem::Problem;
use crate::rep::Rep;

/// The cost (thousandths) of all cells of a placement together.
pub fn cost(p: &Problem, at: &Placement) -> u64
    requires { IsPlacement p.now at.now.cells }
    ensures { result ≡ cost_of p.now at.now.cells }
{
    let reps = p.reps.as_slice();
    let mut sum = 0;
    'cells: for cell in at.cells.as_slice() {
        sum += cost_of_cell(reps, *cell);
    }
    sum
}

fn cost_of_cell(reps: &[Rep], cell: Option<u32>) -> u64
    requires { IfSome cell (λ b. b < length reps.now) }
    ensures { result ≡ cell_cost (rep_of reps.now cell) }
{
    match cell {
        Some(b) => reps[b as usize].cost,
        None => 0,
    }
}
