ghost use Rattle.std.specs.Prelude.{◌≡◌, ℕ, None, length, slice_index_or, IfOk};

use std::alloc::Global;
use vg_num::{Memory, Row};

/// At most one repeater for each node, by its number in the problem.
#[derive(Drop)]
pub struct Placement {
    pub cells: Row<Option<u32>>,
}

impl Placement {
    /// A placement without a cell for nets of `n` nodes. Answers `Memory` where there is none.
    pub fn empty(alloc: Global, n: usize) -> Result<Placement, Memory>
        ensures one_each { IfOk result (λ at. length at.cells ≡ n) }
        ensures no_cell { IfOk result (λ at. (v : ℕ) → slice_index_or at.cells v None ≡ None) }
    {
        let cells = vec![in alloc; None; n]?;
        Ok(Placement {
            cells: Row::from_vec(cells),
        })
    }
}
