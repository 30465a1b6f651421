//! The repeaters of a problem, and room to choose among them.

ghost use Rattle.std.specs.Prelude.{IfOk};
ghost use Rattle.cand_turns.specs.Tooled.{AreToolsOf};

use elmore::Problem;
use std::alloc::Global;
use vg_convex::{Kept, Made, Shelf, Work};
use vg_num::Memory;

/// The repeaters of a problem, and room to find for each the candidate of each class that it drives, and to choose the
/// width of a wire. One serves all nodes.
#[derive(Drop)]
pub struct Tools {
    pub(crate) shelf: Shelf,
    pub(crate) even: Work,
    pub(crate) odd: Work,
    pub(crate) kept: Kept,
    pub(crate) chosen: Vec<Made>,
}

impl Tools {
    /// The tools of a problem. Answers `Memory` where there is no room for their shelf.
    pub fn new(alloc: Global, p: &Problem) -> Result<Tools, Memory>
        ensures { IfOk result (AreToolsOf p.now) }
    {
        let shelf = Shelf::new(alloc, p.reps.as_slice())?;
        Ok(Tools {
            shelf,
            even: Work::new(alloc),
            odd: Work::new(alloc),
            kept: Kept::new(alloc),
            chosen: Vec::new(alloc),
        })
    }
}
