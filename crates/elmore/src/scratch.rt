ghost use Rattle.std.specs.Prelude.{◌≡◌, IfOk, length};

use std::alloc::Global;
use vg_num::Memory;

/// Working room for the sums over a net, made once for nets of up to so many nodes and used again without
/// allocating.
#[derive(Drop)]
pub struct Scratch {
    /// The delays of nodes, and before them the capacitances (aF) that are summed up for them.
    pub(crate) delays: Vec<i128>,
    pub(crate) inverted: Vec<bool>,
    ghost same_marks: { length inverted.items ≡ length delays.items },
}

impl Scratch {
    ghost use Rattle.elmore.specs.Room.{room_of, delays_of};

    /// Room for nets of up to `n` nodes. Answers `Memory` where there is none.
    pub fn new(alloc: Global, n: usize) -> Result<Scratch, Memory>
        ensures { IfOk result (λ scratch. room_of scratch ≡ n) }
    {
        let delays = vec![in alloc; 0; n]?;
        let inverted = vec![in alloc; false; n]?;
        Ok(Scratch { delays, inverted })
    }

    /// The delays (zs) that `wire_delays` computed last, one for each node of its tree and then others up to the room.
    /// What else is computed with the same scratch may write over them.
    pub fn delays(&self) -> &[i128]
        ensures { result.now ≡ delays_of self.now }
    {
        &self.delays
    }
}
