ghost use Rattle.std.specs.Prelude.{◌≡◌, IfOk, length};

use std::alloc::Global;
use vg_num::Memory;

/// Working room for the loads and the delays of a net, made once for nets of up to so many nodes and used again without
/// allocating.
#[derive(Drop)]
pub struct WideScratch {
    /// The loads of nodes (aF).
    pub(crate) loads: Vec<u128>,
    /// The delays of nodes from the root (zs).
    pub(crate) delays: Vec<u128>,
    ghost same_room: { length loads.items ≡ length delays.items },
}

impl WideScratch {
    ghost use Rattle.vg_width.specs.Room.{room_of};

    /// Room for nets of up to `n` nodes. Answers `Memory` where there is none.
    pub fn new(alloc: Global, n: usize) -> Result<WideScratch, Memory>
        ensures { IfOk result (λ scratch. room_of scratch ≡ n) }
    {
        let loads = vec![in alloc; 0; n]?;
        let delays = vec![in alloc; 0; n]?;
        Ok(WideScratch { loads, delays })
    }
}
