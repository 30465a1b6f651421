//! Room to work in.

ghost use Rattle.std.specs.Prelude.{◌≡◌, length, IfOk};

use spef_net::ParConn;
use spef_write::Printed;
use std::alloc::Global;
use vg_num::Memory;

/// Room to work in, for names and places.
#[derive(Drop)]
pub(crate) struct Scratch {
    pub name: Vec<u8>,
    pub note: Vec<u8>,
    /// For each node of the tree its number in the net of a stage.
    pub places: Vec<u32>,
}

/// Room for the parts of a stage. One serves all stages of a net; what stands in it before a call does not matter.
#[derive(Drop)]
pub struct Room {
    pub(crate) scratch: Scratch,
    pub(crate) nodes: Printed,
    pub(crate) conns: Vec<ParConn>,
    pub(crate) cap_nodes: Vec<u32>,
    pub(crate) ress: Vec<(u32, u32, u64)>,
    pub(crate) text: Vec<u8>,
}

impl Room {
    /// Room for nets of so many nodes. Answers `Memory` where there is no room.
    pub fn new(alloc: Global, nodes: usize) -> Result<Room, Memory>
        ensures { IfOk result (λ room. length room.scratch.places.items ≡ nodes) }
    {
        let places = vec![in alloc; 0; nodes]?;
        let scratch = Scratch {
            name: Vec::new(alloc),
            note: Vec::new(alloc),
            places,
        };
        Ok(Room {
            scratch,
            nodes: Printed::new(alloc),
            conns: Vec::new(alloc),
            cap_nodes: Vec::new(alloc),
            ress: Vec::new(alloc),
            text: Vec::new(alloc),
        })
    }
}
