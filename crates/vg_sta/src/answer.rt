//! The timing of a design, or why there is none.

ghost use Rattle.std.specs.Prelude.{◌≡◌};
ghost use Rattle.vg_sta.specs.declared.answer.StaFault.TheVariants.{Memory as out_of_memory};

use spef_wire::Refusal;
use vg_num::{Memory, Row};
use vg_scan::{Name, NodeName};

/// A net of the SPEF file, and the least slack of the paths through it (zs).
#[derive(Drop)]
pub struct StaNet {
    pub net: Name,
    pub slack: i128,
}

/// The slacks of a design.
#[derive(Drop)]
pub struct Sta {
    /// The least slack of all paths (zs).
    pub worst: i128,
    /// The first endpoint of a path with that slack, by the order of the nets in the SPEF file, and then of the sinks in
    /// the net's tree.
    pub end: NodeName,
    /// The nets of the SPEF file, in its order.
    pub nets: Row<StaNet>,
}

/// Why a design has no slacks.
#[derive(Drop)]
pub enum StaFault {
    /// The first net of the SPEF file that is refused, and why: it is refused by itself, or an endpoint has no required
    /// time.
    Net(Name, Refusal),
    /// The first net of the SPEF file that lies on a cycle of nets, or behind one.
    Cycle(Name),
    /// The SPEF file has no net.
    NoPath,
    /// Out of memory.
    Memory,
}

impl From<Memory> for StaFault {
    ghost from_gives = { λ _ fault. fault ≡ out_of_memory };

    fn from(_: Memory) -> Self {
        StaFault::Memory
    }
}
