ghost use Rattle.std.specs.Prelude.{◌≡◌};
ghost use Rattle.rc_tree.specs.declared.fault.TreeFault.TheVariants.{Memory as out_of_memory};

use thiserror::Error;
use vg_num::Memory;

/// Why a net is no tree: the first of these, in this order.
#[derive(Clone, Copy, Debug, PartialEq, Eq, Error)]
pub enum TreeFault {
    /// No chain of resistors joins this node to the root. It is the node of the least number that floats.
    #[error("node {0} floats")]
    Floating(u32),
    /// No node floats, and the resistors are not one fewer than the nodes: some of them form a loop.
    #[error("a loop of resistors")]
    Loop,
    /// Out of memory. Any call that allocates may answer it.
    #[error("out of memory")]
    Memory,
}

impl From<Memory> for TreeFault {
    ghost from_gives = { λ _ fault. fault ≡ out_of_memory };

    fn from(_: Memory) -> Self {
        TreeFault::Memory
    }
}
