ghost use Rattle.std.specs.Prelude.{◌≡◌};
ghost use Rattle.design_read.specs.declared.design_fault.DesignFault.TheVariants.{Memory as out_of_memory};

use lib_cells::LibFault;
use spef_file::SpefFault;
use ver_syntax::VerFault;
use vg_cons::ConsFault;
use vg_num::Memory;

/// Why four files are no design. The faults of the files are never out of memory.
#[derive(Debug, Drop)]
pub enum DesignFault {
    /// The parasitics have this fault.
    Spef(SpefFault),
    /// The library has this fault, and the parasitics have none.
    Lib(LibFault),
    /// The netlist has this fault, and the files before it have none.
    Ver(VerFault),
    /// The constraints have this fault, and the files before them have none.
    Cons(ConsFault),
    /// Out of memory.
    Memory,
}

impl From<Memory> for DesignFault {
    ghost from_gives = { λ _ fault. fault ≡ out_of_memory };

    fn from(_: Memory) -> Self {
        DesignFault::Memory
    }
}
