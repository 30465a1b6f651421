//! A generated design.
ghost use Rattle.std.specs.Prelude.{◌≤◌, IfOk};
ghost use Rattle.vg_gen.specs.Designs.{IsDesign};

use crate::constraints::constraints;
use crate::library::library;
use crate::net::segments;
use crate::netlist::netlist;
use crate::spef::spef;
use std::alloc::Global;
use vg_num::Memory;

/// The four texts of a generated design.
#[derive(Drop)]
pub struct Generated {
    /// The parasitics, as SPEF.
    pub spef: Vec<u8>,
    /// The library, as Liberty.
    pub lib: Vec<u8>,
    /// The netlist, as Verilog.
    pub verilog: Vec<u8>,
    /// The constraints.
    pub cons: Vec<u8>,
}

/// The design of this size. Its one net has as many resistors in a line from the driver to a sink, of 100 to 199 ohms,
/// behind each of them a capacitor of 10 to 19 fF to the ground, and from every hundredth node a branch to a sink of
/// its own. The sinks of the branches 1, 3, 5 and so on want the inverted signal. The values are random numbers that
/// begin with the size, so one size always gives the same texts.
///
/// Answers `Memory` where there is no room.
pub fn generate(alloc: Global, size: u32) -> Result<Generated, Memory>
    requires least { 1 ≤ size }
    requires most { size ≤ 4000 }
    ensures { IfOk result (IsDesign size) }
{
    let line = segments(alloc, size)?;
    let branches = size / 100;
    Ok(Generated {
        spef: spef(alloc, size, &line)?,
        lib: Vec::from_slice(alloc, library())?,
        verilog: netlist(alloc, branches)?,
        cons: constraints(alloc, branches)?,
    })
}
