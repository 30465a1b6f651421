//! A design from the bytes of its files.

ghost use Rattle.std.specs.Prelude.{◌≡◌, ◌≤◌, ◌^◌, length, IfOk, IfErr};
ghost use Rattle.lib_linear.specs.Libraries.{Denotes as DenotesLibrary};
ghost use Rattle.spef_file.specs.Indexes.{IsIndexOf};
ghost use Rattle.ver_file.specs.Modules.{Denotes as DenotesModule};
ghost use Rattle.design_read.specs.Designs.{AreRowsOf, IsDesignOf, IsFirstFaultOf};
ghost use Rattle.design_read.specs.Steps.{ConsRefused, LibRefused, SpefRefused, VerRefused};

use crate::design_fault::DesignFault;
use lib_cells::LibKind;
use lib_linear::{Library, read_library};
use spef_file::{SpefIndex, SpefKind, SpefText, index};
use std::alloc::Global;
use ver_file::read_module;
use ver_module::Module;
use ver_syntax::VerKind;
use vg_cons::{ConsKind, Constraints, read_constraints};
use vg_design::Design;

/// The index of a SPEF text, or its fault.
fn index_of(alloc: Global, text: &SpefText) -> Result<SpefIndex, DesignFault>
    ensures index { IfOk result (IsIndexOf text.now) }
    ensures fault { IfErr result (SpefRefused text.now) }
{
    match index(alloc, text) {
        Ok(index) => Ok(index),
        Err(fault) => match fault.kind {
            SpefKind::Memory => Err(DesignFault::Memory),
            _ => Err(DesignFault::Spef(fault)),
        },
    }
}

/// The library of a text, or its fault.
fn library_of(alloc: Global, lib: &[u8]) -> Result<Library, DesignFault>
    requires { length lib.now ≤ 2 ^ 28 }
    ensures library { IfOk result (DenotesLibrary lib.now) }
    ensures fault { IfErr result (LibRefused lib.now) }
{
    match read_library(alloc, lib) {
        Ok(library) => Ok(library),
        Err(fault) => match fault.kind {
            LibKind::Memory => Err(DesignFault::Memory),
            _ => Err(DesignFault::Lib(fault)),
        },
    }
}

/// The module of a text, or its fault.
fn module_of(alloc: Global, verilog: &[u8]) -> Result<Module, DesignFault>
    requires { length verilog.now ≤ 2 ^ 28 }
    ensures netlist { IfOk result (DenotesModule verilog.now) }
    ensures fault { IfErr result (VerRefused verilog.now) }
{
    match read_module(alloc, verilog) {
        Ok(netlist) => Ok(netlist),
        Err(fault) => match fault.kind {
            VerKind::Memory => Err(DesignFault::Memory),
            _ => Err(DesignFault::Ver(fault)),
        },
    }
}

/// The constraints of a text, or their fault.
fn constraints_of(alloc: Global, cons: &[u8]) -> Result<Constraints, DesignFault>
    requires { length cons.now ≤ 2 ^ 28 }
    ensures rows { IfOk result (AreRowsOf cons.now) }
    ensures fault { IfErr result (ConsRefused cons.now) }
{
    match read_constraints(alloc, cons) {
        Ok(rows) => Ok(rows),
        Err(fault) => match fault.kind {
            ConsKind::Memory => Err(DesignFault::Memory),
            _ => Err(DesignFault::Cons(fault)),
        },
    }
}

/// The design of four files, or the first fault. They are read in the order parasitics, library, netlist, constraints;
/// the library, the netlist and the constraints have at most 2^28 bytes each, and of the parasitics the comments are
/// blank already. Answers `Memory` where there is no room.
pub fn read_design(
    alloc: Global,
    text: SpefText,
    lib: &[u8],
    verilog: &[u8],
    cons: &[u8],
) -> Result<Design, DesignFault>
    requires lib { length lib.now ≤ 2 ^ 28 }
    requires verilog { length verilog.now ≤ 2 ^ 28 }
    requires cons { length cons.now ≤ 2 ^ 28 }
    ensures design { IfOk result (IsDesignOf text lib.now verilog.now cons.now) }
    ensures fault { IfErr result (IsFirstFaultOf text lib.now verilog.now cons.now) }
{
    let index = index_of(alloc, &text)?;
    let library = library_of(alloc, lib)?;
    let netlist = module_of(alloc, verilog)?;
    let cons = constraints_of(alloc, cons)?;
    let design = Design::new(alloc, text, index, library, netlist, cons)?;
    Ok(design)
}
