//! The files of a design, or the line that tells their first fault.

ghost use Rattle.std.specs.Prelude.{◌≤◌, ◌^◌, length, IfErr, IfOk};
ghost use Rattle.design_read.specs.Designs.{IsDesign, IsDesignOf};
ghost use Rattle.vg_answer.specs.Answers.{Indexes, IsNoDesign, IsNoDesignOf, Tells, texts_in};

use crate::answer::NoAnswer;
use crate::input::Input;
use crate::texts::DesignTexts;
use design_read::{DesignFault, read_design};
use spef_file::{SpefIndex, SpefKind, SpefText, index};
use std::alloc::Global;
use vg_design::Design;
use vg_num::Memory;
use vg_report::{cons_fault, lib_fault, spef_fault, ver_fault};

/// The index of a SPEF file, or the text of its fault.
pub fn index_of(alloc: Global, file: &SpefText) -> Result<SpefIndex, NoAnswer>
    ensures { Indexes result file.now }
{
    match index(alloc, file) {
        Ok(index) => Ok(index),
        Err(fault) => match fault.kind {
            SpefKind::Memory => Err(NoAnswer::Memory),
            _ => Err(NoAnswer::Faulty(Input::Spef, spef_fault(alloc, fault)?)),
        },
    }
}

/// Why four files are no design, as an answer.
fn told(alloc: Global, fault: DesignFault) -> NoAnswer
    ensures { Tells fault result }
{
    let (input, line) = match fault {
        DesignFault::Spef(fault) => (Input::Spef, spef_fault(alloc, fault)),
        DesignFault::Lib(fault) => (Input::Lib, lib_fault(alloc, fault)),
        DesignFault::Ver(fault) => (Input::Verilog, ver_fault(alloc, fault)),
        DesignFault::Cons(fault) => (Input::Cons, cons_fault(alloc, fault)),
        DesignFault::Memory => return NoAnswer::Memory,
    };
    match line {
        Ok(line) => NoAnswer::Faulty(input, line),
        Err(Memory) => NoAnswer::Memory,
    }
}

/// The design of four files, of which the parasitics have no comments, or the text of the first fault.
pub fn design_of(
    alloc: Global,
    text: SpefText,
    lib: &[u8],
    verilog: &[u8],
    cons: &[u8],
) -> Result<Design, NoAnswer>
    requires lib { length lib.now ≤ 2 ^ 28 }
    requires verilog { length verilog.now ≤ 2 ^ 28 }
    requires cons { length cons.now ≤ 2 ^ 28 }
    ensures design { IfOk result (IsDesignOf text lib.now verilog.now cons.now) }
    ensures fault { IfErr result (IsNoDesignOf text lib.now verilog.now cons.now) }
{
    match read_design(alloc, text, lib, verilog, cons) {
        Ok(design) => Ok(design),
        Err(fault) => Err(told(alloc, fault)),
    }
}

/// The design of four texts, or the text of the first fault.
pub fn design_in(alloc: Global, texts: DesignTexts) -> Result<Design, NoAnswer>
    ensures design { IfOk result (IsDesign (texts_in texts)) }
    ensures fault { IfErr result (IsNoDesign (texts_in texts)) }
{
    let DesignTexts {
        spef,
        lib,
        verilog,
        cons,
    } = texts;
    let text = SpefText::new(spef.bytes);
    design_of(alloc, text, &lib.bytes, &verilog.bytes, &cons.bytes)
}
