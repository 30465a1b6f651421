//! The faults of files, as text.

ghost use Rattle.std.specs.Prelude.{◌≡◌, ◌++◌, OnOk, OnErr, IfOk, codes, decimal, length, take};
ghost use Rattle.vg_report.specs.Faults.{cons_kind, cons_fault, lib_kind, lib_fault, ver_kind, ver_fault, spef_kind, spef_fault, net_kind, net_fault, width_kind, width_fault};

use crate::report::push;
use lib_cells::{LibFault, LibKind};
use spef_file::{SpefFault, SpefKind};
use spef_net::{NetFault, NetKind};
use std::alloc::Global;
use ver_syntax::{VerFault, VerKind};
use vg_cons::{ConsFault, ConsKind};
use vg_num::{Memory, NumFault, Row, print_signed};
use vg_width::{WidthFault, WidthKind};

/// The name of a fault of constraints.
fn cons_kind(kind: ConsKind) -> &'static [u8]
    ensures { result.now ≡ cons_kind kind }
{
    match kind {
        ConsKind::Version => b"Version",
        ConsKind::Word => b"Word",
        ConsKind::Number(NumFault::Form) => b"Number Form",
        ConsKind::Number(NumFault::Negative) => b"Number Negative",
        ConsKind::Number(NumFault::TooLarge) => b"Number TooLarge",
        ConsKind::Twice => b"Twice",
        ConsKind::Memory => b"Memory",
    }
}

/// The name of a fault of widths.
fn width_kind(kind: WidthKind) -> &'static [u8]
    ensures { result.now ≡ width_kind kind }
{
    match kind {
        WidthKind::Version => b"Version",
        WidthKind::Word => b"Word",
        WidthKind::Number => b"Number",
        WidthKind::First => b"First",
        WidthKind::TooMany => b"TooMany",
        WidthKind::Memory => b"Memory",
    }
}

/// The name of a fault of a library.
fn lib_kind(kind: LibKind) -> &'static [u8]
    ensures { result.now ≡ lib_kind kind }
{
    match kind {
        LibKind::Syntax => b"Syntax",
        LibKind::NotLinear => b"NotLinear",
        LibKind::Slope => b"Slope",
        LibKind::Unit => b"Unit",
        LibKind::Number(NumFault::Form) => b"Number Form",
        LibKind::Number(NumFault::Negative) => b"Number Negative",
        LibKind::Number(NumFault::TooLarge) => b"Number TooLarge",
        LibKind::CellTwice => b"CellTwice",
        LibKind::TooManyRepeaters => b"TooManyRepeaters",
        LibKind::Memory => b"Memory",
    }
}

/// The name of a fault of a netlist.
fn ver_kind(kind: VerKind) -> &'static [u8]
    ensures { result.now ≡ ver_kind kind }
{
    match kind {
        VerKind::Token => b"Token",
        VerKind::Grammar => b"Grammar",
        VerKind::SecondModule => b"SecondModule",
        VerKind::Positional => b"Positional",
        VerKind::Parameter => b"Parameter",
        VerKind::NameClash => b"NameClash",
        VerKind::InstanceTwice => b"InstanceTwice",
        VerKind::Memory => b"Memory",
    }
}

/// The name of a fault of a SPEF file.
fn spef_kind(kind: SpefKind) -> &'static [u8]
    ensures { result.now ≡ spef_kind kind }
{
    match kind {
        SpefKind::Header => b"Header",
        SpefKind::Unit => b"Unit",
        SpefKind::MapTwice => b"MapTwice",
        SpefKind::MapUnknown => b"MapUnknown",
        SpefKind::NoEnd => b"NoEnd",
        SpefKind::Stray => b"Stray",
        SpefKind::NetTwice => b"NetTwice",
        SpefKind::Unsupported => b"Unsupported",
        SpefKind::Memory => b"Memory",
    }
}

/// The name of a fault of a net's lines.
fn net_kind(kind: NetKind) -> &'static [u8]
    ensures { result.now ≡ net_kind kind }
{
    match kind {
        NetKind::Conn => b"Conn",
        NetKind::Cap => b"Cap",
        NetKind::Res => b"Res",
        NetKind::Number(NumFault::Form) => b"Number Form",
        NetKind::Number(NumFault::Negative) => b"Number Negative",
        NetKind::Number(NumFault::TooLarge) => b"Number TooLarge",
        NetKind::Foreign => b"Foreign",
        NetKind::SelfCoupled => b"SelfCoupled",
        NetKind::Memory => b"Memory",
    }
}

/// Appends `KIND line L`.
fn print_fault(kind: &[u8], line: usize, to: &mut Vec<u8>) -> Result<(), Memory>
    ensures printed { OnOk result (to.new.items ≡ to.old.items ++ (kind.now ++ (codes " line " ++ decimal line))) }
    ensures begun { OnErr result (take (length to.old.items) to.new.items ≡ to.old.items) }
{
    push(kind, to)?;
    push(b" line ", to)?;
    print_signed(line as i128, to)?;
    Ok(())
}

/// A fault of constraints as text: `KIND line L`.
pub fn cons_fault(alloc: Global, fault: ConsFault) -> Result<Row<u8>, Memory>
    ensures { IfOk result (λ text. text ≡ cons_fault fault) }
{
    let mut text = Vec::new(alloc);
    print_fault(cons_kind(fault.kind), fault.line, &mut text)?;
    Ok(Row::from_vec(text))
}

/// A fault of widths as text: `KIND line L`.
pub fn width_fault(alloc: Global, fault: WidthFault) -> Result<Row<u8>, Memory>
    ensures { IfOk result (λ text. text ≡ width_fault fault) }
{
    let mut text = Vec::new(alloc);
    print_fault(width_kind(fault.kind), fault.line, &mut text)?;
    Ok(Row::from_vec(text))
}

/// A fault of a library as text: `KIND line L`.
pub fn lib_fault(alloc: Global, fault: LibFault) -> Result<Row<u8>, Memory>
    ensures { IfOk result (λ text. text ≡ lib_fault fault) }
{
    let mut text = Vec::new(alloc);
    print_fault(lib_kind(fault.kind), fault.line, &mut text)?;
    Ok(Row::from_vec(text))
}

/// A fault of a netlist as text: `KIND line L`.
pub fn ver_fault(alloc: Global, fault: VerFault) -> Result<Row<u8>, Memory>
    ensures { IfOk result (λ text. text ≡ ver_fault fault) }
{
    let mut text = Vec::new(alloc);
    print_fault(ver_kind(fault.kind), fault.line, &mut text)?;
    Ok(Row::from_vec(text))
}

/// A fault of a SPEF file as text: `KIND line L`.
pub fn spef_fault(alloc: Global, fault: SpefFault) -> Result<Row<u8>, Memory>
    ensures { IfOk result (λ text. text ≡ spef_fault fault) }
{
    let mut text = Vec::new(alloc);
    print_fault(spef_kind(fault.kind), fault.line, &mut text)?;
    Ok(Row::from_vec(text))
}

/// Appends a fault of a net's lines: `KIND line L`. Answers `Memory` where there is no room, and then `to` is as
/// before.
pub fn print_net_fault(fault: NetFault, to: &mut Vec<u8>) -> Result<(), Memory>
    ensures printed { OnOk result (to.new.items ≡ to.old.items ++ net_fault fault) }
    ensures unchanged { OnErr result (to.new.items ≡ to.old.items) }
{
    let before = to.len();
    let done = print_fault(net_kind(fault.kind), fault.line, to);
    if done.is_err() {
        to.truncate(before);
    }
    done
}
