//! What is replaced in the text of a netlist that is changed.

ghost use Rattle.std.specs.Prelude.{◌≡◌, ◌<◌, ◌≤◌, ◌++◌, ◌∷◌, [], List, ℕ, length, map, IfOk, OnOk};
ghost use Rattle.std.specs.List.{All};
ghost use Rattle.vg_patch.specs.Edits.{Rise, end_of};
ghost use Rattle.ver_file.specs.Modules.{Denotes};
ghost use Rattle.ver_patch.specs.Orders.{rewires_at};
ghost use Rattle.ver_patch.specs.Patches.{AreEditsFor, inserted, rewired};
ghost use Rattle.ver_patch.specs.Pins.{AreRewirable, IsOnOneNet, span_at};
ghost use Rattle.ver_patch.specs.Texts.{cell_texts, wire_texts};

use crate::cells::NewCells;
use crate::laws::spans_rise;
use crate::order::in_order;
use crate::print::{print_cells, print_wires};
use crate::rewires::Rewires;
use name_tables::Texts;
use std::alloc::Global;
use ver_module::Module;
use ver_net::PinRef;
use vg_num::Memory;
use vg_patch::Patch;
use vg_scan::Span;

/// Where the connection of a pin stands.
fn span_of(netlist: &Module, at: PinRef) -> Span
    requires { IsOnOneNet netlist.now at }
    ensures { result ≡ span_at netlist.now at }
{
    let instance = netlist.instance(at.instance as usize);
    let pin = instance.pin(at.pin as usize);
    pin.span
}

/// Puts a text in at a place behind all other edits.
fn insert(edits: &mut Patch, at: usize, text: Vec<u8>) -> Result<(), Memory>
    requires { end_of edits.old ≤ at }
    ensures { OnOk result (edits.new ≡ edits.old ++ inserted at text.items ∷ []) }
{
    edits.replace_by(Span { from: at, to: at }, text)?;
    Ok(())
}

/// Puts in new wires behind the head.
fn put_wires(
    alloc: Global,
    netlist: &Module,
    wires: &Texts,
    edits: &mut Patch,
) -> Result<(), Memory>
    requires { end_of edits.old ≤ netlist.now.head_end }
    ensures { OnOk result (edits.new ≡ edits.old ++ inserted netlist.now.head_end (wire_texts wires.now) ∷ []) }
{
    let mut text = Vec::new(alloc);
    print_wires(wires, &mut text)?;
    insert(edits, netlist.head_end(), text)?;
    Ok(())
}

/// Makes the connections anew, in this order.
fn put_rewires(
    netlist: &Module,
    rewires: &Rewires,
    order: &[usize],
    edits: &mut Patch,
) -> Result<(), Memory>
    requires order { All (λ n. n < length rewires.now) order.now }
    requires linked { All (λ rewire. IsOnOneNet netlist.now rewire.at) rewires.now }
    requires rise { Rise 0 netlist.now.end_at
        (edits.old ++ map (rewired netlist.now) (rewires_at rewires.now order.now)) }
    ensures edits { OnOk result (edits.new ≡ edits.old
        ++ map (rewired netlist.now) (rewires_at rewires.now order.now)) }
    ensures rise { OnOk result (Rise 0 netlist.now.end_at edits.new) }
{
    'order: for number in order {
        edits.replace(span_of(netlist, rewires.pin(*number)), rewires.net(*number))?;
    }
    Ok(())
}

/// Puts in new instances before `endmodule`.
fn put_cells(
    alloc: Global,
    netlist: &Module,
    cells: &NewCells,
    edits: &mut Patch,
) -> Result<(), Memory>
    requires { end_of edits.old ≤ netlist.now.end_at }
    ensures { OnOk result (edits.new ≡ edits.old ++ inserted netlist.now.end_at (cell_texts cells.now) ∷ []) }
{
    let mut text = Vec::new(alloc);
    print_cells(cells, &mut text)?;
    insert(edits, netlist.end_at(), text)?;
    Ok(())
}

/// What is to be replaced in the text of a netlist, so that wires are declared just behind the module's head, the
/// connections of some pins are made anew, and instances are put in just before its `endmodule`; all other bytes are
/// kept. The pins differ, and each was linked to one net; they may come in any order. A new wire's name and an
/// instance's own name stand as they are, a cell's and a pin's as an identifier, escaped where that is no simple one.
/// Answers `Memory` where there is no room.
pub fn patch(
    alloc: Global,
    netlist: &Module,
    rewires: &Rewires,
    cells: &NewCells,
    wires: &Texts,
) -> Result<Patch, Memory>
    requires read { (text : List ℕ) × Denotes text netlist.now }
    requires rewires { AreRewirable netlist.now rewires.now }
    ensures { IfOk result (AreEditsFor netlist.now rewires.now cells.now wires.now) }
{
    spans_rise();
    netlist.is_sound();
    let order = in_order(alloc, rewires)?;
    let mut edits = Patch::new(alloc);
    put_wires(alloc, netlist, wires, &mut edits)?;
    put_rewires(netlist, rewires, &order, &mut edits)?;
    put_cells(alloc, netlist, cells, &mut edits)?;
    Ok(edits)
}
