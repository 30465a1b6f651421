//! The cells that are put into a net, and the new nets that they bring.

ghost use Rattle.std.specs.Prelude.{◌≡◌, ◌++◌, ◌<◌, ◌∷◌, [], length, map, OnOk};
ghost use Rattle.ver_net.specs.Texts.{net_text};
ghost use Rattle.vg_change.specs.Placed.{above, cells_of, new_cell, text_in, wires_of};
ghost use Rattle.vg_split.specs.NewNames.{cell_name, net_name};
ghost use Rattle.vg_split.specs.Splits.{forest, head, number_of};
ghost use Rattle.vg_split.specs.Stages.{heads};

use name_tables::Texts;
use std::alloc::Global;
use ver_module::Module;
use ver_net::net_text;
use ver_patch::{CellTexts, NewCells};
use vg_num::Memory;
use vg_split::{Split, push_cell_name, push_net_name};

/// Puts the name of the net of a stage, as it stands in the text of the netlist, in place of what a text held.
fn put_net(
    alloc: Global,
    netlist: &Module,
    id: u32,
    x: &Split<'_>,
    stage: usize,
    text: &mut Vec<u8>,
) -> Result<(), Memory>
    requires id { id < length netlist.now.nets }
    requires stage { stage < length (heads (forest x.now)) }
    ensures { OnOk result (text.new.items ≡ text_in netlist.now id x.now stage) }
{
    text.clear();
    if stage == x.keeper as usize {
        let net = net_text(alloc, netlist, id)?;
        text.extend_from_slice(net.as_bytes())?;
        return Ok(());
    }
    x.push_net(stage, text)?;
    Ok(())
}

/// The stage that the cell ends at which a stage begins.
fn above(x: &Split<'_>, stage: usize) -> usize
    requires { stage < length (heads (forest x.now)) }
    ensures is { result ≡ above x.now stage }
    ensures within { result < length (heads (forest x.now)) }
{
    let head = x.members(stage)[0] as usize;
    let (parent, _) = x.above(head);
    x.stage_of(parent)
}

/// Puts the name of the cell at which a stage begins in place of what a text held.
fn put_name(x: &Split<'_>, stage: usize, name: &mut Vec<u8>) -> Result<(), Memory>
    requires some { 0 < stage }
    requires stage { stage < length (heads (forest x.now)) }
    ensures { OnOk result (name.new.items ≡ cell_name x.now.prefix (number_of x.now stage)) }
{
    name.clear();
    push_cell_name(x.prefix, x.first + (stage - 1) as u64, name)?;
    Ok(())
}

/// Puts the new net of the cell at which a stage begins in place of what a text held.
fn put_wire(x: &Split<'_>, stage: usize, name: &mut Vec<u8>) -> Result<(), Memory>
    requires some { 0 < stage }
    requires stage { stage < length (heads (forest x.now)) }
    ensures { OnOk result (name.new.items ≡ net_name x.now.prefix (number_of x.now stage)) }
{
    name.clear();
    push_net_name(x.prefix, x.first + (stage - 1) as u64, name)?;
    Ok(())
}

/// Texts that are written anew for each cell.
#[derive(Drop)]
struct Scratch {
    name: Vec<u8>,
    from: Vec<u8>,
    to: Vec<u8>,
}

/// Puts the cell last at which a stage begins.
fn push_cell(
    alloc: Global,
    netlist: &Module,
    id: u32,
    x: &Split<'_>,
    stage: usize,
    scratch: &mut Scratch,
    to: &mut NewCells,
) -> Result<(), Memory>
    requires id { id < length netlist.now.nets }
    requires some { 0 < stage }
    requires stage { stage < length (heads (forest x.now)) }
    ensures { OnOk result (to.new ≡ to.old ++ new_cell netlist.now id x.now stage ∷ []) }
{
    put_name(x, stage, &mut scratch.name)?;
    put_net(alloc, netlist, id, x, above(x, stage), &mut scratch.from)?;
    put_net(alloc, netlist, id, x, stage, &mut scratch.to)?;
    let repeater = x.repeater_of(stage);
    to.push(&CellTexts {
        cell: repeater.cell.as_bytes(),
        name: &scratch.name,
        input: repeater.input.as_bytes(),
        output: repeater.output.as_bytes(),
        from: &scratch.from,
        to: &scratch.to,
    })?;
    Ok(())
}

/// Puts the cells of a net last.
pub(crate) fn push_cells(
    alloc: Global,
    netlist: &Module,
    id: u32,
    x: &Split<'_>,
    to: &mut NewCells,
) -> Result<(), Memory>
    requires id { id < length netlist.now.nets }
    ensures { OnOk result (to.new ≡ to.old ++ cells_of netlist.now id x.now) }
{
    let mut scratch = Scratch {
        name: Vec::new(alloc),
        from: Vec::new(alloc),
        to: Vec::new(alloc),
    };
    'stage: for stage in 1..x.count() {
        push_cell(alloc, netlist, id, x, stage, &mut scratch, to)?;
    }
    Ok(())
}

/// Puts the new nets of a net's cells last.
pub(crate) fn push_wires(alloc: Global, x: &Split<'_>, to: &mut Texts) -> Result<(), Memory>
    ensures { OnOk result (to.new ≡ to.old ++ wires_of x.now) }
{
    let mut name = Vec::new(alloc);
    'stage: for stage in 1..x.count() {
        put_wire(x, stage, &mut name)?;
        to.push(&name)?;
    }
    Ok(())
}
