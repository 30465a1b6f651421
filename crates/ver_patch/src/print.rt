//! New wires and new instances, printed.

ghost use Rattle.std.specs.Prelude.{◌≡◌, ◌++◌, OnOk};
ghost use Rattle.ver_patch.specs.NewCells.{cell_of};
ghost use Rattle.ver_patch.specs.Texts.{cell_text, cell_texts, pin_text, wire_text, wire_texts};

use crate::cells::{CellTexts, NewCells};
use name_tables::Texts;
use ver_text::print_name;
use vg_num::Memory;

/// Prints the declaration of a wire, behind a line's end.
fn print_wire(name: &[u8], to: &mut Vec<u8>) -> Result<(), Memory>
    ensures { OnOk result (to.new.items ≡ to.old.items ++ wire_text name.now) }
{
    to.extend_from_slice(b"\nwire ")?;
    to.extend_from_slice(name)?;
    to.push(b';')?;
    Ok(())
}

/// Prints the declarations of wires.
pub(crate) fn print_wires(names: &Texts, to: &mut Vec<u8>) -> Result<(), Memory>
    ensures { OnOk result (to.new.items ≡ to.old.items ++ wire_texts names.now) }
{
    'names: for number in 0..names.len() {
        print_wire(names.get(number), to)?;
    }
    Ok(())
}

/// Prints a connection by name.
fn print_pin(pin: &[u8], net: &[u8], to: &mut Vec<u8>) -> Result<(), Memory>
    ensures { OnOk result (to.new.items ≡ to.old.items ++ pin_text pin.now net.now) }
{
    to.push(b'.')?;
    print_name(pin, to)?;
    to.push(b'(')?;
    to.extend_from_slice(net)?;
    to.push(b')')?;
    Ok(())
}

/// Prints an instance with its two connections, on a line.
fn print_cell(cell: &CellTexts<'_>, to: &mut Vec<u8>) -> Result<(), Memory>
    ensures { OnOk result (to.new.items ≡ to.old.items ++ cell_text (cell_of cell.now)) }
{
    print_name(cell.cell, to)?;
    to.push(b' ')?;
    to.extend_from_slice(cell.name)?;
    to.extend_from_slice(b" (")?;
    print_pin(cell.input, cell.from, to)?;
    to.extend_from_slice(b", ")?;
    print_pin(cell.output, cell.to, to)?;
    to.extend_from_slice(b");\n")?;
    Ok(())
}

/// Prints instances.
pub(crate) fn print_cells(cells: &NewCells, to: &mut Vec<u8>) -> Result<(), Memory>
    ensures { OnOk result (to.new.items ≡ to.old.items ++ cell_texts cells.now) }
{
    'cells: for number in 0..cells.len() {
        print_cell(&cells.texts(number), to)?;
    }
    Ok(())
}
