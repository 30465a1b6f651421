//! The netlist.
ghost use Rattle.std.specs.Prelude.{◌≡◌, ◌++◌, IfOk, OnOk};
ghost use Rattle.vg_gen.specs.Lines.{cell_line, ended, lined};
ghost use Rattle.vg_gen.specs.Texts.{branch_cells, netlist_text};

use crate::name::print_cell_name;
use std::alloc::Global;
use vg_num::Memory;

/// The netlist up to the cells of branches.
const NETLIST: &[u8] = b"\
module gen (i0);
input i0;
wire g;
DRV u1 (.A(i0), .Z(g));
BUF u2 (.A(g), .Z());
";

/// Prints the cell of the branch with this number.
fn print_cell(j: u32, to: &mut Vec<u8>) -> Result<(), Memory>
    ensures { OnOk result (to.new.items ≡ to.old.items ++ ended (cell_line j)) }
{
    to.extend_from_slice(b"BUF ")?;
    print_cell_name(j, to)?;
    to.extend_from_slice(b" (.A(g), .Z());\n")?;
    Ok(())
}

/// Prints the cells of so many branches.
fn print_cells(branches: u32, to: &mut Vec<u8>) -> Result<(), Memory>
    ensures { OnOk result (to.new.items ≡ to.old.items ++ lined (branch_cells branches)) }
{
    'cell: for at in 0..branches {
        print_cell(at + 1, to)?;
    }
    Ok(())
}

/// The netlist of a design with so many branches.
pub(crate) fn netlist(alloc: Global, branches: u32) -> Result<Vec<u8>, Memory>
    ensures { IfOk result (λ text. text.items ≡ netlist_text branches) }
{
    let mut text = Vec::from_slice(alloc, NETLIST)?;
    print_cells(branches, &mut text)?;
    text.extend_from_slice(b"endmodule\n")?;
    Ok(text)
}
