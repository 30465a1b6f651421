//! Names in the texts.
ghost use Rattle.std.specs.Prelude.{◌≡◌, ◌++◌, OnOk};
ghost use Rattle.vg_gen.specs.Lines.{cell_name, node_text};

use crate::net::Node;
use vg_num::{Memory, print_signed};

/// Prints the name of the cell at the end of the branch with this number.
pub(crate) fn print_cell_name(j: u32, to: &mut Vec<u8>) -> Result<(), Memory>
    ensures { OnOk result (to.new.items ≡ to.old.items ++ cell_name j) }
{
    to.push(b's')?;
    print_signed(i128::from(j), to)?;
    Ok(())
}

/// Prints a node of the net.
pub(crate) fn print_node(node: Node, to: &mut Vec<u8>) -> Result<(), Memory>
    ensures { OnOk result (to.new.items ≡ to.old.items ++ node_text node) }
{
    match node {
        Node::Driver => {
            to.extend_from_slice(b"u1:Z")?;
            Ok(())
        }
        Node::Inner(i) => {
            to.extend_from_slice(b"g:")?;
            print_signed(i128::from(i), to)?;
            Ok(())
        }
        Node::Sink => {
            to.extend_from_slice(b"u2:A")?;
            Ok(())
        }
        Node::Branch(j) => {
            print_cell_name(j, to)?;
            to.extend_from_slice(b":A")?;
            Ok(())
        }
    }
}
