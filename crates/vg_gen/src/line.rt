//! Lines of the SPEF text.
ghost use Rattle.std.specs.Prelude.{◌≡◌, [], ◌∷◌, ◌++◌, OnOk};
ghost use Rattle.vg_gen.specs.Lines.{cap_line, ended, head_line, node_text, res_line, sink_line, spaced};

use crate::name::print_node;
use crate::net::{Node, Resistor};
use vg_num::{Memory, print_signed};

/// Prints the first line of the net, whose capacitors come to so many fF.
pub(crate) fn print_head(total: u32, to: &mut Vec<u8>) -> Result<(), Memory>
    ensures { OnOk result (to.new.items ≡ to.old.items ++ ended (head_line total)) }
{
    to.extend_from_slice(b"*D_NET g ")?;
    print_signed(i128::from(total), to)?;
    to.push(b'\n')?;
    Ok(())
}

/// Prints the line of a sink.
pub(crate) fn print_sink(node: Node, to: &mut Vec<u8>) -> Result<(), Memory>
    ensures { OnOk result (to.new.items ≡ to.old.items ++ ended (sink_line node)) }
{
    to.extend_from_slice(b"*I ")?;
    print_node(node, to)?;
    to.extend_from_slice(b" I\n")?;
    Ok(())
}

/// Prints the line of the capacitor of this number, of so many fF.
pub(crate) fn print_cap(i: u32, femtofarads: u32, to: &mut Vec<u8>) -> Result<(), Memory>
    ensures { OnOk result (to.new.items ≡ to.old.items ++ ended (cap_line i femtofarads)) }
{
    print_signed(i128::from(i), to)?;
    to.push(b' ')?;
    print_node(Node::Inner(i), to)?;
    to.push(b' ')?;
    print_signed(i128::from(femtofarads), to)?;
    to.push(b'\n')?;
    Ok(())
}

/// Prints the two nodes of a resistor.
fn print_ends(resistor: Resistor, to: &mut Vec<u8>) -> Result<(), Memory>
    ensures { OnOk result (to.new.items ≡ to.old.items
        ++ spaced (node_text resistor.from ∷ node_text resistor.to ∷ [])) }
{
    print_node(resistor.from, to)?;
    to.push(b' ')?;
    print_node(resistor.to, to)?;
    Ok(())
}

/// Prints the line of the resistor of this number.
pub(crate) fn print_res(i: u32, resistor: Resistor, to: &mut Vec<u8>) -> Result<(), Memory>
    ensures { OnOk result (to.new.items ≡ to.old.items ++ ended (res_line i resistor)) }
{
    print_signed(i128::from(i), to)?;
    to.push(b' ')?;
    print_ends(resistor, to)?;
    to.push(b' ')?;
    print_signed(i128::from(resistor.ohms), to)?;
    to.push(b'\n')?;
    Ok(())
}
