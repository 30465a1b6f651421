//! The SPEF text.
ghost use Rattle.std.specs.Prelude.{◌≡◌, ◌≤◌, ◌++◌, IfOk, OnOk};
ghost use Rattle.vg_gen.specs.Nets.{segments};
ghost use Rattle.vg_gen.specs.Lines.{lined};
ghost use Rattle.vg_gen.specs.Texts.{branch_ress, branch_sinks, conn_lines, header_lines, line_caps, line_ress, res_lines, spef_text};

use crate::line::{print_cap, print_head, print_res, print_sink};
use crate::net::{Node, Segment, branch_resistor, charge, last_resistor, line_resistor};
use std::alloc::Global;
use vg_num::Memory;

/// The lines before the net.
fn header() -> &'static [u8]
    ensures { result.now ≡ lined header_lines }
{
    br#"*SPEF "IEEE 1481-1998"
*DESIGN "top"
*DATE "none"
*VENDOR "none"
*PROGRAM "none"
*VERSION "1"
*DESIGN_FLOW "none"
*DIVIDER /
*DELIMITER :
*BUS_DELIMITER [ ]
*T_UNIT 1 PS
*C_UNIT 1 FF
*R_UNIT 1 OHM
*L_UNIT 1 HENRY
"#
}

/// Prints the lines of the sinks of so many branches.
fn print_branch_sinks(branches: u32, to: &mut Vec<u8>) -> Result<(), Memory>
    ensures { OnOk result (to.new.items ≡ to.old.items ++ lined (branch_sinks branches)) }
{
    'branch: for at in 0..branches {
        print_sink(Node::Branch(at + 1), to)?;
    }
    Ok(())
}

/// Prints the connections, where there are so many branches.
fn print_conns(branches: u32, to: &mut Vec<u8>) -> Result<(), Memory>
    ensures { OnOk result (to.new.items ≡ to.old.items ++ lined (conn_lines branches)) }
{
    to.extend_from_slice(b"*CONN\n*I u1:Z O\n")?;
    print_sink(Node::Sink, to)?;
    print_branch_sinks(branches, to)?;
    Ok(())
}

/// Prints the lines of the capacitors of a line of this size.
fn print_caps(size: u32, line: &[Segment], to: &mut Vec<u8>) -> Result<(), Memory>
    requires { line.now ≡ segments size }
    ensures { OnOk result (to.new.items ≡ to.old.items ++ lined (line_caps size)) }
{
    'cap: for i in 0..size {
        print_cap(i + 1, line[i as usize].femtofarads, to)?;
    }
    Ok(())
}

/// Prints the lines of the resistors of a line of this size.
fn print_line_ress(size: u32, line: &[Segment], to: &mut Vec<u8>) -> Result<(), Memory>
    requires { line.now ≡ segments size }
    ensures { OnOk result (to.new.items ≡ to.old.items ++ lined (line_ress size)) }
{
    'res: for i in 0..size {
        let resistor = line_resistor(i + 1, line[i as usize].ohms);
        print_res(i + 1, resistor, to)?;
    }
    Ok(())
}

/// Prints the lines of the resistors of the branches from a line of this size.
fn print_branch_ress(size: u32, to: &mut Vec<u8>) -> Result<(), Memory>
    requires { size ≤ 4000 }
    ensures { OnOk result (to.new.items ≡ to.old.items ++ lined (branch_ress size)) }
{
    'branch: for at in 0..size / 100 {
        let j = at + 1;
        print_res(size + 1 + j, branch_resistor(j), to)?;
    }
    Ok(())
}

/// Prints the resistors of a net of this size.
fn print_ress(size: u32, line: &[Segment], to: &mut Vec<u8>) -> Result<(), Memory>
    requires few { size ≤ 4000 }
    requires line { line.now ≡ segments size }
    ensures { OnOk result (to.new.items ≡ to.old.items ++ lined (res_lines size)) }
{
    to.extend_from_slice(b"*RES\n")?;
    print_line_ress(size, line, to)?;
    print_res(size + 1, last_resistor(size), to)?;
    print_branch_ress(size, to)?;
    Ok(())
}

/// The SPEF text of a design of this size.
pub(crate) fn spef(alloc: Global, size: u32, line: &[Segment]) -> Result<Vec<u8>, Memory>
    requires few { size ≤ 4000 }
    requires line { line.now ≡ segments size }
    ensures { IfOk result (λ text. text.items ≡ spef_text size) }
{
    let mut text = Vec::from_slice(alloc, header())?;
    print_head(charge(line), &mut text)?;
    print_conns(size / 100, &mut text)?;
    text.extend_from_slice(b"*CAP\n")?;
    print_caps(size, line, &mut text)?;
    print_ress(size, line, &mut text)?;
    text.extend_from_slice(b"*END\n")?;
    Ok(text)
}
