//! Sections of nets, as they are written.

ghost use Rattle.std.specs.Prelude.{◌≡◌, ◌++◌, ◌∷◌, [], ◌<◌, ◌≤◌, ◌^◌, ◌+◌, false, codes, length, map, IfOk, OnOk, OnErr};
ghost use Rattle.std.specs.List.{All};
ghost use Rattle.spef_net.specs.declared.net.ParNet.{ParNet};
ghost use Rattle.spef_write.specs.Charges.{AreSums};
ghost use Rattle.spef_write.specs.Made.{IsSectionOf};
ghost use Rattle.spef_write.specs.Printed.{behind, cap_row, cap_rows, conn_row, printed_all, printed_at, res_row, res_rows, star_rows};
ghost use Rattle.spef_write.specs.Sections.{numbered, section_text, total};
ghost use Rattle.spef_write.specs.Texts.{lined};

use crate::charge::{cap_nodes, charge_of, sums};
use crate::line::{print_cap, print_conn, print_head, print_res, print_star};
use crate::printed::{NodeText, Printed};
use crate::section::Section;
use spef_file::Header;
use spef_net::{ParConn, ParNet};
use std::alloc::Global;
use vg_num::Memory;
use vg_scan::Chars;

/// Prints the lines of the connections.
fn print_conns(nodes: &Printed, conns: &[ParConn], to: &mut Vec<u8>) -> Result<(), Memory>
    requires { All (λ conn. conn.node < length nodes.now) conns.now }
    ensures { OnOk result (to.new.items ≡ to.old.items ++ lined (map (conn_row nodes.now) conns.now)) }
{
    'conn: for conn in conns {
        print_conn(nodes, conn, to)?;
    }
    Ok(())
}

/// Prints the line of the node of this number, if it is an inner one with a note.
fn print_if_star(nodes: &Printed, at: usize, to: &mut Vec<u8>) -> Result<(), Memory>
    requires { at < length nodes.now }
    ensures { OnOk result (to.new.items ≡ to.old.items ++ lined (star_rows (printed_at nodes.now at ∷ []))) }
{
    if !nodes.is_inner(at) || nodes.note(at).is_empty() {
        return Ok(());
    }
    print_star(nodes, at, to)?;
    Ok(())
}

/// Prints the lines of the inner nodes with a note.
fn print_stars(nodes: &Printed, to: &mut Vec<u8>) -> Result<(), Memory>
    ensures { OnOk result (to.new.items ≡ to.old.items ++ lined (star_rows nodes.now)) }
{
    'node: for at in 0..nodes.len() {
        print_if_star(nodes, at, to)?;
    }
    Ok(())
}

/// Prints the line of the capacitor at the node of this number behind those of so many others; the first one stands
/// behind the head of its part.
fn print_next_cap(
    nodes: &Printed,
    at: usize,
    count: usize,
    header: &Header,
    to: &mut Vec<u8>,
) -> Result<(), Memory>
    requires at { at < length nodes.now }
    requires few { count + 1 < 2 ^ 64 }
    ensures { OnOk result (to.new.items ≡ to.old.items
        ++ lined (behind count (codes "*CAP") (cap_row header.now (count + 1) (printed_at nodes.now at)))) }
{
    if count == 0 {
        to.extend_from_slice(b"*CAP\n")?;
    }
    print_cap(nodes, at, count + 1, header, to)?;
    Ok(())
}

/// Prints the part of the capacitances of these nodes, in their order, if there is one: its lines have numbers from 1
/// on.
fn print_caps(
    nodes: &Printed,
    cap_nodes: &[u32],
    header: &Header,
    to: &mut Vec<u8>,
) -> Result<(), Memory>
    requires { All (λ k. k < length nodes.now) cap_nodes.now }
    ensures { OnOk result (to.new.items ≡ to.old.items
        ++ lined (cap_rows header.now (map (printed_at nodes.now) cap_nodes.now))) }
{
    let mut count = 0usize;
    'node: for i in 0..cap_nodes.len() {
        let at = cap_nodes[i] as usize;
        if nodes.charge(at) != 0 {
            print_next_cap(nodes, at, count, header, to)?;
            count += 1;
        }
    }
    Ok(())
}

/// Prints the lines of the resistors, with numbers from 1 on.
fn print_res_lines(
    nodes: &Printed,
    ress: &[(u32, u32, u64)],
    header: &Header,
    to: &mut Vec<u8>,
) -> Result<(), Memory>
    requires { All (λ res. (res.0 < length nodes.now) × (res.1 < length nodes.now)) ress.now }
    ensures { OnOk result (to.new.items ≡ to.old.items ++ lined (numbered (res_row header.now nodes.now) 1 ress.now)) }
{
    'res: for at in 0..ress.len() {
        print_res(nodes, at + 1, ress[at], header, to)?;
    }
    Ok(())
}

/// Prints the part of the resistors, if there is one.
fn print_ress(
    nodes: &Printed,
    ress: &[(u32, u32, u64)],
    header: &Header,
    to: &mut Vec<u8>,
) -> Result<(), Memory>
    requires { All (λ res. (res.0 < length nodes.now) × (res.1 < length nodes.now)) ress.now }
    ensures { OnOk result (to.new.items ≡ to.old.items ++ lined (res_rows header.now nodes.now ress.now)) }
{
    if ress.is_empty() {
        return Ok(());
    }
    to.extend_from_slice(b"*RES\n")?;
    print_res_lines(nodes, ress, header, to)?;
    Ok(())
}

/// Prints the section of the net that has these parts, without a newline behind its end.
fn print_section(section: &Section<'_>, header: &Header, to: &mut Vec<u8>) -> Result<(), Memory>
    requires { (net : ParNet) × IsSectionOf header.now.chars net section.now }
    ensures { OnOk result ((net : ParNet) → IsSectionOf header.now.chars net section.now
        → to.new.items ≡ to.old.items ++ section_text header.now net) }
{
    let nodes = section.nodes;
    print_head(section.name, section.charge, header, to)?;
    to.extend_from_slice(b"*CONN\n")?;
    print_conns(nodes, section.conns, to)?;
    print_stars(nodes, to)?;
    print_caps(nodes, section.cap_nodes, header, to)?;
    print_ress(nodes, section.ress, header, to)?;
    to.extend_from_slice(b"*END")?;
    Ok(())
}

/// Appends the section of the net that has these parts, without a newline behind its end. It is made in `text`, which
/// is room to work in.
///
/// Answers `Memory` where there is no room, and then `to` is as before.
pub fn write_section(
    section: &Section<'_>,
    header: &Header,
    text: &mut Vec<u8>,
    to: &mut Vec<u8>,
) -> Result<(), Memory>
    requires { (net : ParNet) × IsSectionOf header.now.chars net section.now }
    ensures written { OnOk result ((net : ParNet) → IsSectionOf header.now.chars net section.now
        → to.new.items ≡ to.old.items ++ section_text header.now net) }
    ensures unchanged { OnErr result (to.new.items ≡ to.old.items) }
{
    text.clear();
    print_section(section, header, text)?;
    to.extend_from_slice(text)?;
    Ok(())
}

/// What is printed of the nodes of a net with these capacitances.
fn print_nodes(alloc: Global, net: &ParNet, sums: &[u64], chars: &Chars) -> Result<Printed, Memory>
    requires { AreSums (length net.now.nodes) net.now.caps sums.now }
    ensures { IfOk result (λ nodes. nodes ≡ printed_all chars.now net.now.caps 0 net.now.nodes) }
{
    let mut nodes = Printed::new(alloc);
    'node: for at in 0..net.nodes.len() {
        let node = NodeText {
            owner: net.nodes.owner(at),
            leaf: net.nodes.leaf(at),
            inner: net.nodes.is_inner(at),
            note: net.nodes.note(at),
            charge: sums[at],
        };
        nodes.push(&node, chars)?;
    }
    Ok(nodes)
}

/// The section of a net.
fn section(alloc: Global, net: &ParNet, header: &Header) -> Result<Vec<u8>, Memory>
    requires { total net.now.caps ≤ 10 ^ 15 }
    ensures { IfOk result (λ text. text.items ≡ section_text header.now net.now) }
{
    let sums = sums(alloc, net.nodes.len(), net.caps.as_slice())?;
    let nodes = print_nodes(alloc, net, &sums, &header.chars)?;
    let cap_nodes = cap_nodes(alloc, net.nodes.len(), net.caps.as_slice())?;
    let section = Section {
        name: net.name.as_bytes(),
        charge: charge_of(net.caps.as_slice()),
        nodes: &nodes,
        conns: net.conns.as_slice(),
        cap_nodes: &cap_nodes,
        ress: net.ress.as_slice(),
    };
    let mut text = Vec::new(alloc);
    print_section(&section, header, &mut text)?;
    Ok(text)
}

/// Appends the section of a net, without a newline behind its end: its connections with their notes, its inner nodes
/// with notes, the capacitance of each node that has one, in the order in which the net's capacitors name the nodes,
/// and its resistors. What the section says is the net again.
///
/// Answers `Memory` where there is no room, and then `to` is as before.
pub fn write_net(
    alloc: Global,
    net: &ParNet,
    header: &Header,
    to: &mut Vec<u8>,
) -> Result<(), Memory>
    requires whole { net.now.reduced ≡ false }
    requires plain { net.now.inductive ≡ false }
    requires charge { total net.now.caps ≤ 10 ^ 15 }
    ensures written { OnOk result (to.new.items ≡ to.old.items ++ section_text header.now net.now) }
    ensures unchanged { OnErr result (to.new.items ≡ to.old.items) }
{
    let text = section(alloc, net, header)?;
    to.extend_from_slice(&text)?;
    Ok(())
}
