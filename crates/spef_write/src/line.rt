//! Lines of a net's section, as they are written.

ghost use Rattle.std.specs.Prelude.{◌≡◌, ◌++◌, ◌<◌, ◌≤◌, length, unsigned_abs, OnOk};
ghost use Rattle.std.specs.Fmt.{decimal};
ghost use Rattle.std.specs.List.{AllPass};
ghost use Rattle.vg_scan.specs.Printed.{is_solid, IsPrintable};
ghost use Rattle.spef_write.specs.Printed.{cap_row, conn_row, head_row, printed_at, res_row, star_row};
ghost use Rattle.spef_write.specs.Texts.{conn_tag, direction_word, ended, noted, printed_node_with};

use crate::printed::Printed;
use spef_file::Header;
use spef_net::{ConnKind, Direction, ParConn};
use vg_num::{Memory, print_scaled, print_signed};
use vg_scan::{Chars, print_spef_name};

/// The first word of a connection's line.
fn conn_tag(kind: ConnKind) -> &'static [u8]
    ensures { result.now ≡ conn_tag kind }
{
    match kind {
        ConnKind::Pin => b"*I",
        ConnKind::Port => b"*P",
    }
}

/// The word of a direction.
fn direction_word(direction: Direction) -> &'static [u8]
    ensures { result.now ≡ direction_word direction }
{
    match direction {
        Direction::In => b"I",
        Direction::Out => b"O",
        Direction::Both => b"B",
    }
}

/// How many decimal places the file's capacitances have.
fn c_places(header: &Header) -> u32
    ensures value { result ≡ unsigned_abs header.now.c_places }
    ensures few { result ≤ 9 }
{
    header.c_places.unsigned_abs()
}

/// How many decimal places the file's resistances have.
fn r_places(header: &Header) -> u32
    ensures value { result ≡ unsigned_abs header.now.r_places }
    ensures few { result ≤ 9 }
{
    header.r_places.unsigned_abs()
}

/// Prints the number of a line.
fn print_id(id: usize, to: &mut Vec<u8>) -> Result<(), Memory>
    ensures { OnOk result (to.new.items ≡ to.old.items ++ decimal id) }
{
    print_signed(id as i128, to)?;
    Ok(())
}

/// Prints the name of the node of an owner and a leaf.
pub(crate) fn print_node(
    owner: &[u8],
    leaf: &[u8],
    chars: &Chars,
    to: &mut Vec<u8>,
) -> Result<(), Memory>
    requires owner { IsPrintable owner.now }
    requires leaf { AllPass is_solid leaf.now }
    ensures printed { OnOk result (to.new.items ≡ to.old.items ++ printed_node_with chars.now owner.now leaf.now) }
    ensures longer { length to.old.items ≤ length to.new.items }
{
    print_spef_name(owner, chars, to)?;
    if leaf.is_empty() {
        return Ok(());
    }
    to.push(chars.delimiter)?;
    print_spef_name(leaf, chars, to)?;
    Ok(())
}

/// Ends a line with this note, if there is one.
fn end_line(note: &[u8], to: &mut Vec<u8>) -> Result<(), Memory>
    ensures { OnOk result (to.new.items ≡ ended (noted to.old.items note.now)) }
{
    if !note.is_empty() {
        to.push(b' ')?;
        to.extend_from_slice(note)?;
    }
    to.push(b'\n')?;
    Ok(())
}

/// Prints the first line of the section of a net of this name, where the capacitances come to this.
pub(crate) fn print_head(
    name: &[u8],
    charge: u64,
    header: &Header,
    to: &mut Vec<u8>,
) -> Result<(), Memory>
    requires { IsPrintable name.now }
    ensures { OnOk result (to.new.items ≡ to.old.items ++ ended (head_row header.now name.now charge)) }
{
    to.extend_from_slice(b"*D_NET ")?;
    print_spef_name(name, &header.chars, to)?;
    to.push(b' ')?;
    print_scaled(charge, c_places(header), to)?;
    to.push(b'\n')?;
    Ok(())
}

/// Prints the line of a connection.
pub(crate) fn print_conn(nodes: &Printed, conn: &ParConn, to: &mut Vec<u8>) -> Result<(), Memory>
    requires { conn.now.node < length nodes.now }
    ensures { OnOk result (to.new.items ≡ to.old.items ++ ended (conn_row nodes.now conn.now)) }
{
    let at = conn.node as usize;
    to.extend_from_slice(conn_tag(conn.kind))?;
    to.push(b' ')?;
    to.extend_from_slice(nodes.name(at))?;
    to.push(b' ')?;
    to.extend_from_slice(direction_word(conn.direction))?;
    end_line(nodes.note(at), to)?;
    Ok(())
}

/// Prints the line of the inner node of this number, with its note.
pub(crate) fn print_star(nodes: &Printed, at: usize, to: &mut Vec<u8>) -> Result<(), Memory>
    requires { at < length nodes.now }
    ensures { OnOk result (to.new.items ≡ to.old.items ++ ended (star_row (printed_at nodes.now at))) }
{
    to.extend_from_slice(b"*N ")?;
    to.extend_from_slice(nodes.name(at))?;
    end_line(nodes.note(at), to)?;
    Ok(())
}

/// Prints the line of the capacitor between the node of this number and the ground.
pub(crate) fn print_cap(
    nodes: &Printed,
    at: usize,
    id: usize,
    header: &Header,
    to: &mut Vec<u8>,
) -> Result<(), Memory>
    requires { at < length nodes.now }
    ensures { OnOk result (to.new.items ≡ to.old.items ++ ended (cap_row header.now id (printed_at nodes.now at))) }
{
    print_id(id, to)?;
    to.push(b' ')?;
    to.extend_from_slice(nodes.name(at))?;
    to.push(b' ')?;
    print_scaled(nodes.charge(at), c_places(header), to)?;
    to.push(b'\n')?;
    Ok(())
}

/// Prints the line of a resistor.
pub(crate) fn print_res(
    nodes: &Printed,
    id: usize,
    res: (u32, u32, u64),
    header: &Header,
    to: &mut Vec<u8>,
) -> Result<(), Memory>
    requires from { res.0 < length nodes.now }
    requires to { res.1 < length nodes.now }
    ensures { OnOk result (to.new.items ≡ to.old.items ++ ended (res_row header.now nodes.now id res)) }
{
    print_id(id, to)?;
    to.push(b' ')?;
    to.extend_from_slice(nodes.name(res.0 as usize))?;
    to.push(b' ')?;
    to.extend_from_slice(nodes.name(res.1 as usize))?;
    to.push(b' ')?;
    print_scaled(res.2, r_places(header), to)?;
    to.push(b'\n')?;
    Ok(())
}
