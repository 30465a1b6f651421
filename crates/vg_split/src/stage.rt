//! The section of a stage's net.

ghost use Rattle.std.specs.Prelude.{◌≡◌, ◌||◌, ◌++◌, ◌∷◌, [], ◌<◌, ◌^◌, true, false, length, map, drop, slice_set, OnErr, OnOk};
ghost use Rattle.vg_scan.specs.Printed.{IsPrintable};
ghost use Rattle.vg_split.specs.Splits.{cap_in, forest, head, is_celled, is_end, with_cell, ends_in, inner_in, nodes_in, net_of, place_in, res_in, repeater_at};
ghost use Rattle.vg_split.specs.Steps.{is_own, cap_row, conn_of, inner_row, row_in, AreConns, AreNumbered, ArePrintedParts, SaysStage};
ghost use Rattle.vg_split.specs.Stages.{heads, members};
ghost use Rattle.spef_write.specs.Sections.{total};

use crate::names::push_cell_name;
use crate::scratch::{Room, Scratch};
use crate::split::Split;
use lib_linear::Repeater;
use spef_file::Header;
use spef_net::{ConnKind, Direction, ParConn};
use spef_write::{NodeText, Printed, Section, write_section};
use vg_num::Memory;
use vg_scan::{Chars, print_spef_name};

/// Puts a note with the cell of a pin behind a text.
fn push_note(note: &[u8], cell: &[u8], chars: &Chars, to: &mut Vec<u8>) -> Result<(), Memory>
    requires { IsPrintable cell.now }
    ensures { OnOk result (to.new.items ≡ to.old.items ++ with_cell chars.now note.now cell.now) }
{
    if !note.is_empty() {
        to.extend_from_slice(note)?;
        to.push(b' ')?;
    }
    to.extend_from_slice(b"*D ")?;
    print_spef_name(cell, chars, to)?;
    Ok(())
}

/// Whether the capacitance at a node is the stage's: that at a cell that ends it is not.
fn is_own(x: &Split<'_>, stage: usize, node: usize) -> bool
    requires stage { stage < length (heads (forest x.now)) }
    requires node { node < length x.now.problem.tree.nodes }
    ensures { result ≡ is_own x.now stage node }
{
    !x.has_cell(node) || x.is_head(stage, node)
}

/// The capacitance at a node of a stage: a cell that ends it has none in it.
fn charge_in(x: &Split<'_>, stage: usize, node: usize) -> u64
    requires stage { stage < length (heads (forest x.now)) }
    requires node { node < length x.now.problem.tree.nodes }
    ensures { result ≡ cap_in x.now stage node }
{
    if is_own(x, stage, node) {
        x.charge(node)
    } else {
        0
    }
}

/// Puts the node of a cell's pin last: the output where the stage begins there, else the input.
fn push_cell(
    x: &Split<'_>,
    stage: usize,
    node: usize,
    repeater: &Repeater,
    chars: &Chars,
    nodes: &mut Printed,
    scratch: &mut Scratch,
) -> Result<(), Memory>
    requires stage { stage < length (heads (forest x.now)) }
    requires node { node < length x.now.problem.tree.nodes }
    requires cell { is_celled x.now node ≡ true }
    requires repeater { repeater.now ≡ repeater_at x.now node }
    ensures nodes { OnOk result (nodes.new ≡ nodes.old ++ row_in chars.now x.now stage node ∷ []) }
    ensures places { scratch.new.places ≡ scratch.old.places }
{
    let old = x.old(node);
    scratch.name.clear();
    push_cell_name(x.prefix, x.number_at(node), &mut scratch.name)?;
    scratch.note.clear();
    push_note(
        x.par.nodes.note(old),
        repeater.cell.as_bytes(),
        chars,
        &mut scratch.note,
    )?;
    let pin = if x.is_head(stage, node) {
        &repeater.output
    } else {
        &repeater.input
    };
    let node = NodeText {
        owner: &scratch.name,
        leaf: pin.as_bytes(),
        inner: false,
        note: &scratch.note,
        charge: charge_in(x, stage, node),
    };
    nodes.push(&node, chars)
}

/// Puts a connection of the net last.
fn push_old(
    x: &Split<'_>,
    stage: usize,
    node: usize,
    chars: &Chars,
    nodes: &mut Printed,
) -> Result<(), Memory>
    requires stage { stage < length (heads (forest x.now)) }
    requires node { node < length x.now.problem.tree.nodes }
    requires bare { is_celled x.now node ≡ false }
    requires end { is_end x.now node ≡ true }
    ensures nodes { OnOk result (nodes.new ≡ nodes.old ++ row_in chars.now x.now stage node ∷ []) }
{
    let old = x.old(node);
    let names = &x.par.nodes;
    let node = NodeText {
        owner: names.owner(old),
        leaf: names.leaf(old),
        inner: false,
        note: names.note(old),
        charge: x.charge(node),
    };
    nodes.push(&node, chars)
}

/// Puts the node of a connection last.
fn push_end(
    x: &Split<'_>,
    stage: usize,
    node: usize,
    chars: &Chars,
    nodes: &mut Printed,
    scratch: &mut Scratch,
) -> Result<(), Memory>
    requires stage { stage < length (heads (forest x.now)) }
    requires node { node < length x.now.problem.tree.nodes }
    requires end { is_end x.now node ≡ true }
    ensures nodes { OnOk result (nodes.new ≡ nodes.old ++ row_in chars.now x.now stage node ∷ []) }
    ensures places { scratch.new.places ≡ scratch.old.places }
{
    match x.repeater_at(node) {
        Some(repeater) => push_cell(x, stage, node, repeater, chars, nodes, scratch),
        None => push_old(x, stage, node, chars, nodes),
    }
}

/// The connection of a number at a node.
fn conn_at(x: &Split<'_>, stage: usize, node: usize, number: u32) -> ParConn
    requires stage { stage < length (heads (forest x.now)) }
    requires node { node < length x.now.problem.tree.nodes }
    requires end { is_end x.now node ≡ true }
    ensures { result ≡ conn_of x.now stage node number }
{
    if !x.has_cell(node) {
        let old = x.conn(node);
        return ParConn {
            kind: old.kind,
            node: number,
            direction: old.direction,
        };
    }
    let direction = if x.is_head(stage, node) {
        Direction::Out
    } else {
        Direction::In
    };
    ParConn {
        kind: ConnKind::Pin,
        node: number,
        direction,
    }
}

/// Puts the connection at a node last, and notes its number.
fn join(
    x: &Split<'_>,
    stage: usize,
    node: usize,
    chars: &Chars,
    nodes: &mut Printed,
    conns: &mut Vec<ParConn>,
    scratch: &mut Scratch,
) -> Result<(), Memory>
    requires stage { stage < length (heads (forest x.now)) }
    requires node { node < length x.now.problem.tree.nodes }
    requires end { is_end x.now node ≡ true }
    requires few { length nodes.old < 2 ^ 32 }
    requires places { length scratch.old.places.items ≡ length x.now.problem.tree.nodes }
    ensures nodes { OnOk result (nodes.new ≡ nodes.old ++ row_in chars.now x.now stage node ∷ []) }
    ensures conns { OnOk result (conns.new.items
        ≡ conns.old.items ++ conn_of x.now stage node (length nodes.old) ∷ []) }
    ensures places { scratch.new.places.items ≡ slice_set scratch.old.places.items node (length nodes.old) }
{
    let number = nodes.len() as u32;
    scratch.places[node] = number;
    push_end(x, stage, node, chars, nodes, scratch)?;
    conns.push(conn_at(x, stage, node, number))?;
    Ok(())
}

/// Puts the connections of a stage last, in tree order, and notes their numbers.
fn push_ends(
    x: &Split<'_>,
    stage: usize,
    chars: &Chars,
    nodes: &mut Printed,
    conns: &mut Vec<ParConn>,
    scratch: &mut Scratch,
) -> Result<(), Memory>
    requires stage { stage < length (heads (forest x.now)) }
    requires places { length scratch.old.places.items ≡ length x.now.problem.tree.nodes }
    requires none { nodes.old ≡ [] }
    requires no_conns { conns.old.items ≡ [] }
    ensures places { length scratch.new.places.items ≡ length x.now.problem.tree.nodes }
    ensures nodes { OnOk result (nodes.new ≡ map (row_in chars.now x.now stage) (ends_in x.now stage)) }
    ensures conns { OnOk result (AreConns x.now stage (ends_in x.now stage) conns.new.items) }
    ensures numbered { OnOk result (AreNumbered scratch.new.places.items (ends_in x.now stage)) }
{
    'node: for node in x.members(stage) {
        let at = *node as usize;
        if x.is_end(at) {
            join(x, stage, at, chars, nodes, conns, scratch)?;
        }
    }
    Ok(())
}

/// Puts an inner node last, and notes its number. Its owner is the name that stands in the scratch.
fn push_inner(
    x: &Split<'_>,
    node: usize,
    chars: &Chars,
    nodes: &mut Printed,
    scratch: &mut Scratch,
) -> Result<(), Memory>
    requires node { node < length x.now.problem.tree.nodes }
    requires name { IsPrintable scratch.old.name.items }
    requires few { length nodes.old < 2 ^ 32 }
    requires places { length scratch.old.places.items ≡ length x.now.problem.tree.nodes }
    ensures nodes { OnOk result (nodes.new ≡ nodes.old ++ inner_row chars.now x.now scratch.old.name.items node ∷ []) }
    ensures name { scratch.new.name ≡ scratch.old.name }
    ensures places { scratch.new.places.items ≡ slice_set scratch.old.places.items node (length nodes.old) }
{
    let old = x.old(node);
    let names = &x.par.nodes;
    scratch.places[node] = nodes.len() as u32;
    let node = NodeText {
        owner: &scratch.name,
        leaf: names.leaf(old),
        inner: true,
        note: names.note(old),
        charge: x.charge(node),
    };
    nodes.push(&node, chars)
}

/// Puts the inner nodes of a stage last, in tree order, and notes their numbers. The name of the stage's net stands in
/// the scratch.
fn push_inners(
    x: &Split<'_>,
    stage: usize,
    chars: &Chars,
    nodes: &mut Printed,
    scratch: &mut Scratch,
) -> Result<(), Memory>
    requires stage { stage < length (heads (forest x.now)) }
    requires places { length scratch.old.places.items ≡ length x.now.problem.tree.nodes }
    requires ends { length nodes.old ≡ length (ends_in x.now stage) }
    requires numbered { AreNumbered scratch.old.places.items (ends_in x.now stage) }
    requires name { scratch.old.name.items ≡ net_of x.now stage }
    ensures places { length scratch.new.places.items ≡ length x.now.problem.tree.nodes }
    ensures nodes { OnOk result (nodes.new ≡ nodes.old
        ++ map (inner_row chars.now x.now (net_of x.now stage)) (inner_in x.now stage)) }
    ensures numbered { OnOk result (AreNumbered scratch.new.places.items (nodes_in x.now stage)) }
    ensures name { scratch.new.name.items ≡ net_of x.now stage }
{
    // What a split net keeps is known where a part of it is used.
    let _ = &x.par;
    'node: for node in x.members(stage) {
        let at = *node as usize;
        if !x.is_end(at) {
            push_inner(x, at, chars, nodes, scratch)?;
        }
    }
    Ok(())
}

/// The capacitance of a stage.
fn charge_of(x: &Split<'_>, stage: usize) -> u64
    requires stage { stage < length (heads (forest x.now)) }
    ensures { result ≡ total (map (cap_row x.now stage) (members (forest x.now) (head x.now stage))) }
{
    // What a split net keeps is known where a part of it is used.
    let _ = &x.par;
    let mut sum = 0u64;
    'node: for node in x.members(stage) {
        sum += charge_in(x, stage, *node as usize);
    }
    sum
}

/// Puts the numbers of a stage's nodes last, in tree order.
fn push_numbers(
    x: &Split<'_>,
    stage: usize,
    places: &[u32],
    numbers: &mut Vec<u32>,
) -> Result<(), Memory>
    requires stage { stage < length (heads (forest x.now)) }
    requires places { length places.now ≡ length x.now.problem.tree.nodes }
    requires numbered { AreNumbered places.now (nodes_in x.now stage) }
    requires none { numbers.old.items ≡ [] }
    ensures { OnOk result (numbers.new.items
        ≡ map (place_in x.now stage) (members (forest x.now) (head x.now stage))) }
{
    'node: for node in x.members(stage) {
        numbers.push(places[*node as usize])?;
    }
    Ok(())
}

/// Puts the resistors of a stage last: one above each node but the first.
fn push_ress(
    x: &Split<'_>,
    stage: usize,
    places: &[u32],
    ress: &mut Vec<(u32, u32, u64)>,
) -> Result<(), Memory>
    requires stage { stage < length (heads (forest x.now)) }
    requires places { length places.now ≡ length x.now.problem.tree.nodes }
    requires numbered { AreNumbered places.now (nodes_in x.now stage) }
    requires none { ress.old.items ≡ [] }
    ensures { OnOk result (ress.new.items
        ≡ map (res_in x.now stage) (drop 1 (members (forest x.now) (head x.now stage)))) }
{
    'node: for node in x.below(stage) {
        let at = *node as usize;
        let (above, r) = x.above(at);
        ress.push((places[above], places[at], r))?;
    }
    Ok(())
}

/// Makes the parts of a stage's net anew; its name stands in the scratch.
fn make_parts(x: &Split<'_>, stage: usize, chars: &Chars, room: &mut Room) -> Result<(), Memory>
    requires stage { stage < length (heads (forest x.now)) }
    requires places { length room.old.scratch.places.items ≡ length x.now.problem.tree.nodes }
    ensures parts { OnOk result
        (ArePrintedParts chars.now x.now stage room.new.scratch.places.items room.new.scratch.name.items room.new.nodes
        room.new.conns.items room.new.cap_nodes.items room.new.ress.items) }
    ensures places { length room.new.scratch.places.items ≡ length x.now.problem.tree.nodes }
{
    let Room {
        scratch,
        nodes,
        conns,
        cap_nodes,
        ress,
        text: _,
    } = room;
    nodes.clear();
    conns.clear();
    cap_nodes.clear();
    ress.clear();
    push_ends(x, stage, chars, nodes, conns, scratch)?;
    scratch.name.clear();
    x.push_net(stage, &mut scratch.name)?;
    push_inners(x, stage, chars, nodes, scratch)?;
    push_numbers(x, stage, &scratch.places, cap_nodes)?;
    push_ress(x, stage, &scratch.places, ress)?;
    Ok(())
}

/// Appends the section of the net of a stage of a net with cells, without a newline behind its end. The stage's net has
/// the stage's part of the parasitics: its connections, those of the net and the pins of the cells at which it begins
/// and ends; its inner nodes; the capacitance of each node, where that of a cell's node is behind the cell; and its
/// resistors, from each node's parent to the node. Capacitances and resistors stand in tree order.
///
/// Answers `Memory` where there is no room, and then `to` is as before.
pub fn write_stage(
    x: &Split<'_>,
    stage: usize,
    header: &Header,
    room: &mut Room,
    to: &mut Vec<u8>,
) -> Result<(), Memory>
    requires stage { stage < length (heads (forest x.now)) }
    requires places { length room.old.scratch.places.items ≡ length x.now.problem.tree.nodes }
    ensures said { OnOk result (SaysStage header.now x.now stage to.old.items to.new.items) }
    ensures unchanged { OnErr result (to.new.items ≡ to.old.items) }
    ensures places { length room.new.scratch.places.items ≡ length x.now.problem.tree.nodes }
{
    // What a split net keeps is known where a part of it is used.
    let _ = &x.par;
    make_parts(x, stage, &header.chars, room)?;
    let section = Section {
        name: &room.scratch.name,
        charge: charge_of(x, stage),
        nodes: &room.nodes,
        conns: &room.conns,
        cap_nodes: &room.cap_nodes,
        ress: &room.ress,
    };
    write_section(&section, header, &mut room.text, to)?;
    Ok(())
}
