//! The connections of a section, before its lines are read in order.

ghost use Rattle.std.specs.Prelude.{◌≡◌, ◌∷◌, ◌<◌, ◌≤◌, ◌^◌, ℕ, codes, false, None, IfOk, OnOk, length};
ghost use Rattle.memchr.specs.Find.{OccursAt};
ghost use Rattle.std.specs.Str.Lines.{lines};
ghost use Rattle.spef_file.specs.IndexFiles.{file_of};
ghost use Rattle.spef_net.specs.Statements.{statement_of, statements, conn_line};
ghost use Rattle.spef_net.specs.Rows.{connected_of, joined_in};
ghost use Rattle.vg_scan.specs.Lines.{words};
ghost use Rattle.spef_net.specs.Lines.{head_of};
ghost use Rattle.spef_nodes.specs.Members.{distinct};
ghost use Rattle.spef_net.specs.Connections.{connections_in};
ghost use Rattle.spef_net.specs.Connections.{Gathers, is_conns, is_memory, with_joined};

use crate::conn_line::{ConnLine, read_conn};
use crate::fault::NetKind;
use crate::line::head_of;
use crate::part::Part;
use memchr::memmem;
use spef_file::SpefIndex;
use spef_nodes::{NodeReader, NodeTable};
use std::alloc::Global;
use vg_num::Memory;
use vg_scan::{Words, next_line, text_at, text_from};

fn is_conns(part: Part) -> bool
    ensures { result ≡ is_conns part }
{
    matches!(part, Part::Conns)
}

fn is_memory(kind: NetKind) -> bool
    ensures { result ≡ is_memory kind }
{
    matches!(kind, NetKind::Memory)
}

/// The node of a line of connections, where it is a connection, which the nodes are to hold.
fn gather_conn(
    alloc: Global,
    index: &SpefIndex,
    line: &[u8],
    tag: &[u8],
    words: Words,
    nodes: &mut NodeTable,
) -> Result<(), Memory>
    ensures { OnOk result (nodes.new
        ≡ with_joined nodes.old (joined_in (conn_line (file_of index.now) line.now (tag.now ∷ words.entry)))) }
{
    match read_conn(alloc, index, line, tag, words) {
        Ok(ConnLine::Joins(_, _, node)) => {
            nodes.intern(node.owner.as_bytes(), node.leaf.as_bytes())?;
            Ok(())
        }
        Ok(ConnLine::Stars(_)) => Ok(()),
        Err(kind) => {
            if is_memory(kind) {
                return Err(Memory);
            }
            Ok(())
        }
    }
}

/// Whether a line's first byte is a blank or a `*`, so that it may be a head.
fn may_be_head(line: &[u8]) -> bool
    ensures { result ≡ false → head_of (words line.now) ≡ None }
{
    if line.is_empty() {
        return false;
    }
    if line[0] == b'*' {
        return true;
    }
    if line[0] == b' ' {
        return true;
    }
    line[0] == b'\t'
}

/// The part that is open after a line, and its node where it is a connection, which the nodes are to hold.
fn gather_line(
    alloc: Global,
    index: &SpefIndex,
    part: Part,
    line: &[u8],
    nodes: &mut NodeTable,
) -> Result<Part, Memory>
    ensures { Gathers result nodes.old nodes.new part (statement_of (file_of index.now) part line.now) }
{
    if !is_conns(part) && !may_be_head(line) {
        return Ok(part);
    }
    let mut words = Words::new(line);
    let Some(first) = words.next() else {
        return Ok(part);
    };
    if let Some(opened) = head_of(first, &words) {
        return Ok(opened);
    }
    if !is_conns(part) {
        return Ok(part);
    }
    gather_conn(alloc, index, line, first, words, nodes)?;
    Ok(part)
}

/// Whether a head of connections may stand in a text.
fn may_connect(bytes: &[u8]) -> bool
    ensures { result ≡ false → (k : ℕ) → OccursAt bytes.now (codes "*CONN") k → ⊥ }
{
    match memmem::find(bytes, b"*CONN") {
        None => false,
        Some(_) => true,
    }
}

/// A table for the nodes of a section: so many bytes have at most about so many nodes.
fn slots_for(bytes: usize) -> usize
    requires { bytes ≤ 2 ^ 28 }
    ensures { (0 < result) × (result ≤ 2 ^ 32) }
{
    let mut slots = 64usize;
    'double: while slots < bytes / 64 {
        slots *= 2;
    }
    slots
}

/// The nodes of a section's connections, each once, in a table of so many slots.
fn find_connections(
    alloc: Global,
    index: &SpefIndex,
    bytes: &[u8],
    slots: usize,
) -> Result<NodeTable, Memory>
    requires length { length bytes.now ≤ 2 ^ 28 }
    requires slots { (0 < slots) × (slots ≤ 2 ^ 32) }
    ensures { IfOk result (λ nodes.
        nodes ≡ distinct (connected_of (statements (file_of index.now) (lines bytes.now)))) }
{
    let mut nodes = NodeTable::new(alloc, slots)?;
    let mut part = Part::Nowhere;
    let mut at = 0usize;
    'line: while let Some((line, next)) = next_line(bytes, at) {
        let text = text_at(bytes, line);
        let opened = gather_line(alloc, index, part, text, &mut nodes)?;
        if is_conns(part) && !is_conns(opened) && !may_connect(text_from(bytes, next)) {
            return Ok(nodes);
        }
        part = opened;
        at = next;
    }
    Ok(nodes)
}

/// The reader of a net's nodes, which has those of its connections.
pub(crate) fn read_connections<'a>(
    alloc: Global,
    index: &'a SpefIndex,
    net: &'a [u8],
    bytes: &[u8],
) -> Result<NodeReader<'a>, Memory>
    requires { length bytes.now ≤ 2 ^ 28 }
    ensures { IfOk result (λ reader. reader ≡ connections_in (file_of index.now) net.now (lines bytes.now)) }
{
    let slots = slots_for(bytes.len());
    let nodes = find_connections(alloc, index, bytes, slots)?;
    let reader = NodeReader::new(alloc, index, net, nodes, slots)?;
    Ok(reader)
}
