//! Lines of connections.

ghost use Rattle.std.specs.Prelude.{◌≡◌, ◌∷◌, Some};
ghost use Rattle.spef_file.specs.IndexFiles.{file_of};
ghost use Rattle.spef_net.specs.Lines.{note_after};
ghost use Rattle.spef_net.specs.Statements.{direction_in, is_at, connected, connection, star, conn_line};
ghost use Rattle.spef_nodes.specs.Spellings.{named_by};
ghost use Rattle.spef_net.specs.ConnLines.{Tells};

use crate::fault::NetKind;
use crate::net::{ConnKind, Direction};
use spef_file::SpefIndex;
use spef_nodes::{Node, read_node};
use std::alloc::Global;
use vg_scan::{NameFault, Words};

/// What a line of connections says, but for its note.
#[derive(Drop)]
pub(crate) enum ConnLine<'a> {
    /// The node is a connection.
    Joins(ConnKind, Direction, Node<'a>),
    /// The node is inside the net.
    Stars(Node<'a>),
}

fn direction_in(word: &[u8]) -> Option<Direction>
    ensures { result ≡ direction_in word.now }
{
    if word == b"I".as_slice() {
        Some(Direction::In)
    } else if word == b"O".as_slice() {
        Some(Direction::Out)
    } else if word == b"B".as_slice() {
        Some(Direction::Both)
    } else {
        None
    }
}

fn is_at(kind: ConnKind, node: &Node) -> bool
    ensures { result ≡ is_at kind (named_by node.now) }
{
    match kind {
        ConnKind::Pin => !node.is_port(),
        ConnKind::Port => node.is_port(),
    }
}

/// A connection of this node.
fn joins<'a>(
    kind: ConnKind,
    line: &[u8],
    node: Node<'a>,
    direction: Option<Direction>,
) -> Result<ConnLine<'a>, NetKind>
    ensures { Tells result line.now (connected kind (note_after 3 line.now) (Some (named_by node.entry)) direction) }
{
    match direction {
        None => Err(NetKind::Conn),
        Some(direction) => {
            if is_at(kind, &node) {
                Ok(ConnLine::Joins(kind, direction, node))
            } else {
                Err(NetKind::Conn)
            }
        }
    }
}

/// A connection, from the words after the first.
fn connection<'a>(
    alloc: Global,
    index: &'a SpefIndex,
    kind: ConnKind,
    line: &'a [u8],
    mut words: Words<'a>,
) -> Result<ConnLine<'a>, NetKind>
    ensures { Tells result line.now (connection (file_of index.now) kind line.now words.entry) }
{
    let (Some(node), Some(direction)) = (words.next(), words.next()) else {
        return Err(NetKind::Conn);
    };
    match read_node(alloc, index, node) {
        Err(NameFault::Bad) => Err(NetKind::Conn),
        Err(NameFault::Memory) => Err(NetKind::Memory),
        Ok(node) => joins(kind, line, node, direction_in(direction)),
    }
}

/// A node inside the net, from the words after the first.
fn star<'a>(
    alloc: Global,
    index: &'a SpefIndex,
    line: &'a [u8],
    mut words: Words<'a>,
) -> Result<ConnLine<'a>, NetKind>
    ensures { Tells result line.now (star (file_of index.now) line.now words.entry) }
{
    let Some(node) = words.next() else {
        return Err(NetKind::Conn);
    };
    match read_node(alloc, index, node) {
        Err(NameFault::Bad) => Err(NetKind::Conn),
        Err(NameFault::Memory) => Err(NetKind::Memory),
        Ok(node) => Ok(ConnLine::Stars(node)),
    }
}

/// A line of connections, by its first word and the others, but for its note.
///
/// Answers `Conn` where its form or its name is no such line's, and `Memory` where there is no room.
#[tactic(auto, unfolding(crate::specs::Statements::conn_line))]
pub(crate) fn read_conn<'a>(
    alloc: Global,
    index: &'a SpefIndex,
    line: &'a [u8],
    tag: &[u8],
    words: Words<'a>,
) -> Result<ConnLine<'a>, NetKind>
    ensures { Tells result line.now (conn_line (file_of index.now) line.now (tag.now ∷ words.entry)) }
{
    if tag == b"*I".as_slice() {
        return connection(alloc, index, ConnKind::Pin, line, words);
    }
    if tag == b"*P".as_slice() {
        return connection(alloc, index, ConnKind::Port, line, words);
    }
    if tag == b"*N".as_slice() {
        return star(alloc, index, line, words);
    }
    Err(NetKind::Conn)
}
