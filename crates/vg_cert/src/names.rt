//! The names of nodes and cells.

ghost use Rattle.std.specs.Prelude.{◌≡◌, ◌≤◌, ◌<◌, ◌++◌, ◌∷◌, [], cond, drop, length, IfOk, OnOk};
ghost use Rattle.std.specs.List.{AllPairs};
ghost use Rattle.std.specs.Str.{bytes_eq};
ghost use Rattle.vg_scan.specs.declared.name.NodeName.{NodeName as Node};
ghost use Rattle.vg_cert.specs.Names.{escaped, node_text, is_marked, marks, node_named as node_of_word, cell_named as cell_of_word};
ghost use Rattle.vg_cert.specs.Readings.{IsFound};

use vg_num::Memory;
use vg_scan::{Name, NodeName};

/// Appends a byte of a name, with a backslash before a colon or a backslash.
fn print_byte(byte: u8, to: &mut Vec<u8>) -> Result<(), Memory>
    ensures { OnOk result (to.new.items ≡ to.old.items ++ marks byte) }
{
    if byte == b':' || byte == b'\\' {
        to.push(b'\\')?;
    }
    to.push(byte)?;
    Ok(())
}

/// Appends a name with a backslash before each colon and backslash.
fn print_escaped(name: &[u8], to: &mut Vec<u8>) -> Result<(), Memory>
    ensures { OnOk result (to.new.items ≡ to.old.items ++ escaped name.now) }
{
    'byte: for byte in name {
        print_byte(*byte, to)?;
    }
    Ok(())
}

/// Appends a node's name: `owner:leaf`, or `owner` where the leaf is empty.
pub(crate) fn print_node(node: &NodeName, to: &mut Vec<u8>) -> Result<(), Memory>
    ensures { OnOk result (to.new.items ≡ to.old.items ++ node_text node.now) }
{
    print_escaped(node.owner.as_bytes(), to)?;
    let leaf = node.leaf.as_bytes();
    if !leaf.is_empty() {
        to.push(b':')?;
        print_escaped(leaf, to)?;
    }
    Ok(())
}

/// Whether a word is how the node is written. The list is to hold that.
pub(crate) fn is_node_text(node: &NodeName, word: &[u8], text: &mut Vec<u8>) -> Result<bool, Memory>
    ensures { IfOk result (λ same. same ≡ bytes_eq (node_text node.now) word.now) }
{
    text.clear();
    print_node(node, text)?;
    Ok(text.as_slice() == word)
}

/// The first of some nodes, from one of them on, that the word names.
fn find_node(
    nodes: &[NodeName],
    from: usize,
    word: &[u8],
    text: &mut Vec<u8>,
) -> Result<Option<usize>, Memory>
    requires { from ≤ length nodes.now }
    ensures { IfOk result (IsFound nodes.now from word.now) }
{
    'node: for v in from..nodes.len() {
        if is_node_text(&nodes[v], word, text)? {
            return Ok(Some(v));
        }
    }
    Ok(None)
}

/// The node that a word names: looked for from this one on, and then from the first one on.
pub(crate) fn node_named(
    nodes: &[NodeName],
    next: usize,
    word: &[u8],
    text: &mut Vec<u8>,
) -> Result<Option<usize>, Memory>
    requires differ { AllPairs (λ (a b : Node). a ≡ b → ⊥) nodes.now }
    requires next { next ≤ length nodes.now }
    ensures { IfOk result (λ found. found ≡ node_of_word nodes.now word.now) }
{
    match find_node(nodes, next, word, text)? {
        Some(v) => Ok(Some(v)),
        None => find_node(nodes, 0, word, text),
    }
}

/// The cell that a word names.
pub(crate) fn cell_named(cells: &[Name], word: &[u8]) -> Option<usize>
    ensures { result ≡ cell_of_word cells.now word.now }
{
    cells.iter().position(|cell| cell.as_bytes() == word)
}
