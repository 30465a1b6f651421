//! The names of nodes, as texts spell them.

ghost use Rattle.std.specs.Prelude.{◌≡◌, ◌==◌, ℕ, ◌<◌, true, [], length, Some, IfSome, IsTrue};
ghost use Rattle.std.specs.List.{list_all};
ghost use Rattle.vg_scan.specs.Names.{canonical, last_bare};
ghost use Rattle.spef_file.specs.IndexFiles.{file_of};
ghost use Rattle.vg_scan.specs.Nodes.{node_of_parts};
ghost use Rattle.spef_nodes.specs.Names.{owner_in, node_in};
ghost use Rattle.spef_nodes.specs.NodeReaders.{ArePlainDigits, IsPrefix};
ghost use Rattle.spef_nodes.specs.Spellings.{is_bare, is_itself, IsUnescaped, bytes_of, named_by, Spells, SpellsNode};

use spef_file::{SpefIndex, mapped};
use std::alloc::Global;
use vg_scan::{
    Chars, Name, NameFault, index_of, is_reference, spef_name, split_node, text_at, text_from,
};

/// A name, as a text spells it.
#[derive(Drop)]
pub enum Spelled<'a> {
    /// By its own bytes, or by an index of the name map.
    Plain(&'a [u8]),
    /// With escapes, or other bytes than the name's.
    Made(Name),
}

/// A node, as a text names it.
#[derive(Drop)]
pub struct Node<'a> {
    /// The instance, the port, or the net of an inner node.
    pub owner: Spelled<'a>,
    /// The pin, or the digits of an inner node; empty for a port.
    pub leaf: Spelled<'a>,
}

impl Spelled<'_> {
    /// The bytes of the name.
    pub fn as_bytes(&self) -> &[u8]
        ensures { result.now ≡ bytes_of self.now }
    {
        match self {
            Spelled::Plain(bytes) => bytes,
            Spelled::Made(name) => name.as_bytes(),
        }
    }
}

impl Node<'_> {
    /// Whether the node has no leaf, as a port has none.
    pub fn is_port(&self) -> bool
        ensures { result ≡ (length (named_by self.now).leaf == 0) }
    {
        self.leaf.as_bytes().is_empty()
    }
}

/// Whether a byte stands for itself in a name.
fn is_itself(chars: &Chars, byte: u8) -> bool
    ensures { result ≡ is_itself chars.now byte }
{
    if byte == b'\\' || byte == b'"' {
        false
    } else if byte == chars.divider {
        byte == b'/'
    } else if byte == chars.bus_left {
        byte == b'['
    } else if byte == chars.bus_right {
        byte == b']'
    } else {
        true
    }
}

/// Whether a file writes its names with the divider and the bus delimiters that canonical names have.
fn are_usual(chars: &Chars) -> bool
    ensures { IsTrue result → (b : ℕ) → is_itself chars.now b ≡ is_bare b }
{
    chars.divider == b'/' && chars.bus_left == b'[' && chars.bus_right == b']'
}

/// Whether no byte of a text is a backslash or a quote.
fn are_bare(text: &[u8]) -> bool
    ensures { result ≡ list_all is_bare text.now }
{
    text.iter().all(|byte| *byte != b'\\' && *byte != b'"')
}

/// Whether each byte of a text stands for itself.
fn is_plain(chars: &Chars, text: &[u8]) -> bool
    ensures { result ≡ list_all (is_itself chars.now) text.now }
{
    if are_usual(chars) {
        are_bare(text)
    } else {
        text.iter().all(|byte| is_itself(chars, *byte))
    }
}

/// The canonical name of a text. Answers `Bad` where there is none, and `Memory` where there is no room.
fn canonical<'a>(alloc: Global, text: &'a [u8], chars: &Chars) -> Result<Spelled<'a>, NameFault>
    ensures { Spells result (canonical chars.now text.now) }
{
    if text.is_empty() {
        return Err(NameFault::Bad);
    }
    if is_plain(chars, text) {
        return Ok(Spelled::Plain(text));
    }
    match spef_name(alloc, text, chars) {
        Ok(name) => Ok(Spelled::Made(name)),
        Err(NameFault::Bad) => Err(NameFault::Bad),
        Err(NameFault::Memory) => Err(NameFault::Memory),
    }
}

/// The name that a text or an index stands for. Answers `Bad` where there is none, and `Memory` where there is no room.
#[tactic(auto, unfolding(crate::specs::Names::owner_in))]
fn owner_of<'a>(
    alloc: Global,
    index: &'a SpefIndex,
    text: &'a [u8],
) -> Result<Spelled<'a>, NameFault>
    ensures { Spells result (owner_in (file_of index.now) text.now) }
{
    if !is_reference(text) {
        return canonical(alloc, text, &index.header.chars);
    }
    match index_of(text) {
        None => Err(NameFault::Bad),
        Some(digits) => match mapped(index, digits) {
            None => Err(NameFault::Bad),
            Some(name) => Ok(Spelled::Plain(name)),
        },
    }
}

/// The node of a port: it has no leaf.
fn port_node<'a>(alloc: Global, index: &'a SpefIndex, text: &'a [u8]) -> Result<Node<'a>, NameFault>
    ensures { SpellsNode result (node_of_parts (owner_in (file_of index.now) text.now) (Some [])) }
{
    match owner_of(alloc, index, text) {
        Err(NameFault::Bad) => Err(NameFault::Bad),
        Err(NameFault::Memory) => Err(NameFault::Memory),
        Ok(owner) => Ok(Node {
            owner,
            leaf: Spelled::Plain(b""),
        }),
    }
}

/// The node of an owner's text and a leaf's.
fn inner_node<'a>(
    alloc: Global,
    index: &'a SpefIndex,
    owner: &'a [u8],
    leaf: &'a [u8],
) -> Result<Node<'a>, NameFault>
    ensures { SpellsNode result
        (node_of_parts (owner_in (file_of index.now) owner.now) (canonical index.now.header.chars leaf.now)) }
{
    match owner_of(alloc, index, owner) {
        Err(NameFault::Bad) => Err(NameFault::Bad),
        Err(NameFault::Memory) => Err(NameFault::Memory),
        Ok(owner) => match canonical(alloc, leaf, &index.header.chars) {
            Err(NameFault::Bad) => Err(NameFault::Bad),
            Err(NameFault::Memory) => Err(NameFault::Memory),
            Ok(leaf) => Ok(Node { owner, leaf }),
        },
    }
}

/// Where a byte stands for the last time, in a text without backslashes.
fn last_of(text: &[u8], byte: u8) -> Option<usize>
    requires { IsUnescaped text.now }
    ensures place { result ≡ last_bare byte text.now (length text.now) }
    ensures within { IfSome result (λ at. at < length text.now) }
{
    let mut end = text.len();
    'back: while end > 0 {
        if text[end - 1] == byte {
            return Some(end - 1);
        }
        end -= 1;
    }
    None
}

/// The name of an owner whose bytes stand for themselves, or of an index.
#[tactic(auto, unfolding(crate::specs::Names::owner_in))]
fn plain_owner<'a>(index: &'a SpefIndex, text: &'a [u8]) -> Result<Spelled<'a>, NameFault>
    requires { list_all (is_itself index.now.header.chars) text.now ≡ true }
    ensures { Spells result (owner_in (file_of index.now) text.now) }
{
    if !is_reference(text) {
        return plain_name(&index.header.chars, text);
    }
    match index_of(text) {
        None => Err(NameFault::Bad),
        Some(digits) => match mapped(index, digits) {
            None => Err(NameFault::Bad),
            Some(name) => Ok(Spelled::Plain(name)),
        },
    }
}

/// The name of a text whose bytes stand for themselves.
fn plain_name<'a>(chars: &Chars, text: &'a [u8]) -> Result<Spelled<'a>, NameFault>
    requires { list_all (is_itself chars.now) text.now ≡ true }
    ensures { Spells result (canonical chars.now text.now) }
{
    if text.is_empty() {
        return Err(NameFault::Bad);
    }
    Ok(Spelled::Plain(text))
}

/// The node of an owner's text and a leaf's, whose bytes stand for themselves.
fn plain_parts<'a>(
    index: &'a SpefIndex,
    owner: &'a [u8],
    leaf: &'a [u8],
) -> Result<Node<'a>, NameFault>
    requires owner { list_all (is_itself index.now.header.chars) owner.now ≡ true }
    requires leaf { list_all (is_itself index.now.header.chars) leaf.now ≡ true }
    ensures { SpellsNode result
        (node_of_parts (owner_in (file_of index.now) owner.now) (canonical index.now.header.chars leaf.now)) }
{
    match plain_owner(index, owner) {
        Err(NameFault::Bad) => Err(NameFault::Bad),
        Err(NameFault::Memory) => Err(NameFault::Memory),
        Ok(owner) => match plain_name(&index.header.chars, leaf) {
            Err(NameFault::Bad) => Err(NameFault::Bad),
            Err(NameFault::Memory) => Err(NameFault::Memory),
            Ok(leaf) => Ok(Node { owner, leaf }),
        },
    }
}

/// The node that a text names whose bytes stand for themselves.
fn plain_node<'a>(
    alloc: Global,
    index: &'a SpefIndex,
    text: &'a [u8],
) -> Result<Node<'a>, NameFault>
    requires { list_all (is_itself index.now.header.chars) text.now ≡ true }
    ensures { SpellsNode result (node_in (file_of index.now) text.now) }
{
    match last_of(text, index.header.chars.delimiter) {
        None => port_node(alloc, index, text),
        Some(at) => plain_parts(index, &text[..at], text_from(text, at + 1)),
    }
}

/// The node that a text with escapes names, or one that writes the file's own divider or bus delimiters.
fn spelled_node<'a>(
    alloc: Global,
    index: &'a SpefIndex,
    text: &'a [u8],
) -> Result<Node<'a>, NameFault>
    ensures { SpellsNode result (node_in (file_of index.now) text.now) }
{
    match split_node(text, index.header.chars.delimiter) {
        None => port_node(alloc, index, text),
        Some((owner, leaf)) => {
            inner_node(alloc, index, text_at(text, owner), text_at(text, leaf))
        }
    }
}

/// The node that a text names. Answers `Bad` where it names none, and `Memory` where there is no room.
pub fn read_node<'a>(
    alloc: Global,
    index: &'a SpefIndex,
    text: &'a [u8],
) -> Result<Node<'a>, NameFault>
    ensures { SpellsNode result (node_in (file_of index.now) text.now) }
{
    if is_plain(&index.header.chars, text) {
        plain_node(alloc, index, text)
    } else {
        spelled_node(alloc, index, text)
    }
}

/// Whether digits stand for themselves and none is the delimiter.
fn are_digits_plain(chars: &Chars) -> bool
    ensures { IsTrue result → ArePlainDigits chars.now }
{
    !chars.delimiter.is_ascii_digit()
        && !chars.divider.is_ascii_digit()
        && !chars.bus_left.is_ascii_digit()
        && !chars.bus_right.is_ascii_digit()
}

/// Whether a text is the net's name, or an index of it.
fn is_name_of(index: &SpefIndex, text: &[u8], net: &[u8]) -> bool
    requires { list_all (is_itself index.now.header.chars) text.now ≡ true }
    ensures { IsTrue result → owner_in (file_of index.now) text.now ≡ Some net.now }
{
    match plain_owner(index, text) {
        Err(_) => false,
        Ok(owner) => owner.as_bytes() == net,
    }
}

/// What stands before the leaf in the text of a net's inner node. Empty: the text is none that begins so plainly.
pub(crate) fn prefix_of<'a>(index: &SpefIndex, net: &[u8], text: &'a [u8]) -> &'a [u8]
    ensures { IsPrefix (file_of index.now) net.now result.now }
{
    let chars = &index.header.chars;
    if !is_plain(chars, text) {
        return b"";
    }
    if !are_digits_plain(chars) {
        return b"";
    }
    match last_of(text, chars.delimiter) {
        None => b"",
        Some(at) => {
            if is_name_of(index, &text[..at], net) {
                &text[..at + 1]
            } else {
                b""
            }
        }
    }
}
