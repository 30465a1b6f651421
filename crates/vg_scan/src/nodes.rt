//! The names of ports and nodes.

ghost use Rattle.std.specs.Prelude.{◌≡◌, Some, None, Err, IfOk};
ghost use Rattle.vg_scan.specs.Names.{canonical};
ghost use Rattle.vg_scan.specs.Nodes.{node_of_parts, node_with, port_of, inner_of, node_of};

use crate::chars::Chars;
use crate::fault::NameFault;
use crate::lines::text_at;
use crate::name::{Name, NodeName};
use crate::spef::{spef_name, split_node};
use std::alloc::Global;

/// The name of a port: a text with no unescaped delimiter.
///
/// Answers `Bad` where the text is no such name, and `Memory` where there is no room.
pub fn port_name(alloc: Global, text: &[u8], chars: &Chars) -> Result<Name, NameFault>
    ensures name { IfOk result (λ name. port_of chars.now text.now ≡ Some name) }
    ensures bad { result ≡ Err NameFault.Bad → port_of chars.now text.now ≡ None }
{
    match split_node(text, chars.delimiter) {
        None => spef_name(alloc, text, chars),
        Some(_) => Err(NameFault::Bad),
    }
}

/// The name of an owner and its leaf, from the text of each.
fn parted_name(
    alloc: Global,
    owner: &[u8],
    leaf: &[u8],
    chars: &Chars,
) -> Result<NodeName, NameFault>
    ensures name { IfOk result (λ name.
        node_of_parts (canonical chars.now owner.now) (canonical chars.now leaf.now) ≡ Some name) }
    ensures bad { result ≡ Err NameFault.Bad
        → node_of_parts (canonical chars.now owner.now) (canonical chars.now leaf.now) ≡ None }
{
    let owner = spef_name(alloc, owner, chars)?;
    let leaf = spef_name(alloc, leaf, chars)?;
    Ok(NodeName { owner, leaf })
}

/// The name of a node inside an instance or a net: an owner, the last unescaped delimiter, and a leaf.
///
/// Answers `Bad` where the text is no such name, and `Memory` where there is no room.
pub fn inner_name(alloc: Global, text: &[u8], chars: &Chars) -> Result<NodeName, NameFault>
    ensures name { IfOk result (λ name. inner_of chars.now text.now ≡ Some name) }
    ensures bad { result ≡ Err NameFault.Bad → inner_of chars.now text.now ≡ None }
{
    match split_node(text, chars.delimiter) {
        None => Err(NameFault::Bad),
        Some((owner, leaf)) => parted_name(alloc, text_at(text, owner), text_at(text, leaf), chars),
    }
}

/// The name of a port, as an owner with an empty leaf.
fn bare_name(alloc: Global, text: &[u8], chars: &Chars) -> Result<NodeName, NameFault>
    ensures name { IfOk result (λ name. node_with chars.now text.now None ≡ Some name) }
    ensures bad { result ≡ Err NameFault.Bad → node_with chars.now text.now None ≡ None }
{
    let owner = spef_name(alloc, text, chars)?;
    Ok(NodeName {
        owner,
        leaf: Name::from_vec(Vec::new(alloc)),
    })
}

/// The name of a port or of a node inside, as `port_name` and `inner_name` read them; a port's leaf is empty.
///
/// Answers `Bad` where the text is no such name, and `Memory` where there is no room.
pub fn node_name(alloc: Global, text: &[u8], chars: &Chars) -> Result<NodeName, NameFault>
    ensures name { IfOk result (λ name. node_of chars.now text.now ≡ Some name) }
    ensures bad { result ≡ Err NameFault.Bad → node_of chars.now text.now ≡ None }
{
    match split_node(text, chars.delimiter) {
        None => bare_name(alloc, text, chars),
        Some((owner, leaf)) => parted_name(alloc, text_at(text, owner), text_at(text, leaf), chars),
    }
}
