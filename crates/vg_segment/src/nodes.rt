//! Nodes that are put together.

ghost use Rattle.std.specs.Prelude.{◌≡◌, ◌≢◌, ℕ, ◌+◌, ◌<◌, ◌≤◌, ◌++◌, [], ◌∷◌, true, length, map, IfOk, OnOk};
ghost use Rattle.spef_nodes.specs.Nodes.{fresh, note_at};
ghost use Rattle.vg_segment.specs.Segments.{new_node};
ghost use Rattle.vg_segment.specs.NodeLists.{listed, IsReady, IsNotedAs};

use itoa::Buffer;
use name_tables::Texts;
use spef_net::ParNet;
use spef_nodes::{Nodes, Notes};
use std::alloc::Global;
use vg_num::Memory;

/// The owners, leaves and notes of nodes so far.
#[derive(Drop)]
pub(crate) struct NodeList {
    owners: Texts,
    leaves: Texts,
    notes: Notes,
}

/// Notes what a node has: whether it is inner, and its note.
fn set_note(notes: &mut Notes, at: u32, inner: bool, text: &[u8]) -> Result<(), Memory>
    requires { note_at notes.old at ≡ fresh }
    ensures here { OnOk result (IsNotedAs (note_at notes.new at) inner text.now) }
    ensures others { OnOk result ((i : ℕ) → i ≢ at → note_at notes.new i ≡ note_at notes.old i) }
{
    if !inner {
        notes.join(at, text)
    } else if text.is_empty() {
        Ok(())
    } else {
        notes.star(at, text)
    }
}

impl NodeList {
    /// Puts a node last.
    fn push(&mut self, owner: &[u8], leaf: &[u8], inner: bool, note: &[u8]) -> Result<(), Memory>
        requires ready { IsReady self.old }
        requires few { length self.old.owners < 65536 }
        ensures ready { OnOk result (IsReady self.new) }
        ensures count { OnOk result (length self.new.owners ≡ length self.old.owners + 1) }
        ensures last { OnOk result (listed self.new
            ≡ listed self.old
            ++ record { name = record { owner = owner.now; leaf = leaf.now }; inner = inner; note = note.now } ∷ []) }
    {
        let at = self.owners.len() as u32;
        self.owners.push(owner)?;
        self.leaves.push(leaf)?;
        set_note(&mut self.notes, at, inner, note)?;
        Ok(())
    }
}

/// The nodes of a net, in memory of their own.
fn copy_nodes(alloc: Global, net: &ParNet) -> Result<NodeList, Memory>
    requires { length net.now.nodes ≤ 65536 }
    ensures ready { IfOk result IsReady }
    ensures nodes { IfOk result (λ list. listed list ≡ net.now.nodes) }
    ensures count { IfOk result (λ list. length list.owners ≡ length net.now.nodes) }
{
    let mut list = NodeList {
        owners: Texts::new(alloc),
        leaves: Texts::new(alloc),
        notes: Notes::new(alloc),
    };
    let nodes = &net.nodes;
    'node: for at in 0..nodes.len() {
        list.push(
            nodes.owner(at),
            nodes.leaf(at),
            nodes.is_inner(at),
            nodes.note(at),
        )?;
    }
    Ok(list)
}

/// Puts the new nodes of these leaves last.
fn push_new(list: &mut NodeList, net: &[u8], leaves: &[u32]) -> Result<(), Memory>
    requires ready { IsReady list.old }
    requires few { length list.old.owners + length leaves.now ≤ 65536 }
    ensures { OnOk result (listed list.new ≡ listed list.old ++ map (new_node net.now) leaves.now) }
{
    let mut digits = Buffer::new();
    'leaf: for leaf in leaves {
        list.push(net, digits.format(*leaf).as_bytes(), true, b"")?;
    }
    Ok(())
}

/// The nodes of a net, and new ones of these leaves.
pub(crate) fn cut_nodes(alloc: Global, net: &ParNet, leaves: &[u32]) -> Result<Nodes, Memory>
    requires { length net.now.nodes + length leaves.now ≤ 65536 }
    ensures { IfOk result (λ nodes. nodes ≡ net.now.nodes ++ map (new_node net.now.name) leaves.now) }
{
    let mut list = copy_nodes(alloc, net)?;
    push_new(&mut list, net.name.as_bytes(), leaves)?;
    Ok(Nodes::new(list.owners, list.leaves, list.notes))
}
