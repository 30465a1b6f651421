//! The tree of a net of a SPEF file.

ghost use Rattle.std.specs.Prelude.{◌≡◌, length, IfOk, IfErr};
ghost use Rattle.spef_file.specs.Indexes.{IsIndexOf};
ghost use Rattle.spef_net.specs.Sections.{IsSized};
ghost use Rattle.spef_wire.specs.Nets.{IsNetNamed, IsRefusedBelow};
ghost use Rattle.spef_wire.specs.Refusals.{IsDrivenAt, IsNetTree, PassesUpTo};
ghost use Rattle.spef_wire.specs.Steps.{IsRefusedFirst, IsNoTree};
ghost use Rattle.spef_wire.specs.Wires.{IsTreeNamed};

use crate::ends::{driver_of, has_sink};
use crate::refusal::{Refusal, Refused};
use elmore::Tree;
use rc_tree::{Built, TreeFault, build};
use spef_file::{SpefIndex, SpefText, net_at};
use spef_net::{NetKind, ParNet, read_net};
use std::alloc::Global;
use vg_num::Row;
use vg_scan::Name;

/// A net with its tree.
#[derive(Drop)]
pub struct NetTree {
    pub net: ParNet,
    /// The tree, breadth first from the driver's node.
    pub tree: Tree,
    /// For each node of the tree its number in the net.
    pub order: Row<u32>,
}

/// The net of a name in a SPEF file (IEEE Std 1481), or why it is refused: the file has no such net, or the net's lines
/// have a fault.
///
/// `index` is the index of the file's text. Answers `Memory` where there is no room.
pub fn named_net(
    alloc: Global,
    spef: &SpefText,
    index: &SpefIndex,
    name: &Name,
) -> Result<ParNet, Refused>
    requires { IsIndexOf spef.now index.now }
    ensures net { IfOk result (IsNetNamed spef.now name.now) }
    ensures sized { IfOk result IsSized }
    ensures refused { IfErr result (IsRefusedBelow 3 spef.now name.now) }
{
    let Some(at) = net_at(index, name) else {
        return Err(Refused::Net(Refusal::UnknownNet));
    };
    match read_net(alloc, spef, index, at) {
        Ok(net) => Ok(net),
        Err(fault) => match fault.kind {
            NetKind::Memory => Err(Refused::Memory),
            _ => Err(Refused::Net(Refusal::Section(fault))),
        },
    }
}

/// The refusal of a net whose resistors are no tree.
fn refusal_of(alloc: Global, net: &ParNet, fault: TreeFault) -> Refused
    requires fault { IsNoTree net.now fault }
    requires accepted { PassesUpTo 12 net.now }
    ensures { IsRefusedFirst 14 net.now result }
{
    match fault {
        TreeFault::Floating(node) => {
            match net.nodes.name(alloc, node as usize) {
                Ok(name) => Refused::Net(Refusal::Floating(name)),
                Err(_) => Refused::Memory,
            }
        }
        TreeFault::Loop => Refused::Net(Refusal::Loop),
        TreeFault::Memory => Refused::Memory,
    }
}

/// The tree of a net that one connection drives, at this node, or the first of the reasons 12 to 14 against it.
///
/// Answers `Memory` where there is no room.
pub fn tree_from(alloc: Global, net: &ParNet, root: u32) -> Result<Built, Refused>
    requires sized { IsSized net.now }
    requires driven { IsDrivenAt net.now root }
    requires accepted { PassesUpTo 12 net.now }
    ensures tree { IfOk result (λ built. IsNetTree net.now built.tree.nodes built.order) }
    ensures accepted { IfOk result (λ _. PassesUpTo 15 net.now) }
    ensures refused { IfErr result (IsRefusedFirst 15 net.now) }
{
    let caps = net.caps.as_slice();
    let ress = net.ress.as_slice();
    match build(alloc, net.nodes.len(), root, caps, ress) {
        Err(fault) => Err(refusal_of(alloc, net, fault)),
        Ok(built) => {
            if has_sink(net.conns.as_slice()) {
                Ok(built)
            } else {
                Err(Refused::Net(Refusal::NoSink))
            }
        }
    }
}

/// The tree of a net.
fn tree_of(alloc: Global, net: &ParNet) -> Result<Built, Refused>
    requires { IsSized net.now }
    ensures tree { IfOk result (λ built. IsNetTree net.now built.tree.nodes built.order) }
    ensures accepted { IfOk result (λ _. PassesUpTo 15 net.now) }
    ensures refused { IfErr result (IsRefusedFirst 15 net.now) }
{
    match driver_of(net) {
        Err(refusal) => Err(Refused::Net(refusal)),
        Ok(driver) => tree_from(alloc, net, driver.node),
    }
}

/// The net of a name in a SPEF file (IEEE Std 1481), with its tree.
///
/// `index` is the index of the file's text. A net is refused by the first reason of `Refusal` that holds, but for
/// `TooLarge`. Answers `Memory` where there is no room.
pub fn net_tree(
    alloc: Global,
    spef: &SpefText,
    index: &SpefIndex,
    net: &Name,
) -> Result<NetTree, Refused>
    requires { IsIndexOf spef.now index.now }
    ensures tree { IfOk result (λ found. IsTreeNamed spef.now net.now found.net found.tree.nodes found.order) }
    ensures sized { IfOk result (λ found. IsSized found.net) }
    ensures refused { IfErr result (IsRefusedBelow 15 spef.now net.now) }
{
    let net = named_net(alloc, spef, index, net)?;
    let built = tree_of(alloc, &net)?;
    Ok(NetTree {
        net,
        tree: built.tree,
        order: built.order,
    })
}
