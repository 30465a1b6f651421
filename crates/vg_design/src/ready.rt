//! A net with its tree, past all reasons against it but those of the constraints and the limits.

ghost use Rattle.std.specs.Prelude.{◌≡◌, ◌<◌, ◌∷◌, [], true, length, IfOk, IfErr};
ghost use Rattle.std.specs.List.{All, list_any};
ghost use Rattle.spef_net.specs.Sections.{IsSized};
ghost use Rattle.spef_wire.specs.Refusals.{drivers_of, is_sink, IsNetTree, PassesUpTo as PassesWire};
ghost use Rattle.vg_design.specs.Nets.{names_of};
ghost use Rattle.vg_design.specs.Steps.{ArePins, IsAccepted, IsHeldBelow, IsReady, IsRefusedBelow, PassesNet};

use crate::connected::is_connected;
use crate::design::Design;
use crate::ends::pins_of;
use crate::joined::{JoinedNet, driver_in, joined_net};
use crate::names::TreeNames;
use crate::parts::name_of;
use crate::pins::PinnedNet;
use elmore::Tree;
use rc_tree::Built;
use spef_net::ParConn;
use spef_wire::{Refusal, Refused, tree_from};
use std::alloc::Global;
use vg_num::Row;
use vg_scan::Name;

/// A net with its tree.
pub struct ReadyNet {
    pub pinned: PinnedNet,
    /// The tree, breadth first from the driver's node.
    pub tree: Tree,
    /// For each node of the tree its number in the net.
    pub order: Row<u32>,
}

impl Drop for ReadyNet {
    // Written out, so that it is one step in the proof of whoever drops it.
    fn drop(self) {
        let ReadyNet {
            pinned: _pinned,
            tree: _tree,
            order: _order,
        } = self;
    }
}

impl ReadyNet {
    /// The names of the nodes of the tree.
    pub fn into_names(self) -> TreeNames
        requires { All (λ v. v < length self.pinned.net.par.nodes) self.order }
        ensures { result ≡ names_of self.pinned.net.par self.order }
    {
        let ReadyNet {
            pinned,
            tree: _tree,
            order,
        } = self;
        TreeNames {
            nodes: pinned.into_par().nodes,
            order,
        }
    }
}

/// A net with the pins that its connections are, or why it is refused: its connections are not its ends in the netlist.
fn pinned_net(alloc: Global, design: &Design, net: JoinedNet) -> Result<PinnedNet, Refused>
    requires within { net.id < length design.now.netlist.nets }
    requires accepted { PassesNet 8 design.now net }
    ensures net { IfOk result (λ pinned. pinned.net ≡ net) }
    ensures pins { IfOk result (λ pinned. ArePins design.now net pinned.pins) }
    ensures accepted { IfOk result (λ _. PassesNet 9 design.now net) }
    ensures refused { IfErr result (IsHeldBelow 9 design.now net) }
{
    let Some(pins) = pins_of(alloc, design, &net)? else {
        return Err(Refused::Net(Refusal::Mismatch));
    };
    if !is_connected(design, &net, &pins) {
        return Err(Refused::Net(Refusal::Mismatch));
    }
    Ok(PinnedNet {
        net,
        pins: Row::from_vec(pins),
    })
}

/// Whether the netlist and the library have what a net needs that this connection drives, or the first reason against
/// it.
fn check_pins(
    alloc: Global,
    design: &Design,
    pinned: &PinnedNet,
    driver: &ParConn,
) -> Result<(), Refused>
    requires within { pinned.now.net.id < length design.now.netlist.nets }
    requires pins { ArePins design.now pinned.now.net pinned.now.pins }
    requires driver { drivers_of pinned.now.net.par ≡ driver.now ∷ [] }
    requires accepted { PassesNet 9 design.now pinned.now.net }
    ensures accepted { IfOk result (λ _. PassesNet 12 design.now pinned.now.net) }
    ensures refused { IfErr result (IsHeldBelow 12 design.now pinned.now.net) }
{
    if design.is_tied(pinned.net.id) {
        return Err(Refused::Net(Refusal::Tied));
    }
    if pinned.is_without_drive(design, driver) {
        return Err(Refused::Net(Refusal::NoDrive));
    }
    if let Some(sink) = pinned.first_unloaded(design) {
        let sink = name_of(alloc, &pinned.net.par, sink.node)?;
        return Err(Refused::Net(Refusal::NoLoad(sink)));
    }
    Ok(())
}

/// The tree of a net that this connection drives, or the first reason against it.
fn tree_of(
    alloc: Global,
    design: &Design,
    pinned: &PinnedNet,
    driver: &ParConn,
) -> Result<Built, Refused>
    requires sized { IsSized pinned.now.net.par }
    requires driver { drivers_of pinned.now.net.par ≡ driver.now ∷ [] }
    requires wire { PassesWire 12 pinned.now.net.par }
    requires accepted { PassesNet 12 design.now pinned.now.net }
    ensures tree { IfOk result (λ built. IsNetTree pinned.now.net.par built.tree.nodes built.order) }
    ensures sink { IfOk result (λ _. list_any is_sink pinned.now.net.par.conns ≡ true) }
    ensures accepted { IfOk result (λ _. PassesNet 15 design.now pinned.now.net) }
    ensures refused { IfErr result (IsHeldBelow 15 design.now pinned.now.net) }
{
    let built = tree_from(alloc, &pinned.net.par, driver.node)?;
    Ok(built)
}

/// A net with its tree, or the first reason against it, but for those of the constraints and the limits.
fn ready_from(alloc: Global, design: &Design, net: JoinedNet) -> Result<ReadyNet, Refused>
    requires within { net.id < length design.now.netlist.nets }
    requires sized { IsSized net.par }
    ensures net { IfOk result (λ ready. ready.pinned.net ≡ net) }
    ensures ready { IfOk result (λ ready. IsReady design.now net ready.pinned.pins ready.tree.nodes ready.order) }
    ensures accepted { IfOk result (λ _. PassesNet 15 design.now net) }
    ensures refused { IfErr result (IsHeldBelow 15 design.now net) }
{
    match driver_in(design, &net) {
        Err(refusal) => Err(Refused::Net(refusal)),
        Ok(driver) => {
            let pinned = pinned_net(alloc, design, net)?;
            check_pins(alloc, design, &pinned, &driver)?;
            let built = tree_of(alloc, design, &pinned, &driver)?;
            Ok(ReadyNet {
                pinned,
                tree: built.tree,
                order: built.order,
            })
        }
    }
}

/// The net of a name with its tree, or the first reason against it, but for those of the constraints and the limits.
/// Answers `Memory` where there is no room.
pub fn ready_net(alloc: Global, design: &Design, name: &Name) -> Result<ReadyNet, Refused>
    ensures ready { IfOk result (λ ready.
        IsReady design.now ready.pinned.net ready.pinned.pins ready.tree.nodes ready.order) }
    ensures accepted { IfOk result (λ ready. IsAccepted 15 design.now name.now ready.pinned.net) }
    ensures refused { IfErr result (IsRefusedBelow 15 design.now name.now) }
{
    let net = joined_net(alloc, design, name)?;
    let ready = ready_from(alloc, design, net)?;
    Ok(ready)
}
