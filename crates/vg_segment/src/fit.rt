//! Whether a net can have its resistors cut.

ghost use Rattle.std.specs.Prelude.{◌≡◌, ◌≤◌, ◌<◌, ◌↔◌, ◌-◌, ◌*◌, ◌+◌, length, IsTrue, IfOk, IfErr};
ghost use Rattle.spef_file.specs.Indexes.{IsIndexOf};
ghost use Rattle.spef_net.specs.Sections.{IsSized};
ghost use Rattle.spef_wire.specs.Refusals.{IsNetTree, IsWithinNetLimits, PassesUpTo};
ghost use Rattle.spef_wire.specs.Steps.{IsRefusedFirst};
ghost use Rattle.vg_segment.specs.Fits.{IsUnfit, MayBeCut, MayNotBeCut};
ghost use Rattle.vg_segment.specs.Texts.{cut_count, IsFit};

use rc_tree::Built;
use spef_file::{SpefIndex, SpefText};
use spef_net::ParNet;
use spef_wire::{MOST_CAPACITORS, Refusal, Refused, driver_of, named_net, tree_from};
use std::alloc::Global;
use vg_scan::Name;

/// The most nodes of a net.
const MOST_NODES: usize = 65_536;

/// How many nodes the net has with each resistor in so many parts.
pub fn cut_count(net: &ParNet, parts: u32) -> usize
    requires sized { IsSized net.now }
    requires some { 0 < parts }
    requires few { parts ≤ 64 }
    ensures { result ≡ cut_count parts net.now }
{
    net.nodes.len() + net.ress.len() * (parts as usize - 1)
}

/// Whether a net and its tree pass no limit.
fn is_within_limits(net: &ParNet, built: &Built) -> bool
    ensures { IsTrue result ↔ IsWithinNetLimits net.now built.now.tree.nodes }
{
    net.nodes.len() <= MOST_NODES
        && net.caps.len() <= MOST_CAPACITORS
        && built.tree.is_within_limits()
}

/// The tree of a net, or the first of the reasons against it, but for its limits.
fn tree_of(alloc: Global, net: &ParNet) -> Result<Built, Refused>
    requires { IsSized net.now }
    ensures tree { IfOk result (λ built. IsNetTree net.now built.tree.nodes built.order) }
    ensures accepted { IfOk result (λ _. PassesUpTo 15 net.now) }
    ensures refused { IfErr result (IsRefusedFirst 15 net.now) }
{
    match driver_of(net) {
        Err(refusal) => Err(Refused::Net(refusal)),
        Ok(driver) => tree_from(alloc, net, driver.node),
    }
}

/// The tree of the net, if nothing refuses it by its parasitics, and it is not too large with each resistor in so many
/// parts.
fn judge(alloc: Global, net: &ParNet, parts: u32) -> Result<Built, Refused>
    requires sized { IsSized net.now }
    requires some { 0 < parts }
    requires few { parts ≤ 64 }
    ensures fit { IfOk result (λ built. MayBeCut parts net.now built.tree.nodes built.order) }
    ensures refused { IfErr result (MayNotBeCut parts net.now) }
{
    let built = tree_of(alloc, net)?;
    if !is_within_limits(net, &built) {
        return Err(Refused::Net(Refusal::TooLarge));
    }
    if cut_count(net, parts) > MOST_NODES {
        return Err(Refused::Net(Refusal::TooLarge));
    }
    Ok(built)
}

/// The net of a name in a SPEF file (IEEE Std 1481) whose resistors can be cut into so many parts, or the first reason
/// against it: those of its parasitics alone, and that it has more than 65,536 nodes then.
///
/// `index` is the index of the file's text. Answers `Memory` where there is no room.
pub fn fit_net(
    alloc: Global,
    spef: &SpefText,
    index: &SpefIndex,
    name: &Name,
    parts: u32,
) -> Result<ParNet, Refused>
    requires index { IsIndexOf spef.now index.now }
    requires some { 0 < parts }
    requires few { parts ≤ 64 }
    ensures fit { IfOk result (IsFit spef.now parts name.now) }
    ensures sized { IfOk result IsSized }
    ensures refused { IfErr result (IsUnfit spef.now parts name.now) }
{
    let net = named_net(alloc, spef, index, name)?;
    judge(alloc, &net, parts)?;
    Ok(net)
}
