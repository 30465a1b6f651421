//! The pins of a net that are linked to new nets.

ghost use Rattle.std.specs.Prelude.{◌≡◌, ℕ, ◌++◌, ◌<◌, length, OnOk};
ghost use Rattle.vg_change.specs.Placed.{is_old_end, rewires_at, rewires_in, rewires_of};
ghost use Rattle.vg_change.specs.Steps.{placed_by};
ghost use Rattle.vg_design.specs.Steps.{ArePins};
ghost use Rattle.vg_split.specs.Splits.{forest, net_of};
ghost use Rattle.vg_split.specs.Stages.{heads};

use std::alloc::Global;
use ver_patch::Rewires;
use vg_design::{Design, PinnedNet};
use vg_num::Memory;
use vg_split::Split;

/// Whether a node is a pin or a port of the net.
fn is_old_end(x: &Split<'_>, node: usize) -> bool
    requires { node < length x.now.problem.tree.nodes }
    ensures { result ≡ is_old_end x.now node }
{
    x.is_end(node) && !x.has_cell(node)
}

/// Puts the pin at a node of a stage last, linked to this net, if it is one of the net's.
fn push_rewire(
    design: &Design,
    pinned: &PinnedNet,
    x: &Split<'_>,
    node: usize,
    net: &[u8],
    to: &mut Rewires,
) -> Result<(), Memory>
    requires pins { ArePins design.now pinned.now.net pinned.now.pins }
    requires par { x.now.par ≡ pinned.now.net.par }
    requires node { node < length x.now.problem.tree.nodes }
    ensures { OnOk result ((k : ℕ) → net.now ≡ net_of x.now k
        → to.new ≡ to.old ++ rewires_at design.now.netlist (placed_by pinned.now.net x.now) x.now k node) }
{
    if !is_old_end(x, node) {
        return Ok(());
    }
    if let Some(at) = pinned.pins.as_slice()[x.old(node)] {
        to.push(at, net)?;
    }
    Ok(())
}

/// Puts the net's pins in a stage last, if it has a new net. What stands in `net` before does not matter.
fn push_rewires_in(
    design: &Design,
    pinned: &PinnedNet,
    x: &Split<'_>,
    stage: usize,
    net: &mut Vec<u8>,
    to: &mut Rewires,
) -> Result<(), Memory>
    requires pins { ArePins design.now pinned.now.net pinned.now.pins }
    requires par { x.now.par ≡ pinned.now.net.par }
    requires stage { stage < length (heads (forest x.now)) }
    ensures { OnOk result (to.new
        ≡ to.old ++ rewires_in design.now.netlist (placed_by pinned.now.net x.now) x.now stage) }
{
    if stage == x.keeper as usize {
        return Ok(());
    }
    net.clear();
    x.push_net(stage, net)?;
    'node: for node in x.members(stage) {
        push_rewire(design, pinned, x, *node as usize, net, to)?;
    }
    Ok(())
}

/// Puts the net's pins last that are linked to new nets, stage by stage.
pub(crate) fn push_rewires(
    alloc: Global,
    design: &Design,
    pinned: &PinnedNet,
    x: &Split<'_>,
    to: &mut Rewires,
) -> Result<(), Memory>
    requires pins { ArePins design.now pinned.now.net pinned.now.pins }
    requires par { x.now.par ≡ pinned.now.net.par }
    ensures { OnOk result (to.new ≡ to.old ++ rewires_of design.now.netlist (placed_by pinned.now.net x.now) x.now) }
{
    let mut net = Vec::new(alloc);
    'stage: for stage in 0..x.count() {
        push_rewires_in(design, pinned, x, stage, &mut net, to)?;
    }
    Ok(())
}
