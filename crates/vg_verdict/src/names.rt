//! The names that a certificate of a net speaks of.

ghost use Rattle.std.specs.Prelude.{◌≡◌, ◌<◌, length, IfOk};
ghost use Rattle.std.specs.List.{All};
ghost use Rattle.vg_design.specs.Nets.{names_of};
ghost use Rattle.vg_design.specs.Parts.{cells_of};
ghost use Rattle.vg_verdict.specs.Lines.{names_for};

use lib_linear::Repeater;
use std::alloc::Global;
use vg_design::PosedNet;
use vg_num::{Memory, Row};
use vg_scan::{Name, NetNames, NodeName};

/// The names of the nodes of a net's tree, each in memory of its own.
fn node_names(alloc: Global, net: &PosedNet) -> Result<Vec<NodeName>, Memory>
    requires { All (λ v. v < length net.now.ready.pinned.net.par.nodes) net.now.ready.order }
    ensures { IfOk result (λ names. names.items ≡ names_of net.now.ready.pinned.net.par net.now.ready.order) }
{
    let nodes = &net.ready.pinned.net.par.nodes;
    let order = net.ready.order.as_slice();
    let mut names = Vec::with_capacity(alloc, order.len())?;
    'node: for at in 0..order.len() {
        names.push(nodes.name(alloc, order[at] as usize)?)?;
    }
    Ok(names)
}

/// The names of the cells of repeaters.
fn cell_names(alloc: Global, repeaters: &[Repeater]) -> Result<Vec<Name>, Memory>
    ensures { IfOk result (λ names. names.items ≡ cells_of repeaters.now) }
{
    let mut names = Vec::with_capacity(alloc, repeaters.len())?;
    'repeater: for repeater in repeaters {
        names.push(repeater.cell.copy(alloc)?)?;
    }
    Ok(names)
}

/// The names that a certificate of a posed net of this name speaks of, where these are the library's repeaters. Answers
/// `Memory` where there is no room.
pub fn net_names(
    alloc: Global,
    name: &[u8],
    repeaters: &[Repeater],
    net: &PosedNet,
) -> Result<NetNames, Memory>
    requires { All (λ v. v < length net.now.ready.pinned.net.par.nodes) net.now.ready.order }
    ensures { IfOk result (λ names. names
        ≡ names_for name.now (cells_of repeaters.now) (names_of net.now.ready.pinned.net.par net.now.ready.order)) }
{
    let own = Name::from_bytes(alloc, name)?;
    let nodes = node_names(alloc, net)?;
    let cells = cell_names(alloc, repeaters)?;
    Ok(NetNames {
        net: own,
        nodes: Row::from_vec(nodes),
        cells: Row::from_vec(cells),
    })
}
