//! The slack of a net without cells.

ghost use Rattle.std.specs.Prelude.{◌≡◌, ◌<◌, length, option_map, IfOk, IfErr, IfSome};
ghost use Rattle.vg_design.specs.Nets.{name_at, IsBareTiming, IsRefused, IsTimedOf};

use crate::design::Design;
use crate::names::TreeNames;
use crate::net_problem::problem;
use elmore::{Placement, Problem, Scratch, first_wrong, slack};
use spef_wire::Refused;
use std::alloc::Global;
use vg_num::Memory;
use vg_scan::{Name, NodeName};

/// The timing of a net without cells.
#[derive(Drop)]
pub struct Timed {
    /// The slack (zs).
    pub slack: i128,
    /// The first sink of the wrong polarity, in tree order.
    pub wrong: Option<NodeName>,
}

/// The slack (zs) of a problem without cells, and its first sink of the wrong polarity as a node of the tree.
fn bare_timing(alloc: Global, problem: &Problem) -> Result<(i128, Option<u32>), Memory>
    ensures timing { IfOk result (λ timing. IsBareTiming problem.now timing.0 timing.1) }
    ensures node { IfOk result (λ timing. IfSome timing.1 (λ i. i < length problem.now.tree.nodes)) }
{
    let n = problem.tree.nodes.len();
    let bare = Placement::empty(alloc, n)?;
    let mut scratch = Scratch::new(alloc, n)?;
    let slack = slack(problem, &bare, &mut scratch);
    let wrong = first_wrong(problem, &bare, &mut scratch);
    Ok((slack, wrong))
}

/// The name of a node of the tree, if there is one.
fn name_in(alloc: Global, names: &TreeNames, node: Option<u32>) -> Result<Option<NodeName>, Memory>
    requires { IfSome node (λ i. i < length names.now) }
    ensures { IfOk result (λ name. name ≡ option_map (name_at names.now) node) }
{
    match node {
        None => Ok(None),
        Some(at) => Ok(Some(names.name(alloc, at as usize)?)),
    }
}

/// The timing of the net of a name in a design without cells: its slack, and its first sink of the wrong polarity. The
/// net is refused by the first reason of `Refusal` that holds. Answers `Memory` where there is no room.
pub fn time_net(alloc: Global, design: &Design, net: &Name) -> Result<Timed, Refused>
    ensures timed { IfOk result (IsTimedOf design.now net.now) }
    ensures refused { IfErr result (IsRefused design.now net.now) }
{
    let found = problem(alloc, design, net)?;
    let (slack, node) = bare_timing(alloc, &found.problem)?;
    let wrong = name_in(alloc, &found.names, node)?;
    Ok(Timed { slack, wrong })
}
