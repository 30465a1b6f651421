//! The problem of a net.

ghost use Rattle.std.specs.Prelude.{◌≡◌, ◌<◌, ◌≤◌, find, length, IfOk, IfErr};
ghost use Rattle.std.specs.List.{All};
ghost use Rattle.spef_wire.specs.Refusals.{most_capacitors};
ghost use Rattle.vg_design.specs.Nets.{names_of, IsNetProblem, IsPosedNet, IsRefused};
ghost use Rattle.vg_design.specs.Parts.{loaded_tree as loaded_in};
ghost use Rattle.spef_wire.specs.Wires.{AreMarks};
ghost use Rattle.vg_design.specs.Refusals.{is_unconstrained};
ghost use Rattle.vg_design.specs.Steps.{FindsUnconstrained, IsReady, MakesProblem};

use crate::allowed::allowed_of;
use crate::design::Design;
use crate::names::TreeNames;
use crate::parts::{driver_at, free_of, loaded_nodes, name_of, node_of, reps_of, sinks_of};
use crate::pins::PinnedNet;
use crate::ready::{ReadyNet, ready_net};
use elmore::{Node, Problem, Tree};
use spef_net::{ParConn, ParNet};
use spef_wire::{MOST_CAPACITORS, Refusal, Refused, is_sink, sink_marks};
use std::alloc::Global;
use vg_cons::{Constraints, required};
use vg_num::{Memory, Row};
use vg_scan::{Name, NodeName};

/// The problem of a net, and the names of its nodes.
#[derive(Drop)]
pub struct NetProblem {
    pub problem: Problem,
    pub names: TreeNames,
}

/// A net with its pins, its tree and its problem.
pub struct PosedNet {
    pub ready: ReadyNet,
    pub problem: Problem,
}

impl Drop for PosedNet {
    // Written out, so that it is one step in the proof of whoever drops it.
    fn drop(self) {
        let PosedNet {
            ready: _ready,
            problem: _problem,
        } = self;
    }
}

/// Whether a connection is a sink without a required time.
pub fn is_unconstrained(cons: &Constraints, net: &ParNet, conn: &ParConn) -> bool
    requires { conn.now.node < length net.now.nodes }
    ensures { result ≡ is_unconstrained cons.now net.now conn.now }
{
    is_sink(conn) && required(cons, node_of(net, conn.node)).is_none()
}

/// The first sink, in the order of the connections, without a required time.
fn first_unconstrained(cons: &Constraints, net: &ParNet) -> Option<ParConn>
    ensures { result ≡ find (is_unconstrained cons.now net.now) net.now.conns }
{
    'connection: for conn in net.conns.as_slice() {
        if is_unconstrained(cons, net, conn) {
            return Some(*conn);
        }
    }
    None
}

/// The name of the first sink without a required time, if there is one.
fn unconstrained_sink(
    alloc: Global,
    design: &Design,
    ready: &ReadyNet,
) -> Result<Option<NodeName>, Memory>
    ensures { IfOk result (FindsUnconstrained design.now.rows ready.now.pinned.net.par) }
{
    let par = &ready.pinned.net.par;
    match first_unconstrained(design.cons(), par) {
        None => Ok(None),
        Some(sink) => Ok(Some(name_of(alloc, par, sink.node)?)),
    }
}

/// The tree of a net with the loads of its sinks.
fn loaded_tree(
    alloc: Global,
    design: &Design,
    net: &PinnedNet,
    marks: &[bool],
    tree: &[Node],
    order: &[u32],
) -> Result<Tree, Memory>
    requires ready { IsReady design.now net.now.net net.now.pins tree.now order.now }
    requires marks { AreMarks net.now.net.par marks.now }
    ensures { IfOk result (λ loaded. loaded.nodes ≡ loaded_in design.now net.now.net tree.now order.now) }
{
    let nodes = loaded_nodes(alloc, design, net, marks, tree, order)?;
    Ok(Tree {
        nodes: Row::from_vec(nodes),
    })
}

/// The problem of a net of few capacitors, with these parasitics and this tree, where it passes no limit.
fn problem_within(
    alloc: Global,
    design: &Design,
    net: &PinnedNet,
    par: &ParNet,
    tree: &[Node],
    order: &[u32],
) -> Result<Option<Problem>, Memory>
    requires par { par.now ≡ net.now.net.par }
    requires ready { IsReady design.now net.now.net net.now.pins tree.now order.now }
    requires caps { length par.now.caps ≤ most_capacitors }
    ensures { IfOk result (MakesProblem design.now net.now.net tree.now order.now) }
{
    let cons = design.cons();
    let marks = sink_marks(alloc, par)?;
    let tree = loaded_tree(alloc, design, net, &marks, tree, order)?;
    let sinks = Row::from_vec(sinks_of(alloc, cons, par, &marks, order)?);
    let driver = driver_at(alloc, design, net, order[0] as usize)?;
    let free = free_of(alloc, cons, par, order)?;
    let reps = Row::from_vec(reps_of(alloc, design)?);
    let allowed = Row::from_vec(allowed_of(alloc, design, par, order)?);
    let made = Problem::new(alloc, tree, driver, sinks, &free, reps, allowed)?;
    Ok(made)
}

/// The problem of a net, where it passes no limit. Answers `Memory` where there is no room.
pub fn problem_of(
    alloc: Global,
    design: &Design,
    ready: &ReadyNet,
) -> Result<Option<Problem>, Memory>
    requires { IsReady design.now ready.now.pinned.net ready.now.pinned.pins ready.now.tree.nodes ready.now.order }
    ensures { IfOk result (MakesProblem design.now ready.now.pinned.net ready.now.tree.nodes ready.now.order) }
{
    let par = &ready.pinned.net.par;
    if par.caps.len() > MOST_CAPACITORS {
        return Ok(None);
    }
    let tree = ready.tree.nodes.as_slice();
    let order = ready.order.as_slice();
    let made = problem_within(alloc, design, &ready.pinned, par, tree, order)?;
    Ok(made)
}

impl PosedNet {
    /// The problem, and the names of the tree's nodes.
    pub fn into_problem(self) -> NetProblem
        requires { All (λ v. v < length self.ready.pinned.net.par.nodes) self.ready.order }
        ensures problem { result.problem ≡ self.problem }
        ensures names { result.names ≡ names_of self.ready.pinned.net.par self.ready.order }
    {
        let PosedNet { ready, problem } = self;
        NetProblem {
            problem,
            names: ready.into_names(),
        }
    }
}

/// The net of a name in a design with its pins, its tree and its problem. The net is refused by the first reason of
/// `Refusal` that holds. Answers `Memory` where there is no room.
///
/// Resistances are in mΩ, capacitances in aF, times in zs. The sinks' pins and ports are loads beside the capacitors. A
/// node may have a cell where it is no connection, a sink is strictly below it, and neither a `block` row nor a box
/// blocks it.
pub fn posed_net(alloc: Global, design: &Design, net: &Name) -> Result<PosedNet, Refused>
    ensures posed { IfOk result (IsPosedNet design.now net.now) }
    ensures refused { IfErr result (IsRefused design.now net.now) }
{
    let ready = ready_net(alloc, design, net)?;
    if let Some(sink) = unconstrained_sink(alloc, design, &ready)? {
        return Err(Refused::Net(Refusal::Unconstrained(sink)));
    }
    let Some(problem) = problem_of(alloc, design, &ready)? else {
        return Err(Refused::Net(Refusal::TooLarge));
    };
    Ok(PosedNet { ready, problem })
}

/// The problem of the net of a name in a design, and the names of its nodes, as `posed_net` has them.
pub fn problem(alloc: Global, design: &Design, net: &Name) -> Result<NetProblem, Refused>
    ensures problem { IfOk result (IsNetProblem design.now net.now) }
    ensures refused { IfErr result (IsRefused design.now net.now) }
{
    let posed = posed_net(alloc, design, net)?;
    Ok(posed.into_problem())
}
