//! A net timed through the cells that were put in.

ghost use Rattle.std.specs.Prelude.{IfOk, IfErr};
ghost use Rattle.vg_retime.specs.Retimings.{Retimes, IsRefused};

use crate::climb::climb;
use crate::down::go_down;
use spef_wire::{Refusal, Refused};
use std::alloc::Global;
use vg_design::{Design, Timed};
use vg_scan::Name;

/// Times the net of a name in a design through the cells that were put in: the instances whose names begin with the
/// prefix and whose cells are repeaters.
///
/// A walk climbs from the net over such cells to the first net, whose driver is another, and goes down from there,
/// breadth first. Answers the least slack (zs) of the sinks that it comes to, and the first of them that has the wrong
/// polarity. A sink's delay is the sum, over the nets on its way, of the net's delay behind the cell that drives it.
/// The walk is refused by the first reason against a net that it comes to: one of `Refusal`, where only a sink that is
/// not passed needs a required time; `NoDriver` where it climbs to a cell whose input is at no net; `Loop` where it
/// comes to a net again; and at its end by `NoSink` where it came to no sink. Answers `Memory` where there is no room.
pub fn retime(alloc: Global, design: &Design, net: &Name, prefix: &[u8]) -> Result<Timed, Refused>
    ensures timed { IfOk result (Retimes 17 design.now prefix.now net.now) }
    ensures refused { IfErr result (IsRefused design.now prefix.now net.now) }
{
    let Some(id) = design.netlist().find_net(net.as_bytes()) else {
        return Err(Refused::Net(Refusal::UnknownNet));
    };
    let (first, net) = climb(alloc, design, prefix, id)?;
    let walk = go_down(alloc, design, prefix, first, net)?;
    let Some(left) = walk.least else {
        return Err(Refused::Net(Refusal::NoSink));
    };
    Ok(Timed {
        slack: left - walk.first.driver.arrival - walk.first.driver.k,
        wrong: walk.wrong,
    })
}
