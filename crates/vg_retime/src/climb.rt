//! The way up to the first net.

ghost use Rattle.std.specs.Prelude.{◌≡◌, ◌<◌, length, IfOk, IfErr};
ghost use Rattle.vg_retime.specs.Stops.{IsRefusedUp};
ghost use Rattle.vg_retime.specs.Steps.{IsFirstWithin, IsSizedNet};
ghost use Rattle.vg_retime.specs.WalkNets.{IsNetIn};
ghost use Rattle.vg_retime.specs.Ways.{IsFirstNet};

use crate::come::Come;
use crate::walk_net::{Above, WalkNet, walk_net};
use elmore::Driver;
use spef_wire::{Refusal, Refused};
use std::alloc::Global;
use vg_design::Design;

/// The first net of a walk, and what drives it.
#[derive(Clone, Copy, Debug, Drop)]
pub(crate) struct First {
    pub net: u32,
    pub driver: Driver,
}

/// The first net above the net of this number, also as a walk comes to it: as long as a cell that was put in drives a
/// net, the net at its input is next. Or the first reason against a net on the way: it is refused, its cell's input is
/// at no net, or it came before.
pub(crate) fn climb(
    alloc: Global,
    design: &Design,
    prefix: &[u8],
    id: u32,
) -> Result<(First, WalkNet), Refused>
    requires { id < length design.now.netlist.nets }
    ensures first { IfOk result (λ found. IsFirstNet 17 design.now prefix.now id found.0) }
    ensures within { IfOk result (λ found. IsFirstWithin (length design.now.netlist.nets) found.0) }
    ensures net { IfOk result (λ found. IsNetIn 17 design.now prefix.now found.0.net found.1) }
    ensures sized { IfOk result (λ found. IsSizedNet (length design.now.netlist.nets) found.1) }
    ensures refused { IfErr result (IsRefusedUp design.now prefix.now id) }
{
    let mut come = Come::none(alloc);
    let mut at = id;
    'up: while come.note(at)? {
        let net = walk_net(alloc, design, prefix, at)?;
        match net.above {
            Above::Net(next) => at = next,
            Above::Open => return Err(Refused::Net(Refusal::NoDriver)),
            Above::First => {
                let driver = net.driver;
                return Ok((First { net: at, driver }, net));
            }
        }
    }
    Err(Refused::Net(Refusal::Loop))
}
