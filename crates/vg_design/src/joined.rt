//! A net as the parasitics and the netlist have it, and the connection that drives it.

ghost use Rattle.std.specs.Prelude.{◌≡◌, ◌<◌, ◌∷◌, [], length, IfOk, IfErr};
ghost use Rattle.spef_net.specs.Sections.{IsSized};
ghost use Rattle.spef_wire.specs.Refusals.{drivers_of, number_of, PassesUpTo as PassesWire};
ghost use Rattle.vg_design.specs.Designs.{port_of};
ghost use Rattle.vg_design.specs.Refusals.{IsJoined};
ghost use Rattle.vg_design.specs.Steps.{IsFirstHeld, IsRefusedBelow, PassesNet};

use crate::design::Design;
use spef_net::{ParConn, ParNet};
use spef_wire::{Refusal, Refused, driver_of, named_net};
use std::alloc::Global;
use std::marker::Model;
use ver_module::PortDir;
use vg_scan::Name;

/// A net with its parasitics, and its number in the netlist.
pub struct JoinedNet {
    pub par: ParNet,
    pub id: u32,
}

impl Drop for JoinedNet {
    // Written out, so that it is one step in the proof of whoever drops it.
    fn drop(self) {
        let JoinedNet { par: _par, id: _id } = self;
    }
}

impl JoinedNet {
    /// The net's parasitics.
    pub(crate) fn into_par(self) -> ParNet
        ensures { result ≡ self.par }
    {
        let JoinedNet { par, id: _id } = self;
        par
    }
}

impl Model for JoinedNet {
    ghost use Rattle.vg_design.specs.Designs.{Joined};

    ghost Value = { Joined };

    ghost view = { λ net. record { par = net.par; id = net.id } };
}

/// The net of a name, or why it is refused: one of the files has no such net, or its parasitics have a fault.
pub(crate) fn joined_net(alloc: Global, design: &Design, name: &Name) -> Result<JoinedNet, Refused>
    ensures joined { IfOk result (IsJoined design.now name.now) }
    ensures within { IfOk result (λ net. net.id < length design.now.netlist.nets) }
    ensures sized { IfOk result (λ net. IsSized net.par) }
    ensures refused { IfErr result (IsRefusedBelow 3 design.now name.now) }
{
    let Some(id) = design.module.find_net(name.as_bytes()) else {
        return Err(Refused::Net(Refusal::UnknownNet));
    };
    let par = named_net(alloc, &design.text, &design.index, name)?;
    Ok(JoinedNet { par, id })
}

/// The direction of the port that a net is, if it is one.
pub(crate) fn port_of(design: &Design, id: u32) -> Option<PortDir>
    requires { id < length design.now.netlist.nets }
    ensures { result ≡ port_of design.now.netlist id }
{
    design.net(id).port
}

/// The connection that drives a net, or the first reason against it: its parasitics are of a kind that is not read, it
/// goes both ways, or not one connection alone drives it.
pub(crate) fn driver_in(design: &Design, net: &JoinedNet) -> Result<ParConn, Refusal>
    requires { net.now.id < length design.now.netlist.nets }
    ensures driver { IfOk result (λ driver. drivers_of net.now.par ≡ driver ∷ []) }
    ensures wire { IfOk result (λ _. PassesWire 12 net.now.par) }
    ensures accepted { IfOk result (λ _. PassesNet 8 design.now net.now) }
    ensures refused { IfErr result (IsFirstHeld design.now net.now) }
    ensures number { IfErr result (λ refusal. number_of refusal < 15) }
{
    let driver = driver_of(&net.par);
    match driver {
        Err(refusal) if refusal.number() <= 5 => Err(refusal),
        _ if port_of(design, net.id) == Some(PortDir::Inout) => Err(Refusal::Bidirectional),
        driver => driver,
    }
}
