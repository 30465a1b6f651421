//! What the library says of the pins that a net's connections are.

ghost use Rattle.std.specs.Prelude.{◌≡◌, ◌<◌, ◌↔◌, ◌∷◌, [], None, Some, length, find, option_map, IfOk, IsTrue, MatchOption};
ghost use Rattle.spef_net.specs.declared.net.ConnKind.TheVariants.{Pin as PinKind};
ghost use Rattle.spef_wire.specs.Refusals.{drivers_of};
ghost use Rattle.vg_design.specs.Designs.{name_of, pin_cap_of, pin_drive_of, pin_limit_of};
ghost use Rattle.vg_design.specs.Refusals.{is_unloaded, IsWithoutDrive};
ghost use Rattle.vg_design.specs.Steps.{ArePins, cell_at};

use crate::design::Design;
use crate::joined::JoinedNet;
use lib_linear::{pin_cap, pin_drive, pin_limit};
use spef_net::{ConnKind, ParConn, ParNet};
use spef_wire::is_sink;
use ver_net::PinRef;
use vg_num::Row;

/// A net with the pin of the netlist that each of its connections is; that of a port is none.
pub struct PinnedNet {
    pub net: JoinedNet,
    pub pins: Row<Option<PinRef>>,
}

impl Drop for PinnedNet {
    // Written out, so that it is one step in the proof of whoever drops it.
    fn drop(self) {
        let PinnedNet {
            net: _net,
            pins: _pins,
        } = self;
    }
}

impl PinnedNet {
    /// The net's parasitics.
    pub(crate) fn into_par(self) -> ParNet
        ensures { result ≡ self.net.par }
    {
        let PinnedNet { net, pins: _pins } = self;
        net.into_par()
    }

    /// The cell of the pin that a connection is, if it is one.
    fn cell<'a>(&self, design: &'a Design, at: usize) -> Option<&'a [u8]>
        requires pins { ArePins design.now self.now.net self.now.pins }
        requires at { at < length self.now.net.par.conns }
        ensures { MatchOption result (cell_at design.now self.now.net at ≡ None) (λ cell.
            cell_at design.now self.now.net at ≡ Some cell.now) }
    {
        match self.pins.as_slice()[at] {
            None => None,
            Some(pin) => Some(design.instance_of(pin).cell),
        }
    }

    /// The capacitance of the pin that a connection is (aF), if the library gives one.
    pub fn cap(&self, design: &Design, at: usize) -> Option<u64>
        requires pins { ArePins design.now self.now.net self.now.pins }
        requires at { at < length self.now.net.par.conns }
        ensures { result ≡ pin_cap_of design.now self.now.net (name_of self.now.net.par at) }
    {
        match self.cell(design, at) {
            None => None,
            Some(cell) => pin_cap(&design.library, cell, self.net.par.nodes.leaf(at)),
        }
    }

    /// The delay without a load (zs) and the resistance (mΩ) of the pin that a connection is, if the library gives
    /// both.
    pub fn drive(&self, design: &Design, at: usize) -> Option<(u64, u64)>
        requires pins { ArePins design.now self.now.net self.now.pins }
        requires at { at < length self.now.net.par.conns }
        ensures { result ≡ pin_drive_of design.now self.now.net (name_of self.now.net.par at) }
    {
        match self.cell(design, at) {
            None => None,
            Some(cell) => pin_drive(&design.library, cell, self.net.par.nodes.leaf(at)),
        }
    }

    /// The greatest load of the pin that a connection is (aF), if the library gives one.
    pub fn limit(&self, design: &Design, at: usize) -> Option<u64>
        requires pins { ArePins design.now self.now.net self.now.pins }
        requires at { at < length self.now.net.par.conns }
        ensures { result ≡ pin_limit_of design.now self.now.net (name_of self.now.net.par at) }
    {
        match self.cell(design, at) {
            None => None,
            Some(cell) => pin_limit(&design.library, cell, self.net.par.nodes.leaf(at)),
        }
    }

    /// Whether the driver is a pin without a delay and a resistance.
    pub fn is_without_drive(&self, design: &Design, driver: &ParConn) -> bool
        requires pins { ArePins design.now self.now.net self.now.pins }
        requires driver { drivers_of self.now.net.par ≡ driver.now ∷ [] }
        ensures { IsTrue result ↔ IsWithoutDrive design.now self.now.net }
    {
        match driver.kind {
            ConnKind::Port => false,
            ConnKind::Pin => self.drive(design, driver.node as usize).is_none(),
        }
    }

    /// Whether a connection is a sink that is a pin without a capacitance.
    fn is_unloaded(&self, design: &Design, conn: &ParConn) -> bool
        requires pins { ArePins design.now self.now.net self.now.pins }
        requires node { conn.now.node < length self.now.net.par.conns }
        ensures { result ≡ is_unloaded design.now self.now.net conn.now }
    {
        let at = conn.node as usize;
        is_sink(conn) && !self.net.par.nodes.leaf(at).is_empty() && self.cap(design, at).is_none()
    }

    /// The first sink, in the order of the connections, that is a pin without a capacitance.
    pub fn first_unloaded(&self, design: &Design) -> Option<ParConn>
        requires pins { ArePins design.now self.now.net self.now.pins }
        ensures { result ≡ find (is_unloaded design.now self.now.net) self.now.net.par.conns }
    {
        'connection: for conn in self.net.par.conns.as_slice() {
            if self.is_unloaded(design, conn) {
                return Some(*conn);
            }
        }
        None
    }
}
