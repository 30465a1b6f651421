//! Whether the connections of a net are its ends in the netlist.

ghost use Rattle.std.specs.Prelude.{◌≡◌, ◌↔◌, ◌<◌, true, length, IsTrue, Some};
ghost use Rattle.std.specs.List.{All};
ghost use Rattle.vg_design.specs.Designs.{agrees, is_same_way, name_of, IsConnected};
ghost use Rattle.vg_design.specs.Steps.{AreEnds, AreSame, FindsPins, has_port_end, is_port_end};

use crate::design::Design;
use crate::joined::JoinedNet;
use spef_net::{ConnKind, Direction, ParConn, ParNet};
use ver_module::{Net, PortDir};
use ver_net::PinRef;

/// Whether a port and its connection have the same direction.
fn is_same_way(port: Option<PortDir>, direction: Direction) -> bool
    ensures { result ≡ is_same_way port direction }
{
    match (port, direction) {
        (Some(PortDir::Input), Direction::In) => true,
        (Some(PortDir::Output), Direction::Out) => true,
        (Some(PortDir::Inout), Direction::Both) => true,
        _ => false,
    }
}

/// Whether a connection that is a port has the direction of this one.
fn agrees(port: Option<PortDir>, conn: &ParConn) -> bool
    ensures { result ≡ agrees port conn.now.kind conn.now.direction }
{
    match conn.kind {
        ConnKind::Pin => true,
        ConnKind::Port => is_same_way(port, conn.direction),
    }
}

/// Whether each connection that is a port has the direction of this one.
fn agree(port: Option<PortDir>, conns: &[ParConn]) -> bool
    ensures { IsTrue result ↔ All (λ conn. agrees port conn.kind conn.direction ≡ true) conns.now }
{
    conns.iter().all(|conn| agrees(port, conn))
}

/// Whether a connection is the port that a net of the netlist is.
fn is_port_end(module_net: &Net<'_>, net: &ParNet, conn: &ParConn) -> bool
    requires { conn.now.node < length net.now.nodes }
    ensures { result ≡ is_port_end module_net.now (name_of net.now conn.now.node) }
{
    let at = conn.node as usize;
    module_net.port.is_some()
        && module_net.is_named(net.nodes.owner(at))
        && net.nodes.leaf(at).is_empty()
}

/// Whether each connection is a pin on the net or the port that it is, where these are the pins.
fn are_ends(module_net: &Net<'_>, net: &ParNet, pins: &[Option<PinRef>]) -> bool
    requires { length pins.now ≡ length net.now.conns }
    ensures { IsTrue result ↔ AreEnds module_net.now net.now pins.now }
{
    'end: for at in 0..pins.len() {
        if pins[at].is_none() && !is_port_end(module_net, net, &net.conns.as_slice()[at]) {
            return false;
        }
    }
    true
}

/// Whether some connection is the port that a net is, if it is one.
fn has_port_end(module_net: &Net<'_>, net: &ParNet) -> bool
    ensures { result ≡ has_port_end module_net.now net.now }
{
    if module_net.port.is_none() {
        return true;
    }
    'end: for conn in net.conns.as_slice() {
        if is_port_end(module_net, net, conn) {
            return true;
        }
    }
    false
}

/// Whether the connections of a net are the pins and the port that this net of the netlist has, where these are the
/// pins.
fn are_same(module_net: &Net<'_>, net: &ParNet, pins: &[Option<PinRef>]) -> bool
    requires { length pins.now ≡ length net.now.conns }
    ensures { IsTrue result ↔ AreSame module_net.now net.now pins.now }
{
    agree(module_net.port, net.conns.as_slice())
        && are_ends(module_net, net, pins)
        && has_port_end(module_net, net)
}

/// Whether the connections of a net are, as a set, its ends in the netlist, and a port has its direction there, where
/// all pins on the net are connections, and these are they.
pub(crate) fn is_connected(design: &Design, net: &JoinedNet, pins: &[Option<PinRef>]) -> bool
    requires within { net.now.id < length design.now.netlist.nets }
    requires pins { FindsPins design.now net.now (Some pins.now) }
    ensures { IsTrue result ↔ IsConnected design.now.netlist net.now.id net.now.par }
{
    let module_net = design.net(net.id);
    are_same(&module_net, &net.par, pins)
}
