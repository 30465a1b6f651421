//! The ends of a net: the connections that drive it, and its sinks.

ghost use Rattle.std.specs.Prelude.{◌≡◌, ◌<◌, ◌++◌, ◌∷◌, [], List, filter, if◌then◌else◌, IfOk, IfErr};
ghost use Rattle.std.specs.List.{list_any};
ghost use Rattle.spef_net.specs.declared.net.ParConn.{ParConn};
ghost use Rattle.spef_wire.specs.Refusals.{drives, goes_both_ways, drivers_of, is_sink, number_of, IsFirstRefusal, PassesUpTo};
ghost use Rattle.spef_wire.specs.Steps.{AreDrivers};

use crate::refusal::Refusal;
use spef_net::{ConnKind, Direction, ParConn, ParNet};

/// The connections that drive a net.
#[derive(Clone, Copy)]
enum Drivers {
    Nothing,
    One(ParConn),
    Several,
}

fn drives(conn: &ParConn) -> bool
    ensures { result ≡ drives conn.now }
{
    match conn.kind {
        ConnKind::Pin => conn.direction == Direction::Out,
        ConnKind::Port => conn.direction == Direction::In,
    }
}

/// Whether a connection is a sink: it does not drive the net.
pub fn is_sink(conn: &ParConn) -> bool
    ensures { result ≡ is_sink conn.now }
{
    !drives(conn)
}

/// Whether some connection is a sink.
pub fn has_sink(conns: &[ParConn]) -> bool
    ensures { result ≡ list_any is_sink conns.now }
{
    conns.iter().any(is_sink)
}

fn goes_both_ways(conn: &ParConn) -> bool
    ensures { result ≡ goes_both_ways conn.now }
{
    conn.direction == Direction::Both
}

fn is_bidirectional(conns: &[ParConn]) -> bool
    ensures { result ≡ list_any goes_both_ways conns.now }
{
    conns.iter().any(goes_both_ways)
}

/// These drivers and one more.
fn with_driver(drivers: Drivers, driver: ParConn) -> Drivers
    ensures { (list : List ParConn) → AreDrivers list drivers → AreDrivers (list ++ driver ∷ []) result }
{
    match drivers {
        Drivers::Nothing => Drivers::One(driver),
        _ => Drivers::Several,
    }
}

/// The drivers with this connection, where it is one.
fn with_conn(drivers: Drivers, conn: ParConn) -> Drivers
    ensures { (list : List ParConn) → AreDrivers list drivers
        → AreDrivers (list ++ (if drives conn then conn ∷ [] else [])) result }
{
    if drives(&conn) {
        with_driver(drivers, conn)
    } else {
        drivers
    }
}

/// The connections that drive the net.
fn drivers_among(conns: &[ParConn]) -> Drivers
    ensures { AreDrivers (filter drives conns.now) result }
{
    let mut drivers = Drivers::Nothing;
    'conn: for conn in conns {
        drivers = with_conn(drivers, *conn);
    }
    drivers
}

/// The connection that alone drives the net, or the first of the reasons 3 to 7 against it.
pub fn driver_of(net: &ParNet) -> Result<ParConn, Refusal>
    ensures driver { IfOk result (λ driver. drivers_of net.now ≡ driver ∷ []) }
    ensures accepted { IfOk result (λ _. PassesUpTo 12 net.now) }
    ensures refused { IfErr result (IsFirstRefusal net.now) }
    ensures number { IfErr result (λ refusal. number_of refusal < 8) }
{
    if net.reduced {
        return Err(Refusal::Reduced);
    }
    if net.inductive {
        return Err(Refusal::Inductive);
    }
    if is_bidirectional(net.conns.as_slice()) {
        return Err(Refusal::Bidirectional);
    }
    match drivers_among(net.conns.as_slice()) {
        Drivers::Nothing => Err(Refusal::NoDriver),
        Drivers::Several => Err(Refusal::ManyDrivers),
        Drivers::One(driver) => Ok(driver),
    }
}
