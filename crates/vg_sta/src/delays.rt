//! The delays of a net without cells.

ghost use Rattle.std.specs.Prelude.{◌≡◌, ◌<◌, ◌≤◌, ◌+ℤ◌, ◌-ℤ◌, ◌≤ℤ◌, ◌*◌, ◌^◌, length, pos};
ghost use Rattle.elmore.specs.Problems.{IsDriverWithin};
ghost use Rattle.elmore.specs.Room.{delays_of, room_of};
ghost use Rattle.vg_sta.specs.Delays.{AreDelays};
ghost use Rattle.vg_sta.specs.Graphs.{bare_delay};

use elmore::{Driver, Scratch, wire_delays};
use vg_design::{BareNet, total_capacitance};

/// The delay of a driver into this load (zs).
fn driven_by(driver: Driver, load: u128) -> i128
    requires driver { IsDriverWithin driver }
    requires load { load ≤ 10 ^ 11 }
    ensures { result ≡ driver.k +ℤ pos (driver.r * load) }
{
    driver.k + (u128::from(driver.r) * load) as i128
}

/// The delay of a net's driver into all of the net (zs). The scratch has the delays of the wire then.
pub(crate) fn time_net(net: &BareNet, scratch: &mut Scratch) -> i128
    requires room { length net.now.tree.nodes ≤ room_of scratch.old }
    ensures delays { AreDelays net.now result (delays_of scratch.new) }
    ensures room { room_of scratch.new ≡ room_of scratch.old }
{
    wire_delays(&net.tree, scratch);
    driven_by(net.driver, total_capacitance(net.tree.nodes.as_slice()))
}

/// The sum of two delays (zs).
fn sum_of(driven: i128, wire: i128) -> i128
    requires driven_low { (pos 0 -ℤ pos (10 ^ 24)) ≤ℤ driven }
    requires driven_high { driven ≤ℤ pos (10 ^ 24) }
    requires wire_low { pos 0 ≤ℤ wire }
    requires wire_high { wire ≤ℤ pos (10 ^ 24) }
    ensures { result ≡ driven +ℤ wire }
{
    driven + wire
}

/// The delay from the driver's input to a node of the net (zs), from that of the driver and those of the wire.
pub(crate) fn delay_to(net: &BareNet, driven: i128, delays: &[i128], node: u32) -> i128
    requires node { node < length net.now.tree.nodes }
    requires delays { AreDelays net.now driven delays.now }
    ensures { result ≡ bare_delay net.now node }
{
    let _ = net;
    sum_of(driven, delays[node as usize])
}
