//! The ends of a net by its parasitics, and the pins of the netlist that they are.

ghost use Rattle.std.specs.Prelude.{◌≡◌, ◌<◌, ◌≤◌, ◌^◌, ℕ, None, Some, true, false, length, option_map, IfOk, IfSome};
ghost use Rattle.spef_nodes.specs.Members.{node_named};
ghost use Rattle.vg_scan.specs.Nodes.{has_node, same_node};
ghost use Rattle.vg_design.specs.Designs.{ends_of, name_of, pin_name};
ghost use Rattle.vg_design.specs.Steps.{FindsPins, IsPin, IsSeen, pin_at, pin_or};

use crate::design::Design;
use crate::joined::JoinedNet;
use name_tables::is_same;
use spef_net::ParNet;
use spef_nodes::NodeTable;
use std::alloc::Global;
use std::marker::Model;
use ver_net::PinRef;
use vg_num::Memory;

/// The ends of a net by its parasitics, found by their names, each with the pin that was seen of its name.
#[derive(Drop)]
struct Ends {
    /// The ends, and behind them what was looked for in vain.
    table: NodeTable,
    pins: Vec<Option<PinRef>>,
}

impl Model for Ends {
    ghost use Rattle.std.specs.Prelude.{◌≤◌, length, take};
    ghost use Rattle.spef_nodes.specs.Members.{AreApart};
    ghost use Rattle.vg_design.specs.Steps.{Seen};

    ghost Value = { Seen };

    ghost view = { λ s. record { ends = take (length s.pins.items) s.table; pins = s.pins.items } };

    ghost invariant = { λ s. AreApart s.table × (length s.pins.items ≤ length s.table) };
}

/// How many buckets there are for so many ends: a power of two.
fn buckets_for(ends: usize) -> usize
    ensures { (0 < result) × (result ≤ 2 ^ 32) }
{
    let mut buckets = 4usize;
    'double: while buckets < ends && buckets < 1 << 31 {
        buckets *= 2;
    }
    buckets
}

/// The names of a net's connections, in a table.
fn table_of(alloc: Global, net: &ParNet) -> Result<NodeTable, Memory>
    ensures { IfOk result (λ table. table ≡ ends_of net.now) }
{
    let count = net.conns.len();
    let mut table = NodeTable::new(alloc, buckets_for(count))?;
    'end: for at in 0..count {
        table.intern(net.nodes.owner(at), net.nodes.leaf(at))?;
    }
    Ok(table)
}

/// Keeps a pin for this end, where none was seen before.
fn keep_first(pins: &mut Vec<Option<PinRef>>, at: usize, pin: PinRef)
    requires { at < length pins.old.items }
    ensures size { length pins.new.items ≡ length pins.old.items }
    ensures own { pin_at pins.new.items at ≡ pin_or (pin_at pins.old.items at) pin }
    ensures others { (i : ℕ) → (i ≡ at → ⊥) → pin_at pins.new.items i ≡ pin_at pins.old.items i }
{
    if pins[at].is_none() {
        pins[at] = Some(pin);
    }
}

impl Ends {
    /// The ends of a net, of which no pin was seen.
    fn of(alloc: Global, net: &ParNet) -> Result<Ends, Memory>
        ensures ends { IfOk result (λ s. s.ends ≡ ends_of net.now) }
        ensures size { IfOk result (λ s. length s.pins ≡ length (ends_of net.now)) }
        ensures none { IfOk result (λ s. (i : ℕ) → pin_at s.pins i ≡ None) }
    {
        let table = table_of(alloc, net)?;
        let pins = vec![in alloc; None; net.conns.len()]?;
        Ok(Ends { table, pins })
    }

    /// Sees a pin. Whether an end has its name; of two pins of one name the first counts.
    fn see(&mut self, owner: &[u8], leaf: &[u8], pin: PinRef) -> Result<bool, Memory>
        ensures seen { IfOk result (λ found. found ≡ true
            → IsSeen self.old self.new (node_named owner.now leaf.now) pin) }
        ensures none { IfOk result (λ found. found ≡ false
            → has_node self.old.ends (node_named owner.now leaf.now) ≡ false) }
    {
        let at = self.table.intern(owner, leaf)? as usize;
        if at >= self.pins.len() {
            return Ok(false);
        }
        keep_first(&mut self.pins, at, pin);
        Ok(true)
    }
}

/// Sees a pin of the netlist. Whether an end has its name.
fn see_pin(design: &Design, at: PinRef, ends: &mut Ends) -> Result<bool, Memory>
    requires { IsPin design.now.netlist at }
    ensures seen { IfOk result (λ found. found ≡ true → IsSeen ends.old ends.new (pin_name design.now.netlist at) at) }
    ensures none { IfOk result (λ found. found ≡ false
        → has_node ends.old.ends (pin_name design.now.netlist at) ≡ false) }
{
    let instance = design.instance_of(at);
    let pin = instance.pin(at.pin as usize);
    let found = ends.see(instance.name, pin.name, at)?;
    Ok(found)
}

/// Whether a pin of the netlist has the name of a connection of a net.
fn is_named(design: &Design, pin: PinRef, net: &ParNet, at: usize) -> bool
    requires pin { IsPin design.now.netlist pin }
    requires at { at < length net.now.conns }
    ensures { result ≡ same_node (pin_name design.now.netlist pin) (name_of net.now at) }
{
    let instance = design.instance_of(pin);
    is_same(instance.name, net.nodes.owner(at))
        && is_same(instance.pin(pin.pin as usize).name, net.nodes.leaf(at))
}

/// The pins on a net, where they are its connections one after another. `None`: they come in another order, or are not
/// the same.
fn pins_in_order(
    alloc: Global,
    design: &Design,
    net: &JoinedNet,
) -> Result<Option<Vec<Option<PinRef>>>, Memory>
    requires { net.now.id < length design.now.netlist.nets }
    ensures { IfOk result (λ found. IfSome found (λ pins. FindsPins design.now net.now (Some pins.items))) }
{
    let on_net = design.pins_on(net.id);
    let count = net.par.conns.len();
    if on_net.len() != count {
        return Ok(None);
    }
    let mut pins = Vec::with_capacity(alloc, count)?;
    'pin: for at in 0..count {
        let pin = on_net[at];
        if !is_named(design, pin, &net.par, at) {
            return Ok(None);
        }
        pins.push(Some(pin))?;
    }
    Ok(Some(pins))
}

/// For each connection of a net the pin on it that has its name, found by that, whatever order they come in. `None`:
/// some pin on the net is no connection.
fn pins_by_name(
    alloc: Global,
    design: &Design,
    net: &JoinedNet,
) -> Result<Option<Vec<Option<PinRef>>>, Memory>
    requires { net.now.id < length design.now.netlist.nets }
    ensures { IfOk result (λ found. FindsPins design.now net.now (option_map (λ pins. pins.items) found)) }
{
    let mut ends = Ends::of(alloc, &net.par)?;
    'pin: for at in design.pins_on(net.id) {
        if !see_pin(design, *at, &mut ends)? {
            return Ok(None);
        }
    }
    Ok(Some(ends.pins))
}

/// For each connection of a net the pin on it that has its name, if there is one. `None`: some pin on the net is no
/// connection.
pub(crate) fn pins_of(
    alloc: Global,
    design: &Design,
    net: &JoinedNet,
) -> Result<Option<Vec<Option<PinRef>>>, Memory>
    requires { net.now.id < length design.now.netlist.nets }
    ensures { IfOk result (λ found. FindsPins design.now net.now (option_map (λ pins. pins.items) found)) }
{
    if let Some(pins) = pins_in_order(alloc, design, net)? {
        return Ok(Some(pins));
    }
    let pins = pins_by_name(alloc, design, net)?;
    Ok(pins)
}
