//! The cells that were put in.

ghost use Rattle.std.specs.Prelude.{◌≡◌, ◌<◌, None, Some, length, IfSome, MatchOption};
ghost use Rattle.ver_module.specs.Links.{lent_link};
ghost use Rattle.vg_design.specs.Designs.{instance_at, name_of};
ghost use Rattle.vg_design.specs.Steps.{ArePins, IsPin};
ghost use Rattle.vg_retime.specs.Passages.{from_at as from_in, into_at as into_in, net_at, one_net, passage_at as passage_in, passage_of, put_in, repeater_of};

use lib_linear::Repeater;
use std::marker::Model;
use ver_module::{Instance, LinkRef};
use ver_net::PinRef;
use vg_design::{Design, PinnedNet};

/// A cell that was put in: its instance and its repeater.
#[derive(Drop)]
pub(crate) struct Passage<'a> {
    pub instance: Instance<'a>,
    pub repeater: &'a Repeater,
}

impl<'a> Model for Passage<'a> {
    ghost use Rattle.vg_retime.specs.Passages.{Passage as PassageSpec};

    ghost Value = { PassageSpec };

    ghost view = { λ passage. record { instance = passage.instance; repeater = passage.repeater.now } };
}

/// The repeater of a cell, if it is one.
fn repeater_of<'a>(design: &'a Design, cell: &[u8]) -> Option<&'a Repeater>
    ensures { MatchOption result (repeater_of design.now.library cell.now ≡ None) (λ r.
        repeater_of design.now.library cell.now ≡ Some r.now) }
{
    let repeaters = design.repeaters();
    'repeater: for repeater in repeaters {
        if cell == repeater.cell.as_bytes() {
            return Some(repeater);
        }
    }
    None
}

/// The repeater that an instance is, where it was put in: its name begins with the prefix.
fn put_in<'a>(design: &'a Design, prefix: &[u8], instance: &Instance<'_>) -> Option<&'a Repeater>
    ensures { MatchOption result (put_in design.now prefix.now instance.now ≡ None) (λ r.
        put_in design.now prefix.now instance.now ≡ Some r.now) }
{
    if !instance.name.starts_with(prefix) {
        return None;
    }
    repeater_of(design, instance.cell)
}

/// The cell that was put in whose pin this is, if it is one.
fn passage_of<'a>(design: &'a Design, prefix: &[u8], pin: PinRef) -> Option<Passage<'a>>
    requires { IsPin design.now.netlist pin }
    ensures { result ≡ passage_of design.now prefix.now (instance_at design.now.netlist pin) }
{
    let instance = design.instance_of(pin);
    match put_in(design, prefix, &instance) {
        None => None,
        Some(repeater) => Some(Passage { instance, repeater }),
    }
}

/// The cell that was put in one of whose pins a connection is, if there is one.
fn passage_at<'a>(
    design: &'a Design,
    prefix: &[u8],
    net: &PinnedNet,
    at: usize,
) -> Option<Passage<'a>>
    requires pins { ArePins design.now net.now.net net.now.pins }
    requires at { at < length net.now.net.par.conns }
    ensures { result ≡ passage_in design.now prefix.now net.now.net (name_of net.now.net.par at) }
{
    match net.pins.as_slice()[at] {
        None => None,
        Some(pin) => passage_of(design, prefix, pin),
    }
}

/// The cell that was put in whose input a connection is, if there is one.
pub(crate) fn into_at<'a>(
    design: &'a Design,
    prefix: &[u8],
    net: &PinnedNet,
    at: usize,
) -> Option<Passage<'a>>
    requires pins { ArePins design.now net.now.net net.now.pins }
    requires at { at < length net.now.net.par.conns }
    ensures { result ≡ into_in design.now prefix.now net.now.net (name_of net.now.net.par at) }
{
    let passage = passage_at(design, prefix, net, at)?;
    if net.net.par.nodes.leaf(at) == passage.repeater.input.as_bytes() {
        Some(passage)
    } else {
        None
    }
}

/// The cell that was put in whose output a connection is, if there is one.
pub(crate) fn from_at<'a>(
    design: &'a Design,
    prefix: &[u8],
    net: &PinnedNet,
    at: usize,
) -> Option<Passage<'a>>
    requires pins { ArePins design.now net.now.net net.now.pins }
    requires at { at < length net.now.net.par.conns }
    ensures { result ≡ from_in design.now prefix.now net.now.net (name_of net.now.net.par at) }
{
    let passage = passage_at(design, prefix, net, at)?;
    if net.net.par.nodes.leaf(at) == passage.repeater.output.as_bytes() {
        Some(passage)
    } else {
        None
    }
}

/// The one net of a link.
fn one_net(link: LinkRef<'_>) -> Option<u32>
    ensures { result ≡ one_net (lent_link link.entry) }
{
    match link {
        LinkRef::One(net) => Some(net),
        _ => None,
    }
}

/// The net at the pin of this name of an instance, if it is at one net. Of two pins of one name the first counts.
fn net_at(instance: &Instance<'_>, pin: &[u8]) -> Option<u32>
    ensures { result ≡ net_at instance.now pin.now }
{
    'pin: for at in 0..instance.len() {
        let found = instance.pin(at);
        if pin == found.name {
            return one_net(found.link);
        }
    }
    None
}

impl<'a> Passage<'a> {
    /// The net at the cell's input, if it is at one.
    pub fn net_in(&self) -> Option<u32>
        ensures { result ≡ net_at self.now.instance self.now.repeater.input }
    {
        net_at(&self.instance, self.repeater.input.as_bytes())
    }

    /// The net at the cell's output, if it is at one.
    pub fn net_out(&self) -> Option<u32>
        ensures { result ≡ net_at self.now.instance self.now.repeater.output }
    {
        net_at(&self.instance, self.repeater.output.as_bytes())
    }
}
