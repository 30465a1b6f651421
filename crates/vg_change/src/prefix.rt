//! Names that begin with a prefix.

ghost use Rattle.std.specs.Prelude.{◌≡◌, ◌<◌, ◌≤◌, Some, false, find, length, map, option_map, slice_get};
ghost use Rattle.spef_file.specs.Files.{file_lines, said_by};
ghost use Rattle.vg_design.specs.Designs.{net_names};
ghost use Rattle.vg_change.specs.Named.{NoneBegins, begins};
ghost use Rattle.vg_change.specs.Taken.{taken};

use crate::begins::{begins_with, goes_on_as_bit};
use crate::taken_name::TakenName;
use ver_module::{Module, Net};
use vg_design::Design;

/// The first name of an instance that begins with a prefix.
fn instance_with<'a>(netlist: &'a Module, prefix: &[u8]) -> Option<&'a [u8]>
    ensures { option_map (λ name. name.now) result
        ≡ find (λ name. begins name prefix.now) (map (λ instance. instance.name) netlist.now.instances) }
{
    'instance: for at in 0..netlist.instance_count() {
        let name = netlist.instance(at).name;
        if name.starts_with(prefix) {
            return Some(name);
        }
    }
    None
}

/// Where the search goes on behind this net, whose name does not begin with the prefix: behind all bits of its vector,
/// unless the prefix goes on with a `[` behind the vector's name, so that other bits may begin with it.
fn next_net(netlist: &Module, at: u32, net: &Net<'_>, prefix: &[u8]) -> u32
    requires there { slice_get netlist.now.nets at ≡ Some net.now }
    requires other { begins net.now.name prefix.now ≡ false }
    ensures on { at < result }
    ensures within { result ≤ length netlist.now.nets }
    ensures others { NoneBegins netlist.now.nets at result prefix.now }
{
    netlist.is_sound();
    if net.bit.is_none() || goes_on_as_bit(net.base, prefix) {
        at + 1
    } else {
        netlist.run_end(at)
    }
}

/// The first name of a net of the netlist that begins with a prefix. The search passes vectors as a whole, unless the
/// prefix goes on with a `[` behind the name of one.
fn net_with<'a>(netlist: &'a Module, prefix: &[u8]) -> Option<TakenName<'a>>
    ensures { result ≡ find (λ name. begins name prefix.now) (map (λ net. net.name) netlist.now.nets) }
{
    let mut at = 0u32;
    'net: while (at as usize) < netlist.net_count() {
        let net = netlist.net(at);
        if begins_with(&net, prefix) {
            return Some(TakenName::of_net(net));
        }
        at = next_net(netlist, at, &net, prefix);
    }
    None
}

/// The first mapped name of the SPEF file that begins with a prefix.
fn mapped_with<'a>(design: &'a Design, prefix: &[u8]) -> Option<&'a [u8]>
    ensures { option_map (λ name. name.now) result
        ≡ find (λ name. begins name prefix.now)
        (map (λ row. row.1) (said_by (file_lines design.now.spef)).names) }
{
    let map = &design.index().map;
    'row: for at in 0..map.len() {
        let name = map.name(at);
        if name.starts_with(prefix) {
            return Some(name);
        }
    }
    None
}

/// The first name of a net of the SPEF file that begins with a prefix.
fn section_with<'a>(design: &'a Design, prefix: &[u8]) -> Option<&'a [u8]>
    ensures { option_map (λ name. name.now) result
        ≡ find (λ name. begins name prefix.now) (net_names design.now.spef) }
{
    'net: for at in 0..design.net_count() {
        let name = design.net_name(at);
        if name.starts_with(prefix) {
            return Some(name);
        }
    }
    None
}

/// The first name of a design that begins with a prefix, so that new names with it could meet others: of the instances
/// of the netlist, of its nets, of the SPEF file's name map, and of its nets, in this order. It takes no memory.
pub fn taken<'a>(design: &'a Design, prefix: &[u8]) -> Option<TakenName<'a>>
    ensures { result ≡ taken design.now prefix.now }
{
    let netlist = design.netlist();
    if let Some(name) = instance_with(netlist, prefix) {
        return Some(TakenName::of_bytes(name));
    }
    if let Some(name) = net_with(netlist, prefix) {
        return Some(name);
    }
    if let Some(name) = mapped_with(design, prefix) {
        return Some(TakenName::of_bytes(name));
    }
    match section_with(design, prefix) {
        Some(name) => Some(TakenName::of_bytes(name)),
        None => None,
    }
}
