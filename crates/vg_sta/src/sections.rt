//! Which net of the netlist has a section in the SPEF file.

ghost use Rattle.std.specs.Prelude.{◌≡◌, ◌<◌, ◌≤◌, ◌^◌, length, IfOk, IfSome};
ghost use Rattle.name_tables.specs.Distinct.{number_of};
ghost use Rattle.vg_design.specs.Designs.{net_names};
ghost use Rattle.vg_sta.specs.Graphs.{section_of};

use ver_module::Net;
use vg_design::Design;
use vg_num::Memory;

/// The place of the section of a net, if it has one. What stands in `name` before does not matter.
fn place_of(design: &Design, net: &Net<'_>, name: &mut Vec<u8>) -> Result<Option<usize>, Memory>
    ensures place { IfOk result (λ place. place ≡ number_of (net_names design.now.spef) net.now.name) }
    ensures within { IfOk result (λ place. IfSome place (λ at. at < length (net_names design.now.spef))) }
{
    if net.bit.is_none() {
        return Ok(design.find_section(net.base));
    }
    name.clear();
    net.push_name(name)?;
    Ok(design.find_section(name))
}

/// The section of the net of this number in the netlist, if it has one. The name of a bit is made in `name`: what
/// stands there before does not matter.
pub(crate) fn section_of(
    design: &Design,
    id: u32,
    name: &mut Vec<u8>,
) -> Result<Option<u32>, Memory>
    requires sections { length (net_names design.now.spef) ≤ 2 ^ 30 }
    requires net { id < length design.now.netlist.nets }
    ensures { IfOk result (λ section. section ≡ section_of design.now id) }
{
    let net = design.netlist().net(id);
    match place_of(design, &net, name)? {
        Some(at) => Ok(Some(at as u32)),
        None => Ok(None),
    }
}
