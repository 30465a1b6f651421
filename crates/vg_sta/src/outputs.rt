//! The outputs of instances, and where these lead.

ghost use Rattle.std.specs.Prelude.{◌≡◌, ◌<◌, ◌≤◌, ◌^◌, ◌++◌, [], length, slice_index_or, IfOk, MatchOption, OnOk};
ghost use Rattle.std.specs.List.{All, filter_map};
ghost use Rattle.lib_linear.specs.Libraries.{related_to};
ghost use Rattle.ver_module.specs.Links.{lent_link};
ghost use Rattle.ver_module.specs.Netlists.{IsWithin};
ghost use Rattle.vg_design.specs.Designs.{net_names};
ghost use Rattle.vg_sta.specs.Spans.{IsPut};
ghost use Rattle.vg_sta.specs.Outputs.{onward_at, onward_by, onward_of, outputs_in, section_by};

use crate::sections::section_of;
use name_tables::Names;
use std::alloc::Global;
use std::marker::Model;
use ver_module::{Instance, LinkRef, Pin};
use vg_design::Design;
use vg_num::Memory;

/// An output of an instance that is linked to one net, where the net has a section.
#[derive(Drop)]
pub(crate) struct Output<'a> {
    /// The section of the net.
    pub section: u32,
    /// The pins of the instance that the output names as related.
    pub related: &'a Names,
}

impl<'a> Model for Output<'a> {
    ghost use Rattle.vg_sta.specs.Outputs.{Onward};

    ghost Value = { Onward };

    ghost view = { λ output. record { section = output.section; related = output.related.now } };
}

/// Where the outputs of an instance stand among those of all.
#[derive(Clone, Copy, Drop)]
pub(crate) struct OutputSpan {
    from: u32,
    to: u32,
}

/// The outputs of all instances. Contracts see a list of them for each instance.
#[derive(Drop)]
pub(crate) struct Outputs<'a> {
    spans: Vec<OutputSpan>,
    outputs: Vec<Output<'a>>,
}

impl<'a> Model for Outputs<'a> {
    ghost use Rattle.std.specs.Prelude.{List};
    ghost use Rattle.vg_sta.specs.Outputs.{Onward};
    ghost use Rattle.vg_sta.specs.Spans.{AreSpans, parts_of};

    ghost Value = { List (List Onward) };

    ghost view = { λ all. parts_of all.spans.items all.outputs.items };

    ghost invariant = { λ all. AreSpans all.spans.items all.outputs.items };
}

/// The section of the one net of a link, if it is linked to one that has one. What stands in `name` before does not
/// matter.
fn section_by(design: &Design, link: LinkRef<'_>, name: &mut Vec<u8>) -> Result<Option<u32>, Memory>
    requires sections { length (net_names design.now.spef) ≤ 2 ^ 30 }
    requires within { IsWithin (length design.now.netlist.nets) (lent_link link) }
    ensures { IfOk result (λ section. section ≡ section_by design.now (lent_link link.entry)) }
{
    match link {
        LinkRef::One(net) => {
            let section = section_of(design, net, name)?;
            Ok(section)
        }
        _ => Ok(None),
    }
}

/// The pins that a pin of a cell names as related, if it names some.
fn some_related<'a>(design: &'a Design, cell: &[u8], pin: &[u8]) -> Option<&'a Names>
    ensures { MatchOption result (related_to design.now.library cell.now pin.now ≡ []) (λ related.
        (related.now ≡ related_to design.now.library cell.now pin.now) × (0 < length related.now)) }
{
    let related = design.related(cell, pin)?;
    if related.is_empty() {
        None
    } else {
        Some(related)
    }
}

/// The output that a pin of a cell is, if it names related pins and is linked to one net that has a section. What
/// stands in `name` before does not matter.
fn output_by<'a>(
    design: &'a Design,
    cell: &[u8],
    pin: &Pin<'_>,
    name: &mut Vec<u8>,
) -> Result<Option<Output<'a>>, Memory>
    requires sections { length (net_names design.now.spef) ≤ 2 ^ 30 }
    requires within { IsWithin (length design.now.netlist.nets) pin.now.link }
    ensures { IfOk result (λ output. output ≡ onward_by design.now cell.now pin.now) }
{
    let Some(related) = some_related(design, cell, pin.name) else {
        return Ok(None);
    };
    match section_by(design, pin.link, name)? {
        Some(section) => Ok(Some(Output { section, related })),
        None => Ok(None),
    }
}

/// Puts the outputs of an instance last. What stands in `name` before does not matter.
fn push_outputs<'a>(
    design: &'a Design,
    instance: &Instance<'_>,
    name: &mut Vec<u8>,
    outputs: &mut Vec<Output<'a>>,
) -> Result<(), Memory>
    requires sections { length (net_names design.now.spef) ≤ 2 ^ 30 }
    requires within { All (λ pin. IsWithin (length design.now.netlist.nets) pin.link) instance.now.pins }
    ensures { OnOk result (outputs.new.items ≡ outputs.old.items ++ onward_of design.now instance.now) }
{
    'pin: for at in 0..instance.len() {
        let pin = instance.pin(at);
        let found = output_by(design, instance.cell, &pin, name)?;
        if let Some(output) = found {
            outputs.push(output)?;
        }
    }
    Ok(())
}

/// Puts the outputs of the instance of this number last, and answers where they stand. What stands in `name` before
/// does not matter.
fn push_instance<'a>(
    design: &'a Design,
    at: usize,
    name: &mut Vec<u8>,
    outputs: &mut Vec<Output<'a>>,
) -> Result<OutputSpan, Memory>
    requires sections { length (net_names design.now.spef) ≤ 2 ^ 30 }
    requires instance { at < length design.now.netlist.instances }
    ensures { IfOk result (IsPut (onward_at design.now at) outputs.old.items outputs.new.items) }
{
    let netlist = design.netlist();
    netlist.is_sound();
    let Ok(from) = u32::try_from(outputs.len()) else {
        return Err(Memory);
    };
    push_outputs(design, &netlist.instance(at), name, outputs)?;
    let Ok(to) = u32::try_from(outputs.len()) else {
        return Err(Memory);
    };
    Ok(OutputSpan { from, to })
}

impl<'a> Outputs<'a> {
    /// The outputs of all instances of a design.
    pub fn of(alloc: Global, design: &'a Design) -> Result<Outputs<'a>, Memory>
        requires { length (net_names design.now.spef) ≤ 2 ^ 30 }
        ensures { IfOk result (λ outputs. outputs ≡ outputs_in design.now) }
    {
        let count = design.netlist().instance_count();
        let mut spans = Vec::with_capacity(alloc, count)?;
        let mut outputs = Vec::with_capacity(alloc, count)?;
        let mut name = Vec::new(alloc);
        'instance: for at in 0..count {
            spans.push(push_instance(design, at, &mut name, &mut outputs)?)?;
        }
        Ok(Outputs { spans, outputs })
    }

    /// The outputs of the instance of this number.
    pub fn of_instance(&self, at: usize) -> &[Output<'a>]
        requires { at < length self.now }
        ensures { result.now ≡ slice_index_or self.now at [] }
    {
        let span = self.spans[at];
        &self.outputs[span.from as usize..span.to as usize]
    }
}
