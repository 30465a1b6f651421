//! The section of a net with its resistors cut, in place of its own.

ghost use Rattle.std.specs.Prelude.{◌≡◌, ◌≤◌, ◌<◌, ◌^◌, true, false, length, OnOk, OnErr};
ghost use Rattle.std.specs.List.{Contains};
ghost use Rattle.spef_file.specs.Tables.{is_section};
ghost use Rattle.spef_file.specs.declared.section.Section.{Section};
ghost use Rattle.spef_write.specs.Sections.{total};
ghost use Rattle.vg_patch.specs.Edits.{end_of};
ghost use Rattle.vg_segment.specs.Texts.{cut_count, IsReplaced};

use crate::cut::segment;
use spef_file::SpefIndex;
use spef_net::ParNet;
use spef_write::write_net;
use std::alloc::Global;
use vg_num::Memory;
use vg_patch::Patch;
use vg_scan::Span;

/// Puts the section of a net with each resistor cut into so many parts in place of the net's own (SPEF, IEEE Std 1481),
/// behind what the patch replaces already. All else of the text stays, byte for byte.
///
/// Answers `Memory` where there is no room, and then the patch is as before.
pub fn segment_text(
    alloc: Global,
    index: &SpefIndex,
    net: &ParNet,
    parts: u32,
    patch: &mut Patch,
) -> Result<(), Memory>
    requires some { 0 < parts }
    requires few { parts ≤ 64 }
    requires whole { net.now.reduced ≡ false }
    requires plain { net.now.inductive ≡ false }
    requires size { cut_count parts net.now ≤ 65536 }
    requires charge { total net.now.caps ≤ 10 ^ 15 }
    requires section { is_section index.now.sections net.now.name ≡ true }
    requires behind { (section : Section) → Contains index.now.sections (net.now.name, section)
        → (end_of patch.old ≤ section.from) × (section.from ≤ section.to) }
    ensures replaced { OnOk result (IsReplaced index.now parts net.now patch.old patch.new) }
    ensures unchanged { OnErr result (patch.new ≡ patch.old) }
{
    let Some(at) = index.sections.find(net.name.as_bytes()) else {
        unreachable!()
    };
    let section = index.sections.get(at);
    let cut = segment(alloc, net, parts)?;
    let mut text = Vec::new(alloc);
    write_net(alloc, &cut, &index.header, &mut text)?;
    let part = Span {
        from: section.from as usize,
        to: section.to as usize,
    };
    patch.replace_by(part, text)?;
    Ok(())
}
