//! The sections of a net that is split into stages.

ghost use Rattle.std.specs.Prelude.{◌≡◌, ◌+◌, ◌<◌, length, IfOk, OnOk};
ghost use Rattle.vg_change.specs.Steps.{SaysStages};
ghost use Rattle.vg_split.specs.Splits.{forest};
ghost use Rattle.vg_split.specs.Stages.{heads};

use spef_file::Header;
use std::alloc::Global;
use vg_num::Memory;
use vg_split::{Room, Split, write_stage};

/// Puts the section of a stage behind a text, behind a line's end where it is not the first.
fn push_section(
    x: &Split<'_>,
    stage: usize,
    header: &Header,
    room: &mut Room,
    to: &mut Vec<u8>,
) -> Result<(), Memory>
    requires stage { stage < length (heads (forest x.now)) }
    requires places { length room.old.scratch.places.items ≡ length x.now.problem.tree.nodes }
    requires said { SaysStages header.now x.now stage to.old.items }
    ensures places { length room.new.scratch.places.items ≡ length x.now.problem.tree.nodes }
    ensures said { OnOk result (SaysStages header.now x.now (stage + 1) to.new.items) }
{
    if stage > 0 {
        to.push(b'\n')?;
    }
    write_stage(x, stage, header, room, to)?;
    Ok(())
}

/// The bytes that a stage adds to the section of its net, or more, for most nets: what it takes room for.
const FOR_A_STAGE: usize = 160;

/// The sections of the stages, one after another, without a newline behind the last one. Room is taken at once for the
/// bytes of the section that they replace, and some more for each stage.
pub(crate) fn sections_text(
    alloc: Global,
    x: &Split<'_>,
    header: &Header,
    before: usize,
) -> Result<Vec<u8>, Memory>
    ensures { IfOk result (λ text. SaysStages header.now x.now (length (heads (forest x.now))) text.items) }
{
    let count = x.count();
    let mut room = Room::new(alloc, x.order.len())?;
    let mut text = Vec::with_capacity(
        alloc,
        before.saturating_add(count.saturating_mul(FOR_A_STAGE)),
    )?;
    'stage: for stage in 0..count {
        push_section(x, stage, header, &mut room, &mut text)?;
    }
    Ok(text)
}
