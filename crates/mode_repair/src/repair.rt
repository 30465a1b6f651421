//! The repairs of the nets of a design, as text, and the files that are written.

ghost use Rattle.std.specs.Prelude.{◌≡◌, ℕ, List, IfOk};
ghost use Rattle.std.specs.List.{All, AllPass};
ghost use Rattle.ver_file.specs.Modules.{Denotes as DenotesModule};
ghost use Rattle.vg_change.specs.Changes.{nothing};
ghost use Rattle.vg_scan.specs.Printed.{is_solid};
ghost use Rattle.vg_split.specs.Conditions.{IsNamed};
ghost use Rattle.vg_answer.specs.Answers.{AnswersBy, texts_in};
ghost use Rattle.vg_answer.specs.Faults.{IsDesignFault};
ghost use Rattle.vg_answer.specs.Nets.{named, nets_for};
ghost use Rattle.vg_place.specs.Placings.{IsTaken};
ghost use Rattle.mode_repair.specs.Answers.{IsRepairAnswer};
ghost use Rattle.mode_repair.specs.Steps.{AreRepaired, Repairs};

use crate::nets::{Repairing, repair_all, repair_asked};
use crate::outcome::Goal;
use sol_arena::Arena;
use spef_file::SpefText;
use std::alloc::Global;
use vg_answer::{Answer, DesignTexts, NoAnswer, design_of};
use vg_change::Changes;
use vg_design::Design;
use vg_num::Memory;
use vg_patch::take_comments;
use vg_place::{Judged, Judging};
use vg_scan::Comments;

/// The repairs of the nets of a design that are asked for, where nothing has changed yet.
fn repair_nets<'a>(
    alloc: Global,
    changes: Changes<'a>,
    design: &Design,
    net: Option<&[u8]>,
    goal: Goal,
) -> Result<Repairing<'a>, Memory>
    requires none { changes ≡ nothing design.now changes.prefix }
    ensures { IfOk result
        (AreRepaired design.now goal changes.entry.prefix (nets_for design.now (named net.entry))) }
{
    let mut arena = Arena::new(alloc);
    let judging = Judging::new(alloc, changes);
    match net {
        Some(name) => repair_asked(alloc, judging, &mut arena, design, name, goal),
        None => repair_all(alloc, judging, &mut arena, design, goal),
    }
}

/// What is said of the repairs of the nets of a design that are asked for.
fn repair(
    alloc: Global,
    design: &Design,
    net: Option<&[u8]>,
    goal: Goal,
    prefix: &[u8],
) -> Result<Judged, NoAnswer>
    requires prefix { AllPass is_solid prefix.now }
    requires repeaters { All IsNamed design.now.library.repeaters }
    requires read { (verilog : List ℕ) × DenotesModule verilog design.now.netlist }
    ensures { Repairs design.now
        (record { net = named net.entry; goal = goal; prefix = prefix.now }) result }
{
    match Changes::new(alloc, design, prefix) {
        Ok(changes) => {
            let Repairing { judging, totals } = repair_nets(alloc, changes, design, net, goal)?;
            let mut judged = judging.finish(alloc)?;
            totals.print(&mut judged.text)?;
            Ok(judged)
        }
        Err(taken) => Err(NoAnswer::Taken(taken.to_name(alloc)?)),
    }
}

/// What is said of the cheapest placement of a net with slack enough, or of those of all nets, in the design of four
/// files, with the netlist and the parasitics in which their cells are put, whose names begin with the prefix; or the
/// first fault of the files, or a name of the design that begins with the prefix. Answers `Memory` where there is no
/// room.
///
/// The comments of the parasitics are taken out of their text and put back in it, so that the files that are written
/// need no copy of it.
pub fn repair_for(
    alloc: Global,
    texts: DesignTexts,
    net: Option<&[u8]>,
    goal: Goal,
    prefix: &[u8],
) -> Result<Answer, NoAnswer>
    requires prefix { AllPass is_solid prefix.now }
    ensures { AnswersBy
        (IsRepairAnswer (texts_in texts) (record { net = named net.entry; goal = goal; prefix = prefix.now }))
        (IsDesignFault (texts_in texts)) (IsTaken (texts_in texts) prefix.now) result }
{
    let DesignTexts {
        spef,
        lib,
        verilog,
        cons,
    } = texts;
    let (clear, comments) = take_comments(alloc, spef.bytes, Comments::Spef)?;
    let text = SpefText::from_clear(clear);
    let design = design_of(alloc, text, &lib.bytes, &verilog.bytes, &cons.bytes)?;
    let judged = repair(alloc, &design, net, goal, prefix)?;
    let mut spef = design.into_text().into_bytes();
    comments.restore(&mut spef);
    Ok(judged.into_answer(alloc, verilog.bytes, spef)?)
}
