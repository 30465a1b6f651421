//! The frontier of a whole design, as text, and the files that are written.

ghost use Rattle.std.specs.Prelude.{◌≡◌, ℕ, List, Option, None, Some, IfSome, IfOk};
ghost use Rattle.std.specs.List.{All, AllPass};
ghost use Rattle.ver_file.specs.Modules.{Denotes as DenotesModule};
ghost use Rattle.vg_change.specs.Changes.{nothing};
ghost use Rattle.vg_scan.specs.Printed.{is_solid};
ghost use Rattle.vg_split.specs.Conditions.{IsNamed};
ghost use Rattle.vg_answer.specs.Answers.{AnswersBy, texts_in};
ghost use Rattle.vg_answer.specs.Faults.{IsDesignFault};
ghost use Rattle.vg_answer.specs.Nets.{named};
ghost use Rattle.mode_total.specs.Answers.{IsTotalAnswer, IsTotalTaken};
ghost use Rattle.mode_total.specs.Steps.{ArePatched, IsFoundFor, Judges};

use crate::put::put_picks;
use crate::search::{Found, search};
use spef_file::SpefText;
use std::alloc::Global;
use vg_answer::{Answer, DesignTexts, NoAnswer, answer_text, design_in, design_of};
use vg_change::{Changes, Patches};
use vg_design::Design;
use vg_num::Memory;
use vg_patch::take_comments;
use vg_place::{Judged, patches_of};
use vg_scan::Comments;

/// What is to be replaced in the texts of a design, so that the nets have the cells of the last point.
fn put_last(
    alloc: Global,
    changes: Changes,
    design: &Design,
    found: &Found,
) -> Result<Patches, Memory>
    requires none { changes ≡ nothing design.now changes.prefix }
    requires found { (cap : Option ℕ) × IsFoundFor design.now cap found.now }
    requires read { (verilog : List ℕ) × DenotesModule verilog design.now.netlist }
    ensures { IfOk result (ArePatched design.now changes.entry.prefix found.now) }
{
    let points = found.points.as_slice();
    let count = points.len();
    if count == 0 {
        return patches_of(alloc, changes, false);
    }
    let picks = &points[count - 1].picks;
    let (changes, changed) = put_picks(alloc, changes, design, &found.nets, &found.fronts, picks)?;
    patches_of(alloc, changes, changed)
}

/// What is said of a design, and what is to be replaced in its texts.
fn judge(
    alloc: Global,
    design: &Design,
    cap: Option<u64>,
    prefix: &[u8],
) -> Result<Judged, NoAnswer>
    requires prefix { AllPass is_solid prefix.now }
    requires repeaters { All IsNamed design.now.library.repeaters }
    requires read { (verilog : List ℕ) × DenotesModule verilog design.now.netlist }
    ensures { Judges design.now cap prefix.now result }
{
    match Changes::new(alloc, design, prefix) {
        Ok(changes) => {
            let found = search(alloc, design, cap)?;
            let patches = put_last(alloc, changes, design, &found)?;
            Ok(Judged {
                kind: found.kind,
                text: found.text,
                patches,
            })
        }
        Err(taken) => Err(NoAnswer::Taken(taken.to_name(alloc)?)),
    }
}

/// What is said of the frontier of a design.
fn total_said(alloc: Global, texts: DesignTexts, cap: Option<u64>) -> Result<Answer, NoAnswer>
    ensures { AnswersBy
        (IsTotalAnswer (texts_in texts) (record { cap = cap; prefix = None }))
        (IsDesignFault (texts_in texts))
        (IsTotalTaken (texts_in texts) (record { cap = cap; prefix = None })) result }
{
    let design = design_in(alloc, texts)?;
    let found = search(alloc, &design, cap)?;
    Ok(answer_text(alloc, found.kind, found.text))
}

/// The same, with the netlist and the parasitics in which the cells of the last point are put, whose names begin with
/// the prefix.
///
/// The comments of the parasitics are taken out of their text and put back in it, so that the files that are written
/// need no copy of it.
fn total_put(
    alloc: Global,
    texts: DesignTexts,
    cap: Option<u64>,
    prefix: &[u8],
) -> Result<Answer, NoAnswer>
    requires prefix { AllPass is_solid prefix.now }
    ensures { AnswersBy
        (IsTotalAnswer (texts_in texts) (record { cap = cap; prefix = Some prefix.now }))
        (IsDesignFault (texts_in texts))
        (IsTotalTaken (texts_in texts) (record { cap = cap; prefix = Some prefix.now })) result }
{
    let DesignTexts {
        spef,
        lib,
        verilog,
        cons,
    } = texts;
    let (clear, comments) = take_comments(alloc, spef.bytes, Comments::Spef)?;
    let text = SpefText::from_clear(clear);
    let design = design_of(alloc, text, &lib.bytes, &verilog.bytes, &cons.bytes)?;
    let judged = judge(alloc, &design, cap, prefix)?;
    let mut spef = design.into_text().into_bytes();
    comments.restore(&mut spef);
    Ok(judged.into_answer(alloc, verilog.bytes, spef)?)
}

/// What is said of the frontier of cost and slack of all nets of the design of four files together, within a cap of the
/// cost (thousandths), if there is one; where a prefix is given, with the netlist and the parasitics in which the cells
/// of the last point are put, whose names begin with the prefix; or the first fault of the files, or a name of the
/// design that begins with the prefix. Answers `Memory` where there is no room.
pub fn total_for(
    alloc: Global,
    texts: DesignTexts,
    cap: Option<u64>,
    prefix: Option<&[u8]>,
) -> Result<Answer, NoAnswer>
    requires prefix { IfSome (named prefix) (λ prefix. AllPass is_solid prefix) }
    ensures { AnswersBy
        (IsTotalAnswer (texts_in texts) (record { cap = cap; prefix = named prefix.entry }))
        (IsDesignFault (texts_in texts))
        (IsTotalTaken (texts_in texts) (record { cap = cap; prefix = named prefix.entry })) result }
{
    match prefix {
        Some(prefix) => total_put(alloc, texts, cap, prefix),
        None => total_said(alloc, texts, cap),
    }
}
