//! Nets with a placement each, one after another.

ghost use Rattle.std.specs.Prelude.{◌≡◌, ℕ, List, IfOk};
ghost use Rattle.elmore.specs.Best.{IsGood};
ghost use Rattle.ver_file.specs.Modules.{Denotes as DenotesModule};
ghost use Rattle.vg_change.specs.Changes.{IsBehind, IsFresh};
ghost use Rattle.vg_design.specs.Nets.{IsPosedNet};
ghost use Rattle.vg_report.specs.Reports.{none_line, refusal_line};
ghost use Rattle.vg_answer.specs.Verdicts.{bare_verdict};
ghost use Rattle.vg_answer.specs.declared.kind.AnswerKind.{AnswerKind as Kind};
ghost use Rattle.vg_place.specs.Placings.{placed_verdict, put_of};
ghost use Rattle.vg_place.specs.Steps.{ArePut, HaveChange, IsBegun, IsFinished, IsOneMore};

use crate::judged::{Judged, no_patches};
use elmore::Placement;
use spef_wire::Refusal;
use std::alloc::Global;
use vg_answer::AnswerKind;
use vg_change::{Changes, Patches};
use vg_design::{Design, PosedNet};
use vg_num::Memory;
use vg_report::{count_cells, print_none, print_refusal, report_best};
use vg_slack::Best;

/// What is said of nets, one after another, and what changes in their design when the cells of their placements are put
/// in.
#[derive(Drop)]
pub struct Judging<'a> {
    pub changes: Changes<'a>,
    /// Whether cells were put into some net.
    pub changed: bool,
    /// The kind of all answers together.
    pub kind: AnswerKind,
    /// The lines of all nets.
    pub text: Vec<u8>,
}

/// Puts the cells of a good placement into a net, and tells whether it has any. Answers `Memory` where there is no room.
pub fn put_cells<'a>(
    alloc: Global,
    changes: Changes<'a>,
    net: &PosedNet,
    placement: &Placement,
) -> Result<(Changes<'a>, bool), Memory>
    requires posed { (name : List ℕ) × IsPosedNet changes.design name net.now }
    requires good { IsGood net.now.problem placement.now.cells }
    requires behind { IsBehind changes net.now.ready.pinned.net.par.name }
    requires fresh { IsFresh changes net.now.ready.pinned.net.id }
    ensures { IfOk result (λ made. ArePut changes.entry (put_of net.now placement.now.cells) made.0 made.1) }
{
    if count_cells(placement) == 0 {
        return Ok((changes, false));
    }
    let changes = changes.put(alloc, net, placement)?;
    Ok((changes, true))
}

/// What is to be replaced in the texts of a design that changed so: nothing where no net got a cell. Answers `Memory`
/// where there is no room.
pub fn patches_of(alloc: Global, changes: Changes, changed: bool) -> Result<Patches, Memory>
    requires read { (verilog : List ℕ) × DenotesModule verilog changes.design.netlist }
    ensures { IfOk result (HaveChange changes.entry changed) }
{
    if !changed {
        return Ok(no_patches(alloc));
    }
    let patches = changes.patches(alloc)?;
    Ok(patches)
}

impl<'a> Judging<'a> {
    /// Nothing is said yet.
    pub fn new(alloc: Global, changes: Changes<'a>) -> Judging<'a>
        ensures { IsBegun changes.entry result }
    {
        Judging {
            changes,
            changed: false,
            kind: AnswerKind::Report,
            text: Vec::new(alloc),
        }
    }

    /// With a good placement of a net, which is reported as an answer of this kind. Answers `Memory` where there is no
    /// room.
    pub fn with_placed(
        self,
        alloc: Global,
        design: &Design,
        name: &[u8],
        net: PosedNet,
        best: &Best,
        kind: AnswerKind,
    ) -> Result<Judging<'a>, Memory>
        requires design { self.changes.design ≡ design.now }
        requires posed { IsPosedNet design.now name.now net }
        requires good { IsGood net.problem best.now.placement.cells }
        requires behind { IsBehind self.changes net.ready.pinned.net.par.name }
        requires fresh { IsFresh self.changes net.ready.pinned.net.id }
        ensures { IfOk result (IsOneMore self.entry (placed_verdict kind design.now name.now net best.now)) }
    {
        let Judging {
            changes,
            changed,
            kind: before,
            mut text,
        } = self;
        let (changes, put) = put_cells(alloc, changes, &net, &best.placement)?;
        report_best(
            name,
            design.repeaters(),
            &net.into_problem(),
            best,
            &mut text,
        )?;
        Ok(Judging {
            changes,
            changed: changed || put,
            kind: before.worse(kind),
            text,
        })
    }

    /// With a net that has no good placement. Answers `Memory` where there is no room.
    pub fn with_none(mut self, name: &[u8]) -> Result<Judging<'a>, Memory>
        ensures { IfOk result (IsOneMore self.entry (bare_verdict Kind.NoneGood (none_line name.now))) }
    {
        print_none(name, &mut self.text)?;
        self.kind = self.kind.worse(AnswerKind::NoneGood);
        Ok(self)
    }

    /// With a net that is refused. Answers `Memory` where there is no room.
    pub fn with_refused(
        mut self,
        alloc: Global,
        name: &[u8],
        refusal: &Refusal,
    ) -> Result<Judging<'a>, Memory>
        ensures { IfOk result (IsOneMore self.entry (bare_verdict Kind.Refusal (refusal_line name.now refusal.now))) }
    {
        print_refusal(alloc, name, refusal, &mut self.text)?;
        self.kind = self.kind.worse(AnswerKind::Refusal);
        Ok(self)
    }

    /// What was said, and what is to be replaced in the texts of the design, where nothing is unless a net got a cell.
    /// Answers `Memory` where there is no room.
    pub fn finish(self, alloc: Global) -> Result<Judged, Memory>
        requires read { (verilog : List ℕ) × DenotesModule verilog self.changes.design.netlist }
        ensures { IfOk result (IsFinished self.entry) }
    {
        let Judging {
            changes,
            changed,
            kind,
            text,
        } = self;
        let patches = patches_of(alloc, changes, changed)?;
        Ok(Judged {
            kind,
            text,
            patches,
        })
    }
}
