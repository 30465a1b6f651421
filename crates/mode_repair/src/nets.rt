//! The repairs of nets, one after another.

ghost use Rattle.std.specs.Prelude.{◌≡◌, [], ◌∷◌, IfOk};
ghost use Rattle.change_spef_laws.specs.Order.{IsOpen};
ghost use Rattle.vg_change.specs.Changes.{IsBehind, IsFresh, nothing};
ghost use Rattle.vg_design.specs.Designs.{net_names, Design as DesignSpec};
ghost use Rattle.vg_design.specs.Nets.{IsPosedNet};
ghost use Rattle.vg_design.specs.Refusals.{IsFirstRefusal};
ghost use Rattle.vg_place.specs.Steps.{IsBegun};
ghost use Rattle.mode_repair.specs.declared.outcome.Goal.{Goal as GoalSpec};
ghost use Rattle.mode_repair.specs.Steps.{AreRepaired, HasRoom, RepairsOne};

use crate::outcome::{Goal, Outcome};
use crate::totals::Totals;
use sol_arena::Arena;
use spef_wire::{Refusal, Refused};
use std::alloc::Global;
use vg_design::{Design, PosedNet, posed_net};
use vg_num::Memory;
use vg_place::Judging;
use vg_repair::repaired;
use vg_scan::Name;

/// What is said of the repairs of nets, one after another, and how many nets came to what.
#[derive(Drop)]
pub struct Repairing<'a> {
    pub judging: Judging<'a>,
    pub totals: Totals,
}

impl<'a> Repairing<'a> {
    /// With a net that has a problem.
    fn with_posed(
        self,
        alloc: Global,
        arena: &mut Arena,
        design: &Design,
        name: &[u8],
        net: PosedNet,
        goal: Goal,
    ) -> Result<Repairing<'a>, Memory>
        requires design { self.judging.changes.design ≡ design.now }
        requires posed { IsPosedNet design.now name.now net }
        requires behind { IsBehind self.judging.changes net.ready.pinned.net.par.name }
        requires fresh { IsFresh self.judging.changes net.ready.pinned.net.id }
        requires room { HasRoom self.totals }
        ensures { IfOk result (RepairsOne design.now goal name.now self.entry) }
    {
        let Repairing { judging, totals } = self;
        match repaired(alloc, &net.problem, goal.cap, goal.target, arena)? {
            Some(best) => {
                let outcome = goal.outcome(best.slack);
                let kind = outcome.kind();
                let judging = judging.with_placed(alloc, design, name, net, &best, kind)?;
                Ok(Repairing {
                    judging,
                    totals: totals.with(outcome),
                })
            }
            None => {
                let judging = judging.with_none(name)?;
                Ok(Repairing {
                    judging,
                    totals: totals.with(Outcome::NoneGood),
                })
            }
        }
    }

    /// With a net that is refused.
    fn with_refused(
        self,
        alloc: Global,
        name: &[u8],
        refusal: &Refusal,
    ) -> Result<Repairing<'a>, Memory>
        requires room { HasRoom self.totals }
        ensures { (d : DesignSpec) (goal : GoalSpec) → IsFirstRefusal d name.now refusal.now
            → IfOk result (RepairsOne d goal name.now self.entry) }
    {
        let Repairing { judging, totals } = self;
        let judging = judging.with_refused(alloc, name, refusal)?;
        Ok(Repairing {
            judging,
            totals: totals.with(Outcome::Refused),
        })
    }

    /// With the net of this name. Answers `Memory` where there is no room.
    pub fn with_net(
        self,
        alloc: Global,
        arena: &mut Arena,
        design: &Design,
        name: &[u8],
        goal: Goal,
    ) -> Result<Repairing<'a>, Memory>
        requires design { self.judging.changes.design ≡ design.now }
        requires free { IsOpen self.judging.changes name.now }
        requires room { HasRoom self.totals }
        ensures { IfOk result (RepairsOne design.now goal name.now self.entry) }
    {
        let net = Name::from_bytes(alloc, name)?;
        match posed_net(alloc, design, &net) {
            Ok(posed) => self.with_posed(alloc, arena, design, name, posed, goal),
            Err(Refused::Net(refusal)) => self.with_refused(alloc, name, &refusal),
            Err(Refused::Memory) => Err(Memory),
        }
    }
}

/// The repair of the one net that is asked for, where nothing was said before. Answers `Memory` where there is no room.
pub fn repair_asked<'a>(
    alloc: Global,
    judging: Judging<'a>,
    arena: &mut Arena,
    design: &Design,
    name: &[u8],
    goal: Goal,
) -> Result<Repairing<'a>, Memory>
    requires begun { IsBegun (nothing design.now judging.changes.prefix) judging }
    ensures { IfOk result (AreRepaired design.now goal judging.entry.changes.prefix (name.now ∷ [])) }
{
    let none = Repairing {
        judging,
        totals: Totals::new(),
    };
    none.with_net(alloc, arena, design, name, goal)
}

/// The repairs of all nets of the parasitics, in the order of the file, where nothing was said before. Answers `Memory`
/// where there is no room.
pub fn repair_all<'a>(
    alloc: Global,
    judging: Judging<'a>,
    arena: &mut Arena,
    design: &Design,
    goal: Goal,
) -> Result<Repairing<'a>, Memory>
    requires begun { IsBegun (nothing design.now judging.changes.prefix) judging }
    ensures { IfOk result
        (AreRepaired design.now goal judging.entry.changes.prefix (net_names design.now.spef)) }
{
    let mut all = Repairing {
        judging,
        totals: Totals::new(),
    };
    'net: for at in 0..design.net_count() {
        let name = design.net_name(at);
        all = all.with_net(alloc, arena, design, name, goal)?;
    }
    Ok(all)
}
