//! The nets of a design, each with its frontier of cost and slack, or refused.

ghost use Rattle.std.specs.Prelude.{◌+◌, ◌<◌, ℕ, [], Option, length, IfOk};
ghost use Rattle.vg_answer.specs.declared.kind.AnswerKind.TheVariants.{Report, Refusal as IsRefusal};
ghost use Rattle.vg_design.specs.Designs.{Design as DesignSpec, net_names};
ghost use Rattle.vg_report.specs.Reports.{refusal_line};
ghost use Rattle.mode_total.specs.Steps.{AreWeighed, HasFront, IsOneMore};

use sol_arena::Arena;
use spef_wire::{Refusal, Refused};
use std::alloc::Global;
use vg_answer::AnswerKind;
use vg_design::{Design, NetProblem, TreeNames, posed_net};
use vg_front::{Point, frontier_in};
use vg_num::Memory;
use vg_report::print_refusal;
use vg_scan::Name;

/// A net that is accepted.
#[derive(Drop)]
pub struct Net {
    /// Its place in the order of the parasitics, from 0.
    pub place: usize,
    /// The names of the nodes of its tree.
    pub names: TreeNames,
}

/// What is known of nets, one after another.
#[derive(Drop)]
pub struct Weighed {
    /// A refusal, where a net is refused, else a report.
    pub kind: AnswerKind,
    /// The lines of the nets that are refused.
    pub text: Vec<u8>,
    /// The nets that are accepted.
    pub nets: Vec<Net>,
    /// For each of them its frontier.
    pub fronts: Vec<Vec<Point>>,
}

impl Weighed {
    /// Nothing is known yet.
    fn new(alloc: Global) -> Weighed
        ensures { (d : DesignSpec) (cap : Option ℕ) → AreWeighed d cap 0 result }
    {
        Weighed {
            kind: AnswerKind::Report,
            text: Vec::new(alloc),
            nets: Vec::new(alloc),
            fronts: Vec::new(alloc),
        }
    }

    /// With an accepted net, at this place, within a cap of the cost (thousandths), if there is one. A frontier of 2^32
    /// points or more counts as want of memory.
    fn with_front(
        mut self,
        alloc: Global,
        arena: &mut Arena,
        place: usize,
        net: NetProblem,
        cap: Option<u64>,
    ) -> Result<Weighed, Memory>
        ensures { IfOk result (HasFront self place net cap) }
    {
        let NetProblem { problem, names } = net;
        let points = frontier_in(alloc, &problem, cap, arena)?;
        if points.len() > u32::MAX as usize {
            return Err(Memory);
        }
        self.nets.push(Net { place, names })?;
        self.fronts.push(points)?;
        Ok(self)
    }

    /// With a net that is refused.
    fn with_refused(
        mut self,
        alloc: Global,
        name: &[u8],
        refusal: &Refusal,
    ) -> Result<Weighed, Memory>
        ensures { IfOk result (IsOneMore self IsRefusal (refusal_line name.now refusal.now) [] []) }
    {
        print_refusal(alloc, name, refusal, &mut self.text)?;
        self.kind = self.kind.worse(AnswerKind::Refusal);
        Ok(self)
    }

    /// With the net at this place, where those before it are known.
    fn with_net(
        self,
        alloc: Global,
        arena: &mut Arena,
        design: &Design,
        place: usize,
        cap: Option<u64>,
    ) -> Result<Weighed, Memory>
        requires place { place < length (net_names design.now.spef) }
        requires before { AreWeighed design.now cap place self }
        ensures { IfOk result (AreWeighed design.now cap (place + 1)) }
    {
        let name = design.net_name(place);
        let net = Name::from_bytes(alloc, name)?;
        match posed_net(alloc, design, &net) {
            Ok(posed) => self.with_front(alloc, arena, place, posed.into_problem(), cap),
            Err(Refused::Net(refusal)) => self.with_refused(alloc, name, &refusal),
            Err(Refused::Memory) => Err(Memory),
        }
    }
}

/// What is known of all nets of the parasitics, in the order of the file, each with its frontier within a cap of the
/// cost (thousandths), if there is one. The searches have their solutions in the arena, which afterwards is as before.
/// Answers `Memory` where there is no room.
pub fn weigh_all(
    alloc: Global,
    arena: &mut Arena,
    design: &Design,
    cap: Option<u64>,
) -> Result<Weighed, Memory>
    ensures { IfOk result (AreWeighed design.now cap (length (net_names design.now.spef))) }
{
    let mut all = Weighed::new(alloc);
    'net: for place in 0..design.net_count() {
        all = all.with_net(alloc, arena, design, place, cap)?;
    }
    Ok(all)
}
