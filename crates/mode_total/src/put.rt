//! The cells of what is picked, put into the nets of a design.

ghost use Rattle.std.specs.Prelude.{◌≡◌, ◌<◌, zip, IfOk};
ghost use Rattle.std.specs.List.{AllPairs};
ghost use Rattle.change_spef_laws.specs.Order.{AreOpenFrom};
ghost use Rattle.elmore.specs.Best.{IsGood};
ghost use Rattle.vg_design.specs.Nets.{IsPosedNet};
ghost use Rattle.vg_design.specs.declared.net_problem.PosedNet.{PosedNet as PosedSpec};
ghost use Rattle.vg_place.specs.Placings.{put_of};
ghost use Rattle.vg_place.specs.Steps.{ArePut};
ghost use Rattle.mode_total.specs.Choices.{Accepted};
ghost use Rattle.mode_total.specs.Picked.{picks_in};
ghost use Rattle.mode_total.specs.Steps.{ArePicksFor, ArePutInto, IsKept, kept_name};
ghost use Rattle.mode_total.specs.declared.nets.Net.{Net as NetSpec};

use crate::nets::Net;
use crate::picks::picked;
use elmore::Placement;
use spef_wire::Refused;
use std::alloc::Global;
use vg_change::Changes;
use vg_design::{Design, posed_net};
use vg_front::Point;
use vg_num::Memory;
use vg_place::put_cells;
use vg_scan::Name;

/// Puts the cells of a good placement into a net that was accepted, and tells whether it has any.
fn put_net<'a>(
    alloc: Global,
    changes: Changes<'a>,
    design: &Design,
    net: &Net,
    placement: &Placement,
) -> Result<(Changes<'a>, bool), Memory>
    requires design { changes.design ≡ design.now }
    requires good { (own : Accepted) × IsKept design.now own net.now × IsGood own.net.problem placement.now.cells }
    requires free { AreOpenFrom changes net.now.place }
    ensures { IfOk result (λ made. (posed : PosedSpec) × IsPosedNet design.now (kept_name design.now net.now) posed
        × ArePut changes.entry (put_of posed placement.now.cells) made.0 made.1) }
{
    let name = Name::from_bytes(alloc, design.net_name(net.place))?;
    match posed_net(alloc, design, &name) {
        Ok(posed) => put_cells(alloc, changes, &posed, placement),
        Err(Refused::Memory) => Err(Memory),
        Err(Refused::Net(_)) => unreachable!(),
    }
}

/// Puts the cells of what is picked of the frontiers into the nets, in the order of the parasitics, and tells whether
/// there are any. Answers `Memory` where there is no room.
pub fn put_picks<'a>(
    alloc: Global,
    changes: Changes<'a>,
    design: &Design,
    nets: &[Net],
    fronts: &[Vec<Point>],
    picks: &[u32],
) -> Result<(Changes<'a>, bool), Memory>
    requires design { changes.design ≡ design.now }
    requires picks { ArePicksFor design.now nets.now fronts.now picks.now }
    requires rising { AllPairs (λ (a b : NetSpec). a.place < b.place) nets.now }
    requires free { AreOpenFrom changes 0 }
    ensures { IfOk result (λ made. ArePutInto design.now (zip nets.now (picks_in fronts.now picks.now))
        changes.entry made.0 made.1) }
{
    let mut all = changes;
    let mut changed = false;
    'net: for at in 0..nets.len() {
        let placement = &picked(fronts, picks, at).placement;
        let (made, put) = put_net(alloc, all, design, &nets[at], placement)?;
        all = made;
        changed = changed || put;
    }
    Ok((all, changed))
}
