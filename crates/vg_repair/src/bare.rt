//! The placement without a cell.

ghost use Rattle.std.specs.Prelude.{◌≡◌, ◌≤◌, length, IfOk, MatchBool};
ghost use Rattle.elmore.specs.Best.{IsGood};
ghost use Rattle.elmore.specs.Placements.{IsPlacement};
ghost use Rattle.elmore.specs.Room.{room_of};
ghost use Rattle.vg_repair.specs.Picks.{IsBareOf};

use elmore::{Placement, Problem, Scratch, first_illegal, first_wrong, slack};
use std::alloc::Global;
use vg_num::Memory;
use vg_slack::Best;

/// Whether a placement is good. The scratch has room for the nodes of the net.
fn is_good(p: &Problem, at: &Placement, scratch: &mut Scratch) -> bool
    requires placement { IsPlacement p.now at.now.cells }
    requires room { length p.now.tree.nodes ≤ room_of scratch.old }
    ensures good { MatchBool result (IsGood p.now at.now.cells) (IsGood p.now at.now.cells → ⊥) }
    ensures room { room_of scratch.new ≡ room_of scratch.old }
{
    if first_illegal(p, at, scratch).is_some() {
        return false;
    }
    first_wrong(p, at, scratch).is_none()
}

/// The placement without a cell and its slack (zs), where it is good.
pub(crate) fn bare_placement(alloc: Global, p: &Problem) -> Result<Option<Best>, Memory>
    ensures { IfOk result (IsBareOf p.now) }
{
    let n = p.tree.nodes.len();
    let placement = Placement::empty(alloc, n)?;
    let mut scratch = Scratch::new(alloc, n)?;
    if !is_good(p, &placement, &mut scratch) {
        return Ok(None);
    }
    let slack = slack(p, &placement, &mut scratch);
    Ok(Some(Best { slack, placement }))
}
