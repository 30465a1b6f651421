//! The best placement of a net, by the candidate of the root that was chosen.

ghost use Rattle.std.specs.Prelude.{◌≡◌, ◌*◌, ◌≤◌, ◌∷◌, [], take, length, IfOk, MatchBool, MatchOption};
ghost use Rattle.elmore.specs.Legal.{IsPlaced};
ghost use Rattle.elmore.specs.Placements.{IsPlacement};
ghost use Rattle.elmore.specs.Room.{room_of};
ghost use Rattle.wire_widths.specs.Widths.{plain};
ghost use Rattle.vg_slack.specs.Choices.{AreChoices};
ghost use Rattle.vg_slack.specs.Bests.{IsGoodWith, IsBare, NoneIsBare, IsAnswer};

use crate::choices::Choices;
use crate::lists::Lists;
use elmore::{Placement, Problem, Scratch, first_illegal, first_wrong, slack};
use std::alloc::Global;
use vg_num::{Memory, Row};

/// A best placement of a problem, and its slack (zs).
#[derive(Drop)]
pub struct Best {
    pub slack: i128,
    pub placement: Placement,
}

/// What a search found: a best placement, or none where none is good, and the lists that it kept.
#[derive(Drop)]
pub struct Answer {
    pub found: Option<Best>,
    pub lists: Lists,
}

/// Whether a placement is good and has this slack (zs). The scratch has room for the nodes of the net.
fn is_good_with(p: &Problem, at: &Placement, most: i128, scratch: &mut Scratch) -> bool
    requires placement { IsPlacement p.now at.now.cells }
    requires placed { IsPlaced p.now at.now.cells }
    requires room { length p.now.tree.nodes ≤ room_of scratch.old }
    ensures { MatchBool result (IsGoodWith p.now at.now.cells most) (IsGoodWith p.now at.now.cells most → ⊥) }
{
    if first_illegal(p, at, scratch).is_some() {
        return false;
    }
    if first_wrong(p, at, scratch).is_some() {
        return false;
    }
    let own = slack(p, at, scratch);
    own == most
}

/// The placement without a cell, where it is good and has this slack (zs).
fn bare_with(alloc: Global, p: &Problem, most: i128) -> Result<Option<Placement>, Memory>
    ensures { IfOk result (λ at. MatchOption at (NoneIsBare p.now most) (λ at. IsBare p.now most at.cells)) }
{
    let n = p.tree.nodes.len();
    let placement = Placement::empty(alloc, n)?;
    let mut scratch = Scratch::new(alloc, n)?;
    if is_good_with(p, &placement, most, &mut scratch) {
        return Ok(Some(placement));
    }
    Ok(None)
}

/// The placement of what a best solution chooses at nodes.
fn placement_of(p: &Problem, choices: Choices) -> Placement
    requires sites { length choices.sites ≡ 2 * length p.now.tree.nodes }
    ensures { result.cells ≡ take (length p.now.tree.nodes) choices.sites }
{
    let mut cells = choices.sites.into_vec();
    cells.truncate(p.tree.nodes.len());
    Placement {
        cells: Row::from_vec(cells),
    }
}

/// The best placement of a problem, where this is what a best solution chooses whose wires have their only width: the
/// one without a cell where it is best, and else that of the solution. `None`: no placement is good. Answers `Memory`
/// when out of memory.
pub(crate) fn best_placement(
    alloc: Global,
    p: &Problem,
    choices: Option<Choices>,
) -> Result<Option<Best>, Memory>
    requires { AreChoices p.now (plain ∷ []) choices }
    ensures { IfOk result (IsAnswer p.now) }
{
    let Some(choices) = choices else {
        return Ok(None);
    };
    let slack = choices.slack;
    if let Some(placement) = bare_with(alloc, p, slack)? {
        return Ok(Some(Best { slack, placement }));
    }
    let placement = placement_of(p, choices);
    Ok(Some(Best { slack, placement }))
}
