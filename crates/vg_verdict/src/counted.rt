//! The search for a best placement.

ghost use Rattle.std.specs.Prelude.{◌≡◌, ◌<◌, IfOk};
ghost use Rattle.vg_slack.specs.Bests.{IsAnswer};
ghost use Rattle.vg_slack.specs.Kept.{AreListsOf};

use cand_pool::Steps;
use elmore::Problem;
use std::alloc::Global;
use std::marker::Brand;
use std::sync::ledger::{Blank, Ledger};
use vg_num::Memory;
use vg_slack::{Answer, Room};

/// What a search answers, with its steps counted in this ledger.
fn counted_search<L: Ledger>(
    alloc: Global,
    room: &mut Room,
    problem: &Problem,
    keep: bool,
    blank: Blank,
) -> Result<Answer, Memory>
    requires name { blank.name ≡ L.name }
    requires parts { blank.parts ≡ L.parts }
    requires some { 0 < L.parts }
    ensures found { IfOk result (λ answer. IsAnswer problem.now answer.found) }
    ensures lists { IfOk result (λ answer. AreListsOf problem.now keep answer.lists) }
{
    let mut steps = Steps::<L>::new(blank);
    room.best(alloc, problem, keep, &mut steps)
}

/// A best placement of a problem, or none where no placement is good; with `keep`, the undominated candidates of each
/// node come with it.
pub fn search(
    alloc: Global,
    room: &mut Room,
    problem: &Problem,
    keep: bool,
) -> Result<Answer, Memory>
    ensures found { IfOk result (λ answer. IsAnswer problem.now answer.found) }
    ensures lists { IfOk result (λ answer. AreListsOf problem.now keep answer.lists) }
{
    counted_search::<Brand>(alloc, room, problem, keep, Blank::new(1))
}
