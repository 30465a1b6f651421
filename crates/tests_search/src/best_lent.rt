//! A search in an arena that others use too.

ghost use Rattle.std.specs.Prelude.{◌≡◌, ◌<◌, length, IfOk};
ghost use Rattle.sol_arena.specs.Slots.{IsLive, IsSolution};
ghost use Rattle.sol_arena.specs.Reach.{IsRestored};
ghost use Rattle.sol_arena.specs.Meanings.{cells_of, AreBelow};
ghost use Rattle.sol_arena.specs.Arenas.{slots_of, made_of};

use crate::draft::{Draft, Without};
use cand_pool::Steps;
use elmore::Problem;
use sol_arena::{Arena, Sol};
use std::alloc::Global;
use std::marker::Brand;
use std::sync::ledger::{Blank, Ledger};
use std::test::Fail;
use tests_random::Random;
use vg_num::Memory;
use vg_slack::{Answer, Lists, NodeLists, Room, best, best_in};

/// Whether two searches found the same placement.
fn is_same(one: &Answer, other: &Answer) -> bool {
    let Some(one) = &one.found else {
        return other.found.is_none();
    };
    let Some(other) = &other.found else {
        return false;
    };
    one.slack == other.slack && one.placement.cells.as_slice() == other.placement.cells.as_slice()
}

/// Whether these are the same lists of a node.
fn are_equal(one: &NodeLists, other: &NodeLists) -> bool {
    one.even.as_slice() == other.even.as_slice() && one.odd.as_slice() == other.odd.as_slice()
}

/// Whether two searches kept the same lists.
fn are_same(one: &Lists, other: &Lists) -> bool {
    let mut pairs = one.nodes.iter().zip(other.nodes.iter());
    one.nodes.len() == other.nodes.len() && pairs.all(|(a, b)| are_equal(a, b))
}

/// Whether two searches found the same placement and kept the same lists.
fn are_alike(one: &Answer, other: &Answer) -> bool {
    is_same(one, other) && are_same(&one.lists, &other.lists)
}

/// Whether a search in a lent arena, and one in a room that others used before, answer what one in an arena of its own
/// does.
fn agrees<L: Ledger>(
    alloc: Global,
    p: &Problem,
    arena: &mut Arena,
    room: &mut Room,
    steps: &mut Steps<L>,
) -> Result<bool, Memory>
    ensures { IsRestored (slots_of arena.old) (slots_of arena.new) }
{
    let lent = best_in(alloc, p, true, arena, steps)?;
    let later = room.best(alloc, p, true, steps)?;
    let own = best(alloc, p, true, steps)?;
    Ok(are_alike(&lent, &own) && are_alike(&later, &own))
}

/// Whether these are the cells of a solution, and so many solutions are live.
fn is_kept(
    alloc: Global,
    arena: &Arena,
    sol: Sol,
    cells: &[Option<u32>],
    live: usize,
) -> Result<bool, Memory>
    requires live { IsLive (made_of arena.now) sol.0 }
    requires below { AreBelow (length cells.now) (cells_of (made_of arena.now) sol.0) }
{
    let at = arena.places(alloc, sol, cells.len())?;
    Ok(at.cells.as_slice() == cells && arena.live() == live)
}

/// A solution that was made of two others.
fn held(arena: &mut Arena) -> Result<Sol, Memory>
    ensures solution { IfOk result (λ sol. IsSolution (made_of arena.new) sol.0) }
    ensures below { IfOk result (λ sol. AreBelow 3 (cells_of (made_of arena.new) sol.0)) }
{
    let empty = arena.empty();
    let left = arena.cell(1, 0, empty)?;
    let right = arena.cell(2, 1, empty)?;
    let both = arena.join(left, right)?;
    Ok(both)
}

/// Searches so many problems at random in an arena where a solution of someone else stands. Answers the first one for
/// which another placement or other lists come than in an arena of its own, there or in one room for all of them, or
/// after which the solution is not as before.
fn first_wrong<L: Ledger>(alloc: Global, blank: Blank, cases: u32) -> Result<Option<u32>, Fail>
    requires name { blank.name ≡ L.name }
    requires parts { blank.parts ≡ L.parts }
    requires some { 0 < L.parts }
{
    let mut steps = Steps::<L>::new(blank);
    let mut random = Random::after(3);
    let mut arena = Arena::new(alloc);
    let mut room = Room::new(alloc);
    let sol = held(&mut arena)?;
    'cases: for case in 0..cases {
        let draft = Draft::draw(alloc, &mut random, 8)?;
        let problem = draft.problem(alloc, Without::Nothing)?;
        let same = agrees(alloc, &problem, &mut arena, &mut room, &mut steps)?;
        let kept = is_kept(alloc, &arena, sol, &[None, Some(0), Some(1)], 3)?;
        if !same || !kept {
            return Ok(Some(case));
        }
    }
    Ok(None)
}

#[test]
fn lent_arena_stays(rt: HostRuntime) -> Result<(), Fail> {
    assert_eq!(rt;
        first_wrong::<Brand>(rt.alloc(), Blank::new(1), 1000)?,
        None
    );
    Ok(())
}
