//! Solutions that share their parts, and what becomes of their slots.

ghost use Rattle.std.specs.Prelude.{◌≡◌, ◌≢◌, ℕ, ◌<◌, ◌≤◌, length, None, IfOk};
ghost use Rattle.sol_arena.specs.Slots.{none, IsLive};
ghost use Rattle.sol_arena.specs.Uses.{held_of};
ghost use Rattle.sol_arena.specs.Meanings.{cells_of, AreBelow};
ghost use Rattle.sol_arena.specs.Reach.{IsRestored};
ghost use Rattle.sol_arena.specs.Arenas.{slots_of, made_of};

use sol_arena::{Arena, Sol};
use std::alloc::Global;
use std::test::Fail;
use vg_num::Memory;

/// Whether these are the cells of a solution.
fn has_cells(arena: &Arena, alloc: Global, sol: Sol, cells: &[Option<u32>]) -> Result<bool, Memory>
    requires live { IsLive (made_of arena.now) sol.0 }
    requires below { AreBelow (length cells.now) (cells_of (made_of arena.now) sol.0) }
{
    let at = arena.places(alloc, sol, cells.len())?;
    Ok(at.cells.as_slice() == cells)
}

/// A solution that another was made of stays, and goes with it.
#[test]
fn part_goes_with_its_user(rt: HostRuntime) -> Result<(), Fail> {
    let mut arena = Arena::new(rt.alloc());
    let empty = arena.empty();
    let lower = arena.cell(3, 0, empty)?;
    let upper = arena.cell(2, 1, lower)?;
    arena.release(lower);
    assert_eq!(rt; arena.live(), 2);
    let cells = [None, None, Some(1), Some(0)];
    assert!(rt; has_cells(&arena, rt.alloc(), upper, &cells)?);
    arena.release(upper);
    assert_eq!(rt; arena.live(), 0);
    Ok(())
}

/// A solution that two others were made of stays as long as one of them does.
#[test]
fn part_of_two_stays(rt: HostRuntime) -> Result<(), Fail> {
    let mut arena = Arena::new(rt.alloc());
    let empty = arena.empty();
    let part = arena.cell(3, 0, empty)?;
    let first = arena.cell(2, 1, part)?;
    let second = arena.cell(1, 4, part)?;
    arena.release(part);
    arena.release(first);
    assert_eq!(rt; arena.live(), 2);
    arena.release(second);
    assert_eq!(rt; arena.live(), 0);
    Ok(())
}

/// A solution that is kept stays until each use is given up.
#[test]
fn kept_solution_is_released_twice(rt: HostRuntime) -> Result<(), Fail> {
    let mut arena = Arena::new(rt.alloc());
    let empty = arena.empty();
    let sol = arena.cell(0, 7, empty)?;
    arena.keep(sol);
    arena.release(sol);
    assert_eq!(rt; arena.live(), 1);
    arena.release(sol);
    assert_eq!(rt; arena.live(), 0);
    Ok(())
}

/// A join with the empty solution is a new one, with the cells of the other, of which it has a use.
#[test]
fn join_with_the_empty_solution(rt: HostRuntime) -> Result<(), Fail> {
    let mut arena = Arena::new(rt.alloc());
    let empty = arena.empty();
    let part = arena.cell(1, 0, empty)?;
    let joined = arena.join(empty, part)?;
    assert_eq!(rt; arena.live(), 2);
    arena.release(part);
    assert_eq!(rt; arena.live(), 2);
    assert!(rt; has_cells(&arena, rt.alloc(), joined, &[None, Some(0)])?);
    arena.release(joined);
    assert_eq!(rt; arena.live(), 0);
    Ok(())
}

/// A join has the cells of both parts.
#[test]
fn join_of_two(rt: HostRuntime) -> Result<(), Fail> {
    let mut arena = Arena::new(rt.alloc());
    let empty = arena.empty();
    let left = arena.cell(1, 0, empty)?;
    let right = arena.cell(2, 1, empty)?;
    let joined = arena.join(left, right)?;
    assert_eq!(rt; arena.live(), 3);
    assert!(rt; has_cells(&arena, rt.alloc(), joined, &[None, Some(0), Some(1)])?);
    arena.release(joined);
    assert_eq!(rt; arena.live(), 2);
    Ok(())
}

/// The empty solution has no cell, may be kept and released, and is the join of itself with itself.
#[test]
fn empty_solution(rt: HostRuntime) -> Result<(), Fail> {
    let mut arena = Arena::new(rt.alloc());
    let empty = arena.empty();
    assert!(rt; has_cells(&arena, rt.alloc(), empty, &[None, None])?);
    arena.keep(empty);
    arena.release(empty);
    arena.release(empty);
    assert_eq!(rt; arena.join(empty, empty)?, empty);
    assert_eq!(rt; arena.live(), 0);
    Ok(())
}

/// The slot of a solution that is freed serves the next one, whose number may be smaller than that of its part.
#[test]
fn freed_slot_serves_again(rt: HostRuntime) -> Result<(), Fail> {
    let mut arena = Arena::new(rt.alloc());
    let empty = arena.empty();
    let first = arena.cell(0, 5, empty)?;
    let part = arena.cell(1, 6, empty)?;
    arena.release(first);
    let whole = arena.cell(2, 7, part)?;
    assert_eq!(rt; whole, first);
    assert!(rt; whole.0 < part.0);
    assert!(rt; has_cells(&arena, rt.alloc(), whole, &[None, Some(6), Some(7)])?);
    Ok(())
}

/// Makes a solution and gives it up again.
fn there_and_back(arena: &mut Arena, node: u32, rep: u32, below: Sol) -> Result<(), Memory>
    requires live { IsLive (made_of arena.old) below.0 }
    requires apart { cells_of (made_of arena.old) below.0 node ≡ None }
    ensures { IsRestored (slots_of arena.old) (slots_of arena.new) }
{
    let sol = arena.cell(node, rep, below)?;
    arena.release(sol);
    Ok(())
}

/// A call that gives up what it takes leaves the arena as it was.
#[test]
fn what_is_given_up_leaves_no_trace(rt: HostRuntime) -> Result<(), Fail> {
    let mut arena = Arena::new(rt.alloc());
    let empty = arena.empty();
    let sol = arena.cell(1, 6, empty)?;
    there_and_back(&mut arena, 0, 5, sol)?;
    assert_eq!(rt; arena.live(), 1);
    Ok(())
}

/// A solution with one cell more than another, whose use is given up.
fn on_top(arena: &mut Arena, node: u32, below: Sol) -> Result<Sol, Memory>
    requires live { IsLive (made_of arena.old) below.0 }
    requires held { below.0 ≢ none → 0 < held_of (slots_of arena.old) below.0 }
    requires apart { (v : ℕ) → node ≤ v → cells_of (made_of arena.old) below.0 v ≡ None }
    ensures live { IfOk result (λ sol. IsLive (made_of arena.new) sol.0) }
    ensures held { IfOk result (λ sol. 0 < held_of (slots_of arena.new) sol.0) }
    ensures apart { IfOk result (λ sol. (v : ℕ) → node < v → cells_of (made_of arena.new) sol.0 v ≡ None) }
{
    let sol = arena.cell(node, 0, below)?;
    arena.release(below);
    Ok(sol)
}

/// A chain of so many solutions, of which the last alone is held.
fn chain_of(arena: &mut Arena, count: u32) -> Result<Sol, Memory>
    ensures live { IfOk result (λ sol. IsLive (made_of arena.new) sol.0) }
    ensures held { IfOk result (λ sol. sol.0 ≢ none → 0 < held_of (slots_of arena.new) sol.0) }
{
    let mut top = arena.empty();
    'nodes: for node in 0..count {
        top = on_top(arena, node, top)?;
    }
    Ok(top)
}

const LONG: u32 = 100_000;

/// One release frees a long chain.
#[test]
fn one_release_frees_a_chain(rt: HostRuntime) -> Result<(), Fail> {
    let mut arena = Arena::new(rt.alloc());
    let top = chain_of(&mut arena, LONG)?;
    assert_eq!(rt; arena.live(), LONG as usize);
    arena.release(top);
    assert_eq!(rt; arena.live(), 0);
    Ok(())
}
