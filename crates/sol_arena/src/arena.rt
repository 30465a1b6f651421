//! An arena of solutions, and what callers do with them.

ghost use Rattle.std.specs.Prelude.{◌≡◌, ◌≢◌, ℕ, ◌+◌, ◌^◌, ◌<◌, ◌==◌, ◌++◌, ◌∷◌, [], length};
ghost use Rattle.std.specs.Prelude.{slice_index_or, Some, None, MatchResult, IfOk, OnErr};
ghost use Rattle.sol_arena.specs.declared.slot.Made.TheVariants.{Cell, Join};
ghost use Rattle.sol_arena.specs.Slots.{none, IsLive};
ghost use Rattle.sol_arena.specs.Uses.{one_if, uses_of, held_of, live_count};
ghost use Rattle.sol_arena.specs.Meanings.{bare, either_of, with_own, cells_of, AreApart, AreBelow};
ghost use Rattle.sol_arena.specs.Invariant.{IsArena};
ghost use Rattle.sol_arena.specs.Changes.{IsNew, GainsUse, IsReleased};
ghost use Rattle.sol_arena.specs.Walk.{AreLive, IsVisit, cell_so_far};

use crate::make::{make, use_once};
use crate::release::give_up;
use crate::slot::{Made, NONE, Slot, count_solutions};
use elmore::Placement;
use std::alloc::Global;
use vg_num::{Memory, Row};

/// A solution of an arena, by its number.
#[derive(Clone, Copy, Debug, PartialEq, Eq)]
pub struct Sol(pub u64);

/// Solutions that share their parts. Each is a set of cells, at most one for each node, and was made of one or two
/// others. A solution is live as long as it has a use: callers hold some, and each solution has one of each that it was
/// made of. The empty solution is always live, and its uses are not counted.
#[derive(Drop)]
pub struct Arena {
    slots: Vec<Slot>,
    /// The first free slot; each leads to the next.
    free: u64,
    pub ghost sound: { IsArena slots.items free },
}

impl Arena {
    ghost use Rattle.sol_arena.specs.Arenas.{slots_of, made_of};

    /// An arena with the empty solution alone. It takes no memory.
    pub fn new(alloc: Global) -> Arena
        ensures { slots_of result ≡ [] }
    {
        Arena {
            slots: Vec::new(alloc),
            free: NONE,
        }
    }

    /// The solution without cells.
    pub fn empty(&self) -> Sol
        ensures none { result.0 ≡ none }
        ensures bare { (v : ℕ) → cells_of (made_of self.now) result.0 v ≡ None }
    {
        Sol(NONE)
    }

    /// A new solution with one cell more than another, which has none at this node. The caller holds a use of it.
    /// Answers `Memory` where there is no room; nothing changes then.
    pub fn cell(&mut self, node: u32, rep: u32, below: Sol) -> Result<Sol, Memory>
        requires live { IsLive (made_of self.old) below.0 }
        requires apart { cells_of (made_of self.old) below.0 node ≡ None }
        ensures new { IfOk result (λ sol. IsNew (slots_of self.old) (slots_of self.new) sol.0 (Cell node rep below.0)) }
        ensures unchanged { OnErr result (slots_of self.new ≡ slots_of self.old) }
    {
        let made = Made::Cell {
            node,
            rep,
            below: below.0,
        };
        let sol = make(&mut self.slots, &mut self.free, made)?;
        Ok(Sol(sol))
    }

    /// A new solution with the cells of two others, which share no node. The caller holds a use of it. Of two empty
    /// ones it is the empty one, and none is new. Answers `Memory` where there is no room; nothing changes then.
    pub fn join(&mut self, a: Sol, b: Sol) -> Result<Sol, Memory>
        requires live_a { IsLive (made_of self.old) a.0 }
        requires live_b { IsLive (made_of self.old) b.0 }
        requires apart { AreApart (cells_of (made_of self.old) a.0) (cells_of (made_of self.old) b.0) }
        ensures empty { a.0 ≡ none → b.0 ≡ none → MatchResult result (λ sol. sol.0 ≡ none) (λ _. ⊥) }
        ensures same { a.0 ≡ none → b.0 ≡ none → slots_of self.new ≡ slots_of self.old }
        ensures new { ((a.0 ≡ none) × (b.0 ≡ none) → ⊥)
            → IfOk result (λ sol. IsNew (slots_of self.old) (slots_of self.new) sol.0 (Join a.0 b.0)) }
        ensures unchanged { OnErr result (slots_of self.new ≡ slots_of self.old) }
    {
        if a.0 == NONE && b.0 == NONE {
            return Ok(Sol(NONE));
        }
        let made = Made::Join { a: a.0, b: b.0 };
        let sol = make(&mut self.slots, &mut self.free, made)?;
        Ok(Sol(sol))
    }

    /// Adds a use that the caller holds. It takes no memory.
    pub fn keep(&mut self, sol: Sol)
        requires live { IsLive (made_of self.old) sol.0 }
        requires room { uses_of (slots_of self.old) sol.0 < 2 ^ 63 }
        ensures once { GainsUse (slots_of self.old) (slots_of self.new) sol.0 }
        ensures held { (t : ℕ) → t ≢ none
            → held_of (slots_of self.new) t ≡ held_of (slots_of self.old) t + one_if (sol.0 == t) }
    {
        use_once(&mut self.slots, sol.0);
    }

    /// Gives up a use that the caller holds. A solution without uses is freed, and gives up its own uses of others. It
    /// takes no memory.
    pub fn release(&mut self, sol: Sol)
        requires live { IsLive (made_of self.old) sol.0 }
        requires held { sol.0 ≢ none → 0 < held_of (slots_of self.old) sol.0 }
        ensures { IsReleased (slots_of self.old) (slots_of self.new) sol.0 }
    {
        give_up(&mut self.slots, &mut self.free, sol.0);
    }

    /// How many solutions are live beside the empty one. It walks over all slots, and takes no memory.
    pub fn live(&self) -> usize
        ensures { result ≡ live_count (made_of self.now) }
    {
        count_solutions(&self.slots)
    }

    /// Puts the cell of a solution, if it has one, among those that were found, and what it was made of to what is
    /// left.
    fn visit(&self, cells: &mut Vec<Option<u32>>, left: &mut Vec<u64>, s: u64) -> Result<(), Memory>
        requires live { AreLive (made_of self.now) (left.old.items ++ s ∷ []) }
        requires below { AreBelow (length cells.old.items)
            (cell_so_far (made_of self.now) cells.old.items (left.old.items ++ s ∷ [])) }
        ensures { IfOk result (λ _.
            IsVisit (made_of self.now) cells.old.items (left.old.items ++ s ∷ []) cells.new.items left.new.items) }
    {
        if s == NONE {
            return Ok(());
        }
        match self.slots[s as usize].made {
            Made::Cell { node, rep, below } => {
                put_first(cells, node, rep);
                left.push(below)?;
            }
            Made::Join { a, b } => {
                left.push(b)?;
                left.push(a)?;
            }
            _ => unreachable!(),
        }
        Ok(())
    }

    /// The placement of a solution's cells over `n` nodes, of which its nodes are some. Answers `Memory` where there is
    /// no room.
    pub fn places(&self, alloc: Global, sol: Sol, n: usize) -> Result<Placement, Memory>
        requires live { IsLive (made_of self.now) sol.0 }
        requires below { AreBelow n (cells_of (made_of self.now) sol.0) }
        ensures room { IfOk result (λ at. length at.cells ≡ n) }
        ensures cells { IfOk result (λ at. (v : ℕ)
            → slice_index_or at.cells v None ≡ cells_of (made_of self.now) sol.0 v) }
    {
        let mut cells = vec![in alloc; None; n]?;
        let mut left = Vec::new(alloc);
        left.push(sol.0)?;
        'walk: while let Some(s) = left.pop() {
            self.visit(&mut cells, &mut left, s)?;
        }
        Ok(Placement {
            cells: Row::from_vec(cells),
        })
    }
}

/// Puts a repeater at a node that has none yet.
fn put_first(cells: &mut Vec<Option<u32>>, node: u32, rep: u32)
    requires { node < length cells.old.items }
    ensures room { length cells.new.items ≡ length cells.old.items }
    ensures put { (v : ℕ) → slice_index_or cells.new.items v None
        ≡ either_of (slice_index_or cells.old.items v None) (with_own node (Some rep) bare v) }
{
    if cells[node as usize].is_none() {
        cells[node as usize] = Some(rep);
    }
}
