//! The candidates of a place.

ghost use Rattle.std.specs.Prelude.{◌≡◌, ◌+◌, ◌<◌, Bool, true, false, [], length, slice_index_or, IfOk, MatchResult};
ghost use Rattle.sol_arena.specs.Arenas.{slots_of, made_of};
ghost use Rattle.cand_pairs.specs.Merging.{fork_from};
ghost use Rattle.cand_pairs.specs.Solutions.{IsOpenSolutionOf, IsSolutionOf};
ghost use Rattle.vg_front.specs.Branches.{list_of, all_of};
ghost use Rattle.vg_front.specs.Held.{AreBounded, AreHeld, IsGiven};
ghost use Rattle.vg_front.specs.Fronts.{In, AreCells, AreSolved};

use crate::branch::Branch;
use crate::list::give_up;
use crate::make::make_all;
use crate::offer::Candidate;
use crate::propose::Desk;
use elmore::Problem;
use sol_arena::Arena;
use std::alloc::Global;
use vg_num::Memory;

impl Branch {
    /// The candidates of one class at a place with a cell there, where these are those without one; these stay.
    fn cells(
        &self,
        alloc: Global,
        arena: &mut Arena,
        p: &Problem,
        node: usize,
        odd: bool,
        cap: Option<u64>,
        desk: &mut Desk,
    ) -> Result<Vec<Candidate>, Memory>
        requires node { node < length p.now.tree.nodes }
        requires place { slice_index_or p.now.places node false ≡ true }
        requires bounded { (o : Bool) → AreBounded (list_of self.now o) }
        requires held { AreHeld (slots_of arena.old) (all_of self.now) }
        requires solved { (o : Bool)
            → AreSolved p.now (IsOpenSolutionOf p.now o (fork_from p.now node (node + 1))) (made_of arena.old)
            (list_of self.now o) }
        ensures given { MatchResult result (λ cells. IsGiven (slots_of arena.old) [] (slots_of arena.new) cells.items)
            (λ _. IsGiven (slots_of arena.old) [] (slots_of arena.new) []) }
        ensures cells { IfOk result (λ cells. AreCells p.now cap node odd (λ o. In (list_of self.now o)) cells.items) }
        ensures solved { IfOk result (λ cells.
            AreSolved p.now (IsSolutionOf p.now node odd) (made_of arena.new) cells.items) }
    {
        self.propose_cells(alloc, p, node, odd, cap, desk)?;
        let cells = make_all(alloc, arena, &desk.made)?;
        Ok(cells)
    }

    /// The candidates of both classes at a place with a cell there, where these are those without one; these stay.
    /// Answers `Memory` where there is no room.
    pub fn with_cells(
        &self,
        alloc: Global,
        arena: &mut Arena,
        p: &Problem,
        node: usize,
        cap: Option<u64>,
        desk: &mut Desk,
    ) -> Result<Branch, Memory>
        requires node { node < length p.now.tree.nodes }
        requires place { slice_index_or p.now.places node false ≡ true }
        requires bounded { (o : Bool) → AreBounded (list_of self.now o) }
        requires held { AreHeld (slots_of arena.old) (all_of self.now) }
        requires solved { (o : Bool)
            → AreSolved p.now (IsOpenSolutionOf p.now o (fork_from p.now node (node + 1))) (made_of arena.old)
            (list_of self.now o) }
        ensures given { MatchResult result (λ cells.
            IsGiven (slots_of arena.old) [] (slots_of arena.new) (all_of cells))
            (λ _. IsGiven (slots_of arena.old) [] (slots_of arena.new) []) }
        ensures cells { IfOk result (λ cells. (odd : Bool)
            → AreCells p.now cap node odd (λ o. In (list_of self.now o)) (list_of cells odd)) }
        ensures solved { IfOk result (λ cells. (odd : Bool)
            → AreSolved p.now (IsSolutionOf p.now node odd) (made_of arena.new) (list_of cells odd)) }
    {
        let even = self.cells(alloc, arena, p, node, false, cap, desk)?;
        match self.cells(alloc, arena, p, node, true, cap, desk) {
            Ok(odd) => Ok(Branch { even, odd }),
            Err(memory) => {
                give_up(even, arena);
                Err(memory)
            }
        }
    }
}
