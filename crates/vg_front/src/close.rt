//! The candidates of a node with and without a cell there.

ghost use Rattle.std.specs.Prelude.{◌≡◌, ◌+◌, ◌<◌, Bool, [], length, IfOk, MatchResult};
ghost use Rattle.sol_arena.specs.Arenas.{slots_of, made_of};
ghost use Rattle.vg_front.specs.Branches.{list_of, all_of};
ghost use Rattle.vg_front.specs.Held.{AreBounded, AreHeld, IsGiven};
ghost use Rattle.vg_front.specs.Fronts.{IsOpenAt, IsClosedAt};

use crate::branch::Branch;
use crate::propose::Desk;
use elmore::Problem;
use sol_arena::Arena;
use std::alloc::Global;
use vg_num::Memory;

impl Branch {
    /// The candidates of a node with and without a cell there, where these are those without one. Answers `Memory`
    /// where there is no room; the branch is given up then.
    pub fn close(
        self,
        alloc: Global,
        arena: &mut Arena,
        p: &Problem,
        node: usize,
        cap: Option<u64>,
        desk: &mut Desk,
    ) -> Result<Branch, Memory>
        requires node { node < length p.now.tree.nodes }
        requires bounded { (o : Bool) → AreBounded (list_of self o) }
        requires held { AreHeld (slots_of arena.old) (all_of self) }
        requires open { IsOpenAt p.now cap (node + 1) node (made_of arena.old) (list_of self) }
        ensures given { MatchResult result (λ closed.
            IsGiven (slots_of arena.old) (all_of self) (slots_of arena.new) (all_of closed))
            (λ _. IsGiven (slots_of arena.old) (all_of self) (slots_of arena.new) []) }
        ensures closed { IfOk result (λ closed. IsClosedAt p.now cap node (made_of arena.new) (list_of closed)) }
    {
        if !p.places.as_slice()[node] {
            return Ok(self);
        }
        match self.with_cells(alloc, arena, p, node, cap, desk) {
            Ok(cells) => match self.absorb(arena, cells, &mut desk.stairs, &mut desk.room) {
                Ok(branch) => Ok(branch),
                Err(memory) => Err(memory),
            },
            Err(memory) => {
                self.give_up(arena);
                Err(memory)
            }
        }
    }
}
