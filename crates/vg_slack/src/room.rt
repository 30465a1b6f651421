//! Room that one search after another uses.

ghost use Rattle.std.specs.Prelude.{[], IfOk, OnOk};
ghost use Rattle.sol_arena.specs.Arenas.{slots_of};
ghost use Rattle.sol_arena.specs.Reach.{IsRestored};
ghost use Rattle.cand_turns.specs.Swaps.{IsSwap, search};
ghost use Rattle.vg_slack.specs.Bests.{IsAnswer};
ghost use Rattle.vg_slack.specs.Kept.{AreListsOf};

use crate::answer::Answer;
use crate::search::best_with;
use cand_pool::{Pool, Steps};
use elmore::Problem;
use sol_arena::Arena;
use std::alloc::Global;
use std::sync::ledger::Ledger;
use vg_num::Memory;

/// Room for searches, which one search after another uses: the lists of a search stand in a pool, and its solutions in
/// an arena. What a search took is free again for the next one, so that many small nets take no more memory than the
/// one that needs most.
#[derive(Drop)]
pub struct Room {
    pub(crate) arena: Arena,
    pub(crate) pool: Pool,
}

impl Room {
    /// Room that is empty at first, takes no memory yet, and grows as it is used.
    pub fn new(alloc: Global) -> Room {
        Room {
            arena: Arena::new(alloc),
            pool: Pool::new(alloc),
        }
    }

    /// A best placement of a problem, or none where no placement is good. With `keep`, the undominated candidates of
    /// each node come with it. The room is then free for the next search: no solution is left in its arena, and no list
    /// in its pool. Answers `Memory` when out of memory.
    pub fn best<L: Ledger>(
        &mut self,
        alloc: Global,
        p: &Problem,
        keep: bool,
        steps: &mut Steps<L>,
    ) -> Result<Answer, Memory>
        ensures found { IfOk result (λ answer. IsAnswer p.now answer.found) }
        ensures lists { IfOk result (λ answer. AreListsOf p.now keep answer.lists) }
        ensures swap { OnOk result
            (IsSwap (search self.old.pool self.old.arena) [] (search self.new.pool self.new.arena) []) }
        ensures restored { IsRestored (slots_of self.old.arena) (slots_of self.new.arena) }
    {
        best_with(alloc, p, keep, &mut self.pool, &mut self.arena, steps)
    }
}
