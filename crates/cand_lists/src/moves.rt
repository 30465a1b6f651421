//! Moves of a pool's lists, after which what is dominated is given up.

ghost use Rattle.std.specs.Prelude.{◌≡◌, ◌+◌, ◌*◌, ◌^◌, ◌≤◌, ◌++◌, ◌∷◌, [], length};
ghost use Rattle.sol_arena.specs.Arenas.{slots_of, made_of};
ghost use Rattle.cand_pool.specs.Candidates.{Candidates, AreModest};
ghost use Rattle.cand_pool.specs.Pools.{spare, Holds, IsLive, items_of, name, Differ, KeepsOthers};
ghost use Rattle.cand_uses.specs.Uses.{HoldsFor, IsExchange, MeanTheSame};
ghost use Rattle.cand_lists.specs.ListLaws.{AreRising, above_wire, both};

use cand_pool::{List, Pool, Steps};
use cand_uses::give_up;
use sol_arena::Arena;
use std::sync::ledger::Ledger;

/// Charges a wire of this resistance (mΩ) to each candidate of a list, adds a load (aF) beside its upper end, and gives
/// up those that are then dominated.
pub fn wire<L: Ledger>(
    pool: &mut Pool,
    arena: &mut Arena,
    list: &mut List,
    r: u64,
    c: u64,
    steps: &mut Steps<L>,
)
    requires live { IsLive pool.old list.old }
    requires modest { AreModest (items_of pool.old list.old) }
    requires load { c ≤ 10 ^ 11 }
    requires held { HoldsFor (slots_of arena.old) (items_of pool.old list.old) }
    ensures list { (xs : Candidates) → Holds pool.old list.old xs → Holds pool.new list.new (above_wire r c xs) }
    ensures uses { (xs : Candidates) → Holds pool.old list.old xs
        → IsExchange (slots_of arena.old) xs (slots_of arena.new) (above_wire r c xs) }
    ensures same { (xs : Candidates) → Holds pool.old list.old xs
        → MeanTheSame (made_of arena.old) (made_of arena.new) (above_wire r c xs) }
    ensures others { KeepsOthers pool.old (name list.old ∷ []) pool.new (name list.new ∷ []) }
    ensures spare { (xs : Candidates) → Holds pool.old list.old xs
        → spare pool.new + length (above_wire r c xs) ≡ spare pool.old + length xs }
    ensures steps { (xs : Candidates) → Holds pool.old list.old xs → steps.new ≡ steps.old + length xs }
{
    let bag = pool.wire(list, r, c, steps);
    give_up(pool, arena, bag);
}

/// Takes all candidates of another list into a list, and gives up those that are then dominated. Time and load rise in
/// both.
pub fn absorb<L: Ledger>(
    pool: &mut Pool,
    arena: &mut Arena,
    list: &mut List,
    other: List,
    steps: &mut Steps<L>,
)
    requires live { IsLive pool.old list.old }
    requires other { IsLive pool.old other }
    requires rising_list { AreRising (items_of pool.old list.old) }
    requires rising_other { AreRising (items_of pool.old other) }
    requires differ { Differ (name list.old) (name other) }
    requires held { HoldsFor (slots_of arena.old) (items_of pool.old list.old ++ items_of pool.old other) }
    ensures list { (xs ys : Candidates) → Holds pool.old list.old xs → Holds pool.old other ys
        → Holds pool.new list.new (both xs ys) }
    ensures uses { (xs ys : Candidates) → Holds pool.old list.old xs → Holds pool.old other ys
        → IsExchange (slots_of arena.old) (xs ++ ys) (slots_of arena.new) (both xs ys) }
    ensures same { (xs ys : Candidates) → Holds pool.old list.old xs → Holds pool.old other ys
        → MeanTheSame (made_of arena.old) (made_of arena.new) (both xs ys) }
    ensures others { KeepsOthers pool.old (name list.old ∷ name other ∷ []) pool.new (name list.new ∷ []) }
    ensures spare { (xs ys : Candidates) → Holds pool.old list.old xs → Holds pool.old other ys
        → spare pool.new + length (both xs ys) ≡ spare pool.old + length xs + length ys }
    ensures steps { (xs ys : Candidates) → Holds pool.old list.old xs → Holds pool.old other ys
        → steps.new ≤ steps.old + 2 * (length xs + length ys) }
{
    let bag = pool.absorb(list, other, steps);
    give_up(pool, arena, bag);
}
