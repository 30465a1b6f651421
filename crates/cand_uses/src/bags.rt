//! Uses that lists hold, given up.

ghost use Rattle.std.specs.Prelude.{◌≡◌, ◌+◌, ◌∷◌, [], length};
ghost use Rattle.sol_arena.specs.Arenas.{slots_of};
ghost use Rattle.cand_pool.specs.Candidates.{Candidates};
ghost use Rattle.cand_pool.specs.Pools.{spare, Holds, HoldsBag, IsLive, IsLiveBag, items_of, bag_of, bag_name, name, Differ, KeepsOthers};
ghost use Rattle.cand_pool.specs.declared.ends.List.{List as NamedList};
ghost use Rattle.cand_uses.specs.Uses.{HoldsFor, IsExchange};

use cand_pool::{Bag, List, Pool};
use sol_arena::{Arena, Sol};

/// Empties a bag and ends it: the slots of its candidates are spare again, and the uses of their solutions are given
/// up.
pub fn give_up(pool: &mut Pool, arena: &mut Arena, bag: Bag)
    requires live { IsLiveBag pool.old bag }
    requires held { HoldsFor (slots_of arena.old) (bag_of pool.old bag) }
    ensures uses { (xs : Candidates) → HoldsBag pool.old bag xs
        → IsExchange (slots_of arena.old) xs (slots_of arena.new) [] }
    ensures spare { (xs : Candidates) → HoldsBag pool.old bag xs → spare pool.new ≡ spare pool.old + length xs }
    ensures others { KeepsOthers pool.old (bag_name bag ∷ []) pool.new [] }
    ensures lists { (list : NamedList) (xs : Candidates) → Differ (name list) (bag_name bag)
        → Holds pool.old list xs → Holds pool.new list xs }
{
    let mut bag = bag;
    'tags: while let Some(tag) = pool.take(&mut bag) {
        arena.release(Sol(tag));
    }
    pool.close(bag);
}

/// Ends a list: the slots of its candidates are spare again, and the uses of their solutions are given up.
pub fn end_list(pool: &mut Pool, arena: &mut Arena, list: List)
    requires live { IsLive pool.old list }
    requires held { HoldsFor (slots_of arena.old) (items_of pool.old list) }
    ensures uses { IsExchange (slots_of arena.old) (items_of pool.old list) (slots_of arena.new) [] }
    ensures spare { spare pool.new ≡ spare pool.old + length (items_of pool.old list) }
    ensures others { KeepsOthers pool.old (name list ∷ []) pool.new [] }
    ensures lists { (other : NamedList) (xs : Candidates) → Differ (name other) (name list)
        → Holds pool.old other xs → Holds pool.new other xs }
{
    let bag = pool.discard(list);
    give_up(pool, arena, bag);
}
