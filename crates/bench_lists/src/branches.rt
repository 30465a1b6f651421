//! Branches that are made, merged, and ended.

ghost use Rattle.std.specs.Prelude.{◌≡◌, ◌^◌, ◌+◌, ◌*◌, ◌≤◌, [], ◌∷◌, length, IfOk};
ghost use Rattle.cand_pool.specs.Pools.{spare, items_of, IsLive, KeepsOthers, name};
ghost use Rattle.cand_uses.specs.Uses.{HoldsFor};
ghost use Rattle.sol_arena.specs.Arenas.{slots_of};
ghost use Rattle.bench_lists.specs.Turns.{size as size_of};
ghost use Rattle.bench_lists.specs.Branches.{IsReady};

use crate::random::Random;
use cand_pool::{List, Pool, Steps};
use cand_uses::end_list;
use sol_arena::Arena;
use std::sync::ledger::Ledger;
use vg_merge::merge;
use vg_num::Memory;

/// The tag of a candidate without cells: the number of the empty solution.
pub const BARE: u64 = u64::MAX;

/// A list of so many candidates without cells, which rise strictly.
pub fn rising(pool: &mut Pool, size: u32, random: &mut Random) -> List
    requires few { size ≤ 10 ^ 6 }
    requires room { size ≤ spare pool.old }
    ensures ready { IsReady pool.new result }
    ensures size { size_of pool.new result ≡ size }
    ensures others { KeepsOthers pool.old [] pool.new (name result ∷ []) }
    ensures spare { spare pool.old ≡ spare pool.new + size }
{
    let mut list = pool.none();
    'places: for at in 0..size {
        let point = random.point(at);
        pool.push(&mut list, point.q, point.c, BARE);
    }
    list
}

/// Makes two branches, which end.
pub fn end_two(pool: &mut Pool, arena: &mut Arena, size: u32, random: &mut Random)
    requires few { size ≤ 10 ^ 6 }
    requires room { 2 * size ≤ spare pool.old }
    ensures { spare pool.new ≡ spare pool.old }
{
    let a = rising(pool, size, random);
    let b = rising(pool, size, random);
    end_list(pool, arena, a);
    end_list(pool, arena, b);
}

/// Makes two branches, and merges them. Answers `Memory` when out of memory.
pub fn merge_two<L: Ledger>(
    pool: &mut Pool,
    arena: &mut Arena,
    size: u32,
    random: &mut Random,
    steps: &mut Steps<L>,
) -> Result<List, Memory>
    requires few { size ≤ 10 ^ 6 }
    requires room { 2 * size ≤ spare pool.old }
    ensures live { IfOk result (λ list. IsLive pool.new list) }
    ensures held { IfOk result (λ list. HoldsFor (slots_of arena.new) (items_of pool.new list)) }
    ensures spare { IfOk result (λ list. spare pool.old ≡ spare pool.new + size_of pool.new list) }
{
    let a = rising(pool, size, random);
    let b = rising(pool, size, random);
    let list = merge(pool, arena, a, b, steps)?;
    Ok(list)
}

/// Makes two branches and merges them; what they make together ends. Answers `Memory` when out of memory.
pub fn merge_and_end<L: Ledger>(
    pool: &mut Pool,
    arena: &mut Arena,
    size: u32,
    random: &mut Random,
    steps: &mut Steps<L>,
) -> Result<(), Memory>
    requires few { size ≤ 10 ^ 6 }
    requires room { 2 * size ≤ spare pool.old }
    ensures { IfOk result (λ _. spare pool.new ≡ spare pool.old) }
{
    let list = merge_two(pool, arena, size, random, steps)?;
    end_list(pool, arena, list);
    Ok(())
}
