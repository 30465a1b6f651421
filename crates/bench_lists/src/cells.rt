//! Repeaters at a list, and what they make of it.

ghost use Rattle.std.specs.Prelude.{◌≡◌, ◌^◌, ◌+◌, ◌≤◌, ◌<◌, [], ◌∷◌, length, vec_len, IfOk};
ghost use Rattle.cand_pool.specs.Pools.{spare, KeepsOthers, name};
ghost use Rattle.sol_arena.specs.Arenas.{slots_of};
ghost use Rattle.bench_lists.specs.Turns.{size as size_of};
ghost use Rattle.bench_lists.specs.Branches.{IsReady};
ghost use Rattle.bench_lists.specs.Additions.{IsLibrary, IsAdded};

use crate::branches::BARE;
use crate::random::{MOST_GAIN, Random, Top};
use cand_pool::{List, Pool, Steps};
use cand_uses::end_list;
use elmore::{Allowed, Rep};
use sol_arena::Arena;
use std::alloc::{AllocError, Global};
use std::sync::ledger::Ledger;
use vg_convex::{Kept, Shelf, Work, add_cells, find_each};
use vg_num::Memory;

/// The resistance that no repeater reaches (mΩ).
const RESISTANCE: u32 = 1360;

/// Repeaters, and their shelf.
#[derive(Drop)]
pub struct Library {
    reps: Vec<Rep>,
    shelf: Shelf,
}

/// So many repeaters without limits, of which the stronger ones have more input capacitance.
fn make_reps(alloc: Global, count: u32) -> Result<Vec<Rep>, AllocError>
    requires few { count ≤ 256 }
    ensures { IfOk result (λ reps. vec_len reps ≡ count) }
{
    let mut reps = Vec::new(alloc);
    'reps: for at in 0..count {
        reps.push(Rep {
            inverts: false,
            cin: 1 + 4 * u64::from(count - at),
            k: 100,
            r: u64::from((2 * at + 1) * (RESISTANCE / 2) / count),
            cost: 1,
            limit: None,
        })?;
    }
    Ok(reps)
}

impl Library {
    /// A library of so many repeaters. Answers `Memory` when out of memory.
    pub fn new(alloc: Global, count: u32) -> Result<Library, Memory>
        requires few { count ≤ 256 }
        ensures { IfOk result IsLibrary }
    {
        let reps = make_reps(alloc, count)?;
        let shelf = Shelf::new(alloc, &reps)?;
        Ok(Library { reps, shelf })
    }
}

/// Room to find what repeaters make of a list.
#[derive(Drop)]
pub struct Room {
    work: Work,
    kept: Kept,
}

impl Room {
    /// Room that takes no memory yet.
    pub fn new(alloc: Global) -> Room {
        Room {
            work: Work::new(alloc),
            kept: Kept::new(alloc),
        }
    }
}

/// A list of so many candidates without cells, which rise strictly, the further the less.
fn bent(pool: &mut Pool, size: u32, random: &mut Random) -> List
    requires few { size ≤ 10 ^ 6 }
    requires room { size ≤ spare pool.old }
    ensures ready { IsReady pool.new result }
    ensures size { size_of pool.new result ≡ size }
    ensures others { KeepsOthers pool.old [] pool.new (name result ∷ []) }
    ensures spare { spare pool.old ≡ spare pool.new + size }
{
    let mut list = pool.none();
    let mut top = Top { q: 0, c: 0 };
    let mut gain = MOST_GAIN;
    let fall = MOST_GAIN / u64::from(size.max(1));
    'places: for _ in 0..size {
        pool.push(&mut list, i128::from(top.q), top.c, BARE);
        top = random.above(top, gain);
        gain = gain.saturating_sub(fall);
    }
    list
}

/// Makes a list, which ends.
pub fn end_one(pool: &mut Pool, arena: &mut Arena, size: u32, random: &mut Random)
    requires few { size ≤ 10 ^ 6 }
    requires room { size ≤ spare pool.old }
    ensures { spare pool.new ≡ spare pool.old }
{
    let list = bent(pool, size, random);
    end_list(pool, arena, list);
}

/// A list, and what repeaters make of it.
pub struct Added {
    from: List,
    pub made: List,
}

/// Makes a list, and what the repeaters make of it. Answers `Memory` when out of memory.
pub fn add_all<L: Ledger>(
    pool: &mut Pool,
    arena: &mut Arena,
    library: &Library,
    room: &mut Room,
    size: u32,
    random: &mut Random,
    steps: &mut Steps<L>,
) -> Result<Added, Memory>
    requires few { size ≤ 10 ^ 6 }
    requires room { size + 256 ≤ spare pool.old }
    requires library { IsLibrary library.now }
    ensures added { IfOk result (λ added. IsAdded pool.new (slots_of arena.new) added.from added.made) }
    ensures spare { IfOk result (λ added. spare pool.old
        ≡ spare pool.new + size_of pool.new added.from + size_of pool.new added.made) }
{
    let from = bent(pool, size, random);
    let reps = library.reps.as_slice();
    let shelf = &library.shelf;
    let Room { work, kept } = room;
    find_each(pool, &from, reps, shelf, &Allowed::All, work, steps)?;
    let made = add_cells(pool, arena, 0, reps, shelf, work, work, kept)?;
    Ok(Added { from, made })
}

/// Ends a list, and what repeaters made of it.
pub fn end_added(pool: &mut Pool, arena: &mut Arena, added: Added)
    requires { IsAdded pool.old (slots_of arena.old) added.from added.made }
    ensures { spare pool.new ≡ spare pool.old + size_of pool.old added.from + size_of pool.old added.made }
{
    let Added { from, made } = added;
    end_list(pool, arena, made);
    end_list(pool, arena, from);
}
