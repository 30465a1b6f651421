//! Turns of tasks.

ghost use Rattle.std.specs.Prelude.{◌≡◌, ◌^◌, ◌+◌, ◌*◌, ◌≤◌, IfOk};
ghost use Rattle.cand_pool.specs.Pools.{spare};
ghost use Rattle.bench_lists.specs.Additions.{IsLibrary};

use crate::branches::{end_two, merge_and_end};
use crate::cells::{Library, Room, add_all, end_added, end_one};
use crate::lists;
use crate::random::Random;
use crate::task::Task;
use cand_pool::{Pool, Steps};
use sol_arena::Arena;
use std::sync::ledger::Ledger;
use vg_num::Memory;

/// One turn of a task. Answers a sum over the tags that were given up, or `Memory` when out of memory.
pub fn turn<L: Ledger>(
    pool: &mut Pool,
    arena: &mut Arena,
    library: &Library,
    room: &mut Room,
    task: Task,
    size: u32,
    random: &mut Random,
    steps: &mut Steps<L>,
) -> Result<u64, Memory>
    requires few { size ≤ 10 ^ 6 }
    requires room { 2 * size + 256 ≤ spare pool.old }
    requires library { IsLibrary library.now }
    ensures { IfOk result (λ _. spare pool.new ≡ spare pool.old) }
{
    match task {
        Task::Change(operation) => return Ok(lists::turn(pool, operation, size, random, steps)),
        Task::Branches => end_two(pool, arena, size, random),
        Task::Merge => merge_and_end(pool, arena, size, random, steps)?,
        Task::Plain => end_one(pool, arena, size, random),
        Task::Cells(_) => {
            let added = add_all(pool, arena, library, room, size, random, steps)?;
            end_added(pool, arena, added);
        }
    }
    Ok(0)
}
