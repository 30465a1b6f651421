//! Rounds of turns, shown and timed.

ghost use Rattle.std.specs.Prelude.{◌≡◌, ◌^◌, ◌+◌, ◌*◌, ◌≤◌, ◌<◌, IfOk};
ghost use Rattle.cand_pool.specs.Pools.{spare};
ghost use Rattle.bench_lists.specs.Additions.{IsLibrary};

use crate::branches::merge_two;
use crate::cells::{Library, Room, add_all, end_added};
use crate::lists::{Sum, show, sum_up};
use crate::operation::Operation;
use crate::plan::Plan;
use crate::random::Random;
use crate::task::Task;
use crate::turns::turn;
use anyhow::{Context, Result};
use cand_pool::{Pool, Steps};
use cand_uses::end_list;
use sol_arena::Arena;
use std::alloc::Global;
use std::marker::Brand;
use std::sync::ledger::{Blank, Ledger};
use std::time::Instant;
use vg_num::Memory;

/// Turns in a round. Each moves what was dropped to the other end of the free slots, so that few turns keep them in
/// order.
const TURNS: u32 = 8;

/// The most repeaters that are added.
const MOST_REPS: u32 = 256;

/// Turns that bring the slots out of order.
const SHUFFLES: u32 = 20;

/// The size of the lists that are shown.
const SHOWN_SIZE: u32 = 100;

/// The repeaters that are shown at such a list.
const SHOWN_REPS: u32 = 16;

/// The operations that are shown.
const SHOWN: [(&str, Operation); 3] = [
    ("wire", Operation::Wire),
    ("load", Operation::Load),
    ("absorb", Operation::Absorb),
];

/// Prints what each operation gives.
pub fn print_shown(rt: &HostRuntime) -> Result<()> {
    show_all::<Brand>(rt, Blank::new(1))
}

fn show_all<L: Ledger>(rt: &HostRuntime, blank: Blank) -> Result<()>
    requires name { blank.name ≡ L.name }
    requires parts { blank.parts ≡ L.parts }
    requires some { 0 < L.parts }
{
    let mut steps = Steps::<L>::new(blank);
    let mut random = Random::new();
    for (name, operation) in SHOWN {
        let mut pool = Pool::new(rt.alloc());
        pool.reserve(2 * SHOWN_SIZE as usize)
            .ok()
            .context("out of memory")?;
        let (sum, tags) = show(&mut pool, operation, SHOWN_SIZE, &mut random, &mut steps);
        println!(rt;
            "{name}: {} left, numbers {}, tags {tags}",
            sum.count, sum.numbers
        )?;
    }
    let merged = show_merge(rt.alloc(), &mut random, &mut steps)
        .ok()
        .context("out of memory")?;
    println!(rt; "merge: {} left, numbers {}", merged.count, merged.numbers)?;
    let added = show_cells(rt.alloc(), &mut random, &mut steps)
        .ok()
        .context("out of memory")?;
    println!(rt; "cells: {} made, numbers {}", added.count, added.numbers)?;
    Ok(())
}

/// What two branches make together.
fn show_merge<L: Ledger>(
    alloc: Global,
    random: &mut Random,
    steps: &mut Steps<L>,
) -> Result<Sum, Memory> {
    let (mut pool, mut arena) = (Pool::new(alloc), Arena::new(alloc));
    pool.reserve(2 * SHOWN_SIZE as usize)?;
    let list = merge_two(&mut pool, &mut arena, SHOWN_SIZE, random, steps)?;
    let sum = Sum {
        count: pool.len(&list),
        numbers: sum_up(&pool, &list, steps),
    };
    end_list(&mut pool, &mut arena, list);
    Ok(sum)
}

/// What repeaters make of a list.
fn show_cells<L: Ledger>(
    alloc: Global,
    random: &mut Random,
    steps: &mut Steps<L>,
) -> Result<Sum, Memory> {
    let Rooms {
        mut pool,
        mut arena,
        library,
        mut room,
    } = make_rooms(alloc, SHOWN_SIZE as usize, SHOWN_REPS)?;
    let added = add_all(
        &mut pool, &mut arena, &library, &mut room, SHOWN_SIZE, random, steps,
    )?;
    let sum = Sum {
        count: pool.len(&added.made),
        numbers: sum_up(&pool, &added.made, steps),
    };
    end_added(&mut pool, &mut arena, added);
    Ok(sum)
}

/// Prints the nanoseconds of the fastest round, and of the fastest round without the operation.
pub fn print_times(rt: &HostRuntime, plan: Plan) -> Result<()>
    requires { plan.size ≤ 10 ^ 6 }
{
    time_all::<Brand>(rt, plan, Blank::new(1))
}

fn time_all<L: Ledger>(rt: &HostRuntime, plan: Plan, blank: Blank) -> Result<()>
    requires few { plan.size ≤ 10 ^ 6 }
    requires name { blank.name ≡ L.name }
    requires parts { blank.parts ≡ L.parts }
    requires some { 0 < L.parts }
{
    let mut steps = Steps::<L>::new(blank);
    let mut random = Random::new();
    let (mut with, mut without) = (u128::MAX, u128::MAX);
    let mut sum = 0u64;
    'rounds: for _ in 0..plan.rounds {
        let bare = Plan {
            task: plan.task.without(),
            ..plan
        };
        let timed = time_round(rt, plan, &mut random, &mut steps)?;
        let empty = time_round(rt, bare, &mut random, &mut steps)?;
        with = with.min(timed.nanoseconds);
        without = without.min(empty.nanoseconds);
        sum = sum.wrapping_add(timed.sum).wrapping_add(empty.sum);
    }
    let slots = plan.task.candidates(plan.size) * u64::from(TURNS);
    println!(rt; "{with} ns with, {without} ns without, {slots} slots, sum {sum}")?;
    Ok(())
}

/// How long a round took, and a sum over all tags.
#[derive(Clone, Copy)]
struct Round {
    nanoseconds: u128,
    sum: u64,
}

/// What a round works in.
struct Rooms {
    pool: Pool,
    arena: Arena,
    library: Library,
    room: Room,
}

/// A new pool with so many slots and some for what repeaters make, and so many repeaters. Answers `Memory` when out of
/// memory.
fn make_rooms(alloc: Global, slots: usize, reps: u32) -> Result<Rooms, Memory>
    requires slots { slots ≤ 10 ^ 7 }
    requires reps { reps ≤ 256 }
    ensures room { IfOk result (λ rooms. slots + 256 ≤ spare rooms.pool) }
    ensures library { IfOk result (λ rooms. IsLibrary rooms.library) }
{
    let mut pool = Pool::new(alloc);
    pool.reserve(slots + MOST_REPS as usize)?;
    Ok(Rooms {
        pool,
        arena: Arena::new(alloc),
        library: Library::new(alloc, reps)?,
        room: Room::new(alloc),
    })
}

fn out_of_memory<T>() -> Result<T> {
    None.context("out of memory")
}

/// Times a round of turns in a new pool.
fn time_round<L: Ledger>(
    rt: &HostRuntime,
    plan: Plan,
    random: &mut Random,
    steps: &mut Steps<L>,
) -> Result<Round>
    requires { plan.size ≤ 10 ^ 6 }
{
    let reps = plan.task.reps();
    let Ok(rooms) = make_rooms(rt.alloc(), 2 * plan.size as usize, reps) else {
        return out_of_memory();
    };
    let Rooms {
        mut pool,
        mut arena,
        library,
        mut room,
    } = rooms;
    let shuffle = Plan {
        task: Task::Change(Operation::Absorb),
        ..plan
    };
    let shuffles = if plan.scattered { SHUFFLES } else { 0 };
    let Ok(_) = repeat(
        &mut pool, &mut arena, &library, &mut room, shuffle, shuffles, random, steps,
    ) else {
        return out_of_memory();
    };
    let start = Instant::now(rt)?;
    let Ok(sum) = repeat(
        &mut pool, &mut arena, &library, &mut room, plan, TURNS, random, steps,
    ) else {
        return out_of_memory();
    };
    Ok(Round {
        nanoseconds: start.elapsed(rt)?.as_nanos(),
        sum,
    })
}

/// Does so many turns. Answers a sum over all tags that were given up, or `Memory` when out of memory.
fn repeat<L: Ledger>(
    pool: &mut Pool,
    arena: &mut Arena,
    library: &Library,
    room: &mut Room,
    plan: Plan,
    turns: u32,
    random: &mut Random,
    steps: &mut Steps<L>,
) -> Result<u64, Memory>
    requires few { plan.size ≤ 10 ^ 6 }
    requires room { 2 * plan.size + 256 ≤ spare pool.old }
    requires library { IsLibrary library.now }
    ensures { IfOk result (λ _. spare pool.new ≡ spare pool.old) }
{
    let mut sum = 0u64;
    'turns: for _ in 0..turns {
        let tags = turn(
            pool, arena, library, room, plan.task, plan.size, random, steps,
        )?;
        sum = sum.wrapping_add(tags);
    }
    Ok(sum)
}
