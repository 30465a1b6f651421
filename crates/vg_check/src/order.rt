//! The repeaters in the order of their limits.

ghost use Rattle.std.specs.Prelude.{ℕ, ◌<◌, length, IfOk};
ghost use Rattle.std.specs.List.{All};
ghost use Rattle.vg_check.specs.Orders.{HasRep, IsKeyOf, IsOrder, IsRank};

use elmore::Problem;
use std::alloc::Global;
use vg_num::Memory;

/// A repeater's number, and what puts it in its place.
#[derive(Clone, Copy)]
pub(crate) struct Rank {
    key: u128,
    pub(crate) rep: u32,
}

/// What puts a repeater with this limit (aF) in its place: one that has none comes after all that have one.
fn key_of(limit: Option<u64>) -> u128
    ensures { IsKeyOf limit result }
{
    match limit {
        Some(most) => u128::from(most),
        None => 1 << 64,
    }
}

/// The repeaters in the order of their numbers.
fn by_number(alloc: Global, p: &Problem) -> Result<Vec<Rank>, Memory>
    ensures each { IfOk result (λ ranks. All (IsRank p.now.reps) ranks.items) }
    ensures all { IfOk result (λ ranks. (b : ℕ) → b < length p.now.reps → HasRep ranks.items b) }
{
    let mut ranks = Vec::new(alloc);
    'reps: for rep in 0..p.reps.len() {
        ranks.push(Rank {
            key: key_of(p.reps.as_slice()[rep].limit),
            rep: rep as u32,
        })?;
    }
    Ok(ranks)
}

/// The repeaters in the order of their limits, those without one last. Answers `Memory` where there is no room.
pub(crate) fn by_limit(alloc: Global, p: &Problem) -> Result<Vec<Rank>, Memory>
    ensures { IfOk result (λ ranks. IsOrder p.now.reps ranks.items) }
{
    let mut ranks = by_number(alloc, p)?;
    ranks.sort_by_key(|rank| rank.key)?;
    Ok(ranks)
}
