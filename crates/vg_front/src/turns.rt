//! The turns in which the runs of two lists meet, by rising cost.

ghost use Rattle.std.specs.Prelude.{◌+◌, ◌<◌, ◌≤◌, ◌^◌, [], ◌≡◌, OnOk, length};
ghost use Rattle.std.specs.BinaryHeap.{heap_items};
ghost use Rattle.vg_front.specs.Runs.{AreSmall};
ghost use Rattle.vg_front.specs.Turns.{IsPut, AreTurns};

use crate::offer::is_within;
use crate::runs::Run;
use std::alloc::Global;
use std::cmp::Reverse;
use std::collections::BinaryHeap;
use vg_num::Memory;

/// A run of one list, and the number of the run of the other list that it meets next, with the cost of both
/// (thousandths).
#[derive(Clone, Copy, PartialEq, Eq, PartialOrd, Ord)]
pub(crate) struct Turn {
    pub cost: u64,
    pub first: Run,
    pub second: usize,
}

/// Puts the turn of a run with the first of the others, from number `from` on, that it meets within the cap, if there
/// is one.
pub(crate) fn put(
    turns: &mut BinaryHeap<Reverse<Turn>, Global>,
    first: Run,
    seconds: &[Run],
    cap: Option<u64>,
    from: usize,
) -> Result<(), Memory>
    requires first { first.cost ≤ 10 ^ 17 }
    requires seconds { AreSmall seconds.now }
    ensures { OnOk result (IsPut cap first seconds.now from (heap_items turns.old) (heap_items turns.new)) }
{
    'seconds: for second in from..seconds.len() {
        let cost = first.cost + seconds[second].cost;
        if !is_within(cap, cost) {
            continue 'seconds;
        }
        let turn = Turn {
            cost,
            first,
            second,
        };
        turns.push(Reverse(turn))?;
        return Ok(());
    }
    Ok(())
}

/// Puts the first turn of each of these runs with the others within the cap.
pub(crate) fn put_all(
    turns: &mut BinaryHeap<Reverse<Turn>, Global>,
    firsts: &[Run],
    seconds: &[Run],
    cap: Option<u64>,
) -> Result<(), Memory>
    requires none { heap_items turns.old ≡ [] }
    requires firsts { AreSmall firsts.now }
    requires seconds { AreSmall seconds.now }
    ensures { OnOk result (AreTurns cap firsts.now seconds.now (heap_items turns.new)) }
{
    'firsts: for first in firsts {
        put(turns, *first, seconds, cap, 0)?;
    }
    Ok(())
}
