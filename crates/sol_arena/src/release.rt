//! Uses that are given up, down chains of solutions of any length, without recursion and without memory.
//!
//! A solution whose last use is given up gives up its own. A cell has one of these, which is next. A join has two: the
//! first is next, and the join's slot keeps the second in a chain of slots that owe a use. When nothing more is to be
//! given up, the first slot of that chain pays, and is free.

ghost use Rattle.std.specs.Prelude.{◌≡◌, ◌≢◌, ◌<◌, length, MatchOption};
ghost use Rattle.sol_arena.specs.Slots.{none, made_in};
ghost use Rattle.sol_arena.specs.Uses.{uses_of, inner_uses};
ghost use Rattle.sol_arena.specs.Invariant.{IsArena};
ghost use Rattle.sol_arena.specs.Changes.{GainsUse};
ghost use Rattle.sol_arena.specs.Steps.{IsGiving, IsTurn, IsTurnOn, IsLastTurn};

use crate::slot::{Made, NONE, Slot};

/// Frees the slot of a cell whose last use is given up, or puts that of a join on the chain of those that owe a use.
/// Answers the solution of which a use is to be given up next.
fn drop_last(slots: &mut Vec<Slot>, free: &mut u64, owed: &mut u64, sol: u64) -> u64
    requires giving { IsGiving slots.old.items free.old owed.old sol }
    requires some { sol ≢ none }
    requires last { uses_of slots.old.items sol ≡ 1 }
    ensures { IsTurnOn slots.old.items slots.new.items free.new owed.new sol result }
{
    let at = sol as usize;
    match slots[at].made {
        Made::Cell { below, .. } => {
            slots[at] = Slot {
                made: Made::Free { next: *free },
                uses: 0,
            };
            *free = sol;
            below
        }
        Made::Join { a, b } => {
            slots[at] = Slot {
                made: Made::Owed { to: b, next: *owed },
                uses: 0,
            };
            *owed = sol;
            a
        }
        _ => unreachable!(),
    }
}

/// Frees the first slot of the chain of those that owe a use, and answers the solution to which it owes it.
fn pay_first(slots: &mut Vec<Slot>, free: &mut u64, owed: &mut u64) -> u64
    requires giving { IsGiving slots.old.items free.old owed.old none }
    requires some { owed.old ≢ none }
    ensures { IsTurnOn slots.old.items slots.new.items free.new owed.new none result }
{
    let first = *owed;
    let at = first as usize;
    match slots[at].made {
        Made::Owed { to, next } => {
            slots[at] = Slot {
                made: Made::Free { next: *free },
                uses: 0,
            };
            *free = first;
            *owed = next;
            to
        }
        _ => unreachable!(),
    }
}

/// Gives up one of several uses of a solution. Uses of the empty one are not counted.
fn lessen(slots: &mut Vec<Slot>, sol: u64)
    requires within { sol ≢ none → sol < length slots.old.items }
    requires more { sol ≢ none → 1 < uses_of slots.old.items sol }
    ensures { GainsUse slots.new.items slots.old.items sol }
{
    if sol != NONE {
        slots[sol as usize].uses -= 1;
    }
}

/// Gives up a use of a solution; where others are left, the first slot of the chain pays too. Answers the solution of
/// which a use is to be given up next. `None`: no more is to be given up.
fn turn(slots: &mut Vec<Slot>, free: &mut u64, owed: &mut u64, sol: u64) -> Option<u64>
    requires { IsGiving slots.old.items free.old owed.old sol }
    ensures { MatchOption result
        (IsLastTurn slots.old.items slots.new.items free.new owed.new sol)
        (λ next. IsTurnOn slots.old.items slots.new.items free.new owed.new sol next) }
{
    if sol != NONE && slots[sol as usize].uses == 1 {
        return Some(drop_last(slots, free, owed, sol));
    }
    lessen(slots, sol);
    if *owed == NONE {
        return None;
    }
    Some(pay_first(slots, free, owed))
}

/// Gives up a use that callers hold of a solution. What has no use any more is freed, and gives up its own uses of
/// others.
pub(crate) fn give_up(slots: &mut Vec<Slot>, free: &mut u64, sol: u64)
    requires arena { IsArena slots.old.items free.old }
    requires held { sol ≢ none → inner_uses (made_in slots.old.items) sol < uses_of slots.old.items sol }
    ensures arena { IsArena slots.new.items free.new }
    ensures turn { IsTurn slots.old.items slots.new.items sol none }
{
    let mut at = sol;
    let mut owed = NONE;
    'turns: while let Some(next) = turn(slots, free, &mut owed, at) {
        at = next;
    }
}
