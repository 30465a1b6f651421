//! New solutions, and the uses that they have of others.

ghost use Rattle.std.specs.Prelude.{◌≡◌, ◌≢◌, ℕ, ◌+◌, ◌^◌, ◌<◌, true, length, IfOk, OnErr};
ghost use Rattle.sol_arena.specs.Slots.{none, is_solution, made_in, IsSolution};
ghost use Rattle.sol_arena.specs.Uses.{uses_of, uses_in};
ghost use Rattle.sol_arena.specs.Invariant.{IsKept, IsArena};
ghost use Rattle.sol_arena.specs.Changes.{GainsUse, IsNew};
ghost use Rattle.sol_arena.specs.Steps.{IsPlaced, GivesUses};

use crate::slot::{Made, NONE, Slot};
use vg_num::Memory;

/// No memory holds so many slots, each of which has more than eight bytes. This bounds the uses that solutions have of
/// one another, two for each slot at most, so that a count of uses never wraps. A vector tells no more of its length
/// than that it is below 2^63: then the count would be safe only because the parts of a join differ, and the type would
/// have to keep that they do. One comparison where memory is asked for is simpler.
const MOST_SLOTS: usize = 1 << 61;

/// Puts a solution with one use into the first free slot, or into a new one, and answers its number. Answers `Memory`
/// where there is no room; nothing changes then.
pub(crate) fn put(slots: &mut Vec<Slot>, free: &mut u64, made: Made) -> Result<u64, Memory>
    requires { IsKept slots.old.items free.old none }
    ensures placed { IfOk result (λ s.
        IsPlaced slots.old.items free.old slots.new.items free.new s (record { made = made; uses = 1 })) }
    ensures unchanged { OnErr result (slots.new.items ≡ slots.old.items) }
    ensures free { OnErr result (free.new ≡ free.old) }
{
    let first = *free;
    let slot = Slot { made, uses: 1 };
    if first == NONE {
        let s = slots.len();
        if MOST_SLOTS <= s {
            return Err(Memory);
        }
        slots.push(slot)?;
        return Ok(s as u64);
    }
    let at = first as usize;
    let next = match slots[at].made {
        Made::Free { next } => next,
        _ => unreachable!(),
    };
    slots[at] = slot;
    *free = next;
    Ok(first)
}

/// Adds a use of a solution. Uses of the empty one are not counted.
pub(crate) fn use_once(slots: &mut Vec<Slot>, s: u64)
    requires within { s ≢ none → s < length slots.old.items }
    requires room { s ≢ none → uses_of slots.old.items s + 1 < 2 ^ 64 }
    ensures { GainsUse slots.old.items slots.new.items s }
{
    if s != NONE {
        slots[s as usize].uses += 1;
    }
}

/// Adds a use of each solution that this is made of.
fn give_uses(slots: &mut Vec<Slot>, made: Made)
    requires solution { is_solution made ≡ true }
    requires within { (x : ℕ) → x ≢ none → 0 < uses_in made x → x < length slots.old.items }
    requires room { (x : ℕ) → x ≢ none → 0 < uses_in made x → uses_of slots.old.items x + 2 < 2 ^ 64 }
    ensures { GivesUses slots.old.items slots.new.items made }
{
    match made {
        Made::Cell { below, .. } => use_once(slots, below),
        Made::Join { a, b } => {
            use_once(slots, a);
            use_once(slots, b);
        }
        _ => unreachable!(),
    }
}

/// Makes a new solution with one use, and answers its number. Answers `Memory` where there is no room; nothing changes
/// then.
#[inline(always)]
pub(crate) fn make(slots: &mut Vec<Slot>, free: &mut u64, made: Made) -> Result<u64, Memory>
    requires arena { IsArena slots.old.items free.old }
    requires solution { is_solution made ≡ true }
    requires live { (x : ℕ) → x ≢ none → 0 < uses_in made x → IsSolution (made_in slots.old.items) x }
    ensures new { IfOk result (λ s. IsNew slots.old.items slots.new.items s made) }
    ensures unchanged { OnErr result (slots.new.items ≡ slots.old.items) }
    ensures arena { IsArena slots.new.items free.new }
{
    let s = put(slots, free, made)?;
    give_uses(slots, made);
    Ok(s)
}
