//! Laws of arenas. Their functions do nothing: each one's contract is the law, which a proof may cite.

ghost use Rattle.std.specs.Prelude.{◌≡◌, ◌≢◌, ℕ};
ghost use Rattle.sol_arena.specs.Slots.{none, IsSolution};
ghost use Rattle.sol_arena.specs.Uses.{held_of};
ghost use Rattle.sol_arena.specs.Reach.{IsReached, IsFrame, IsRestored};
ghost use Rattle.sol_arena.specs.Arenas.{slots_of, made_of};

use crate::arena::Arena;

/// The live solutions, but for the empty one, are those that the uses that callers hold reach: a use of it is held, or
/// of a solution that was made of it, directly or through others.
pub fn live_is_reached(arena: &Arena)
    ensures reached { (s : ℕ) → IsSolution (made_of arena.now) s
        → ∥ IsReached (made_of arena.now) (held_of (slots_of arena.now)) s ∥₁ }
    ensures live { (s : ℕ) → IsReached (made_of arena.now) (held_of (slots_of arena.now)) s
        → IsSolution (made_of arena.now) s }
{
    let _ = &arena;
}

/// An arena is as it was, where callers hold the same uses and what these reach is as it was: the same solutions are
/// live, with the same meanings and uses.
pub fn same_uses_restore(old: &Arena, new: &Arena)
    requires held { (s : ℕ) → s ≢ none → held_of (slots_of new.now) s ≡ held_of (slots_of old.now) s }
    requires frame { IsFrame (held_of (slots_of old.now)) (made_of old.now) (made_of new.now) }
    ensures { IsRestored (slots_of old.now) (slots_of new.now) }
{
    let _ = &old;
    let _ = &new;
}
