//! The candidates of a branch of a net.

ghost use Rattle.std.specs.Prelude.{◌≡◌, ◌≤◌, Bool, [], ◌++◌, IfOk, OnOk, MatchResult};
ghost use Rattle.std.specs.Vec.{vec_capacity};
ghost use Rattle.sol_arena.specs.Arenas.{slots_of, made_of};
ghost use Rattle.vg_front.specs.Branches.{list_of, all_of};
ghost use Rattle.vg_front.specs.Held.{AreHeld, IsGiven, MeanTheSame, IsPruned, IsBlend};

use crate::list::{blend, give_up, prune};
use crate::offer::Candidate;
use crate::stairs::Stairs;
use sol_arena::Arena;
use std::alloc::Global;
use std::mem;
use vg_num::Memory;

/// The candidates of a branch at its node: a list for a signal that is not inverted there, and one for a signal that is
/// (Lillis, Cheng and Lin 1996).
#[derive(Drop)]
pub(crate) struct Branch {
    pub even: Vec<Candidate>,
    pub odd: Vec<Candidate>,
}

impl Branch {
    /// Two empty lists. It takes no memory.
    pub fn new(alloc: Global) -> Branch {
        Branch {
            even: Vec::new(alloc),
            odd: Vec::new(alloc),
        }
    }

    /// The list of a class.
    pub fn list(&self, odd: bool) -> &[Candidate]
        ensures { result.now ≡ list_of self.now odd }
    {
        if odd { &self.odd } else { &self.even }
    }

    /// Gives up both lists, with the uses of their solutions.
    pub fn give_up(self, arena: &mut Arena)
        requires held { AreHeld (slots_of arena.old) (all_of self) }
        ensures given { IsGiven (slots_of arena.old) (all_of self) (slots_of arena.new) [] }
    {
        let Branch { even, odd } = self;
        give_up(even, arena);
        give_up(odd, arena);
    }

    /// Gives up the candidates that others of their list beat, with the uses of their solutions.
    pub fn prune(&mut self, arena: &mut Arena, stairs: &mut Stairs)
        requires held { AreHeld (slots_of arena.old) (all_of self.old) }
        ensures pruned { (odd : Bool) → IsPruned (list_of self.old odd) (list_of self.new odd) }
        ensures given { IsGiven (slots_of arena.old) (all_of self.old) (slots_of arena.new) (all_of self.new) }
        ensures same { MeanTheSame (made_of arena.old) (made_of arena.new) (all_of self.new) }
    {
        prune(&mut self.even, arena, stairs);
        prune(&mut self.odd, arena, stairs);
    }

    /// Drops what stands in both lists, and makes room for so many candidates in each. Answers `Memory` where there is
    /// none.
    fn reserve(&mut self, even: usize, odd: usize) -> Result<(), Memory>
        ensures even { OnOk result (even ≤ vec_capacity self.new.even) }
        ensures odd { OnOk result (odd ≤ vec_capacity self.new.odd) }
    {
        self.even.clear();
        self.odd.clear();
        self.even.reserve(even)?;
        self.odd.reserve(odd)?;
        Ok(())
    }

    /// The candidates of this branch and of another one together, class by class, but those that others beat, in the
    /// room of a third one, whose room is that of this branch afterwards. Answers `Memory` where there is no room; both
    /// branches are given up then.
    pub fn absorb(
        self,
        arena: &mut Arena,
        other: Branch,
        stairs: &mut Stairs,
        room: &mut Branch,
    ) -> Result<Branch, Memory>
        requires held { AreHeld (slots_of arena.old) (all_of self ++ all_of other) }
        ensures given { MatchResult result (λ all.
            IsGiven (slots_of arena.old) (all_of self ++ all_of other) (slots_of arena.new) (all_of all))
            (λ _. IsGiven (slots_of arena.old) (all_of self ++ all_of other) (slots_of arena.new) []) }
        ensures blend { IfOk result (λ all. (odd : Bool)
            → IsBlend (list_of self odd) (list_of other odd) (list_of all odd)) }
        ensures same { IfOk result (λ all. MeanTheSame (made_of arena.old) (made_of arena.new) (all_of all)) }
    {
        let even = self.even.len() + other.even.len();
        let odd = self.odd.len() + other.odd.len();
        if room.reserve(even, odd).is_err() {
            self.give_up(arena);
            other.give_up(arena);
            return Err(Memory);
        }
        blend(&self.even, &other.even, arena, stairs, &mut room.even);
        blend(&self.odd, &other.odd, arena, stairs, &mut room.odd);
        Ok(mem::replace(room, self))
    }
}
