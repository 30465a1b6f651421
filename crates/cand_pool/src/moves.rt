//! The moves of lists, of which the calls are made: a first slot is cut off, and a list is put after another one.

ghost use Rattle.std.specs.Prelude.{◌≡◌, ◌≢◌, ℕ, ◌<◌, [], ◌∷◌, ℤ};
ghost use Rattle.cand_pool.specs.Candidates.{Candidate, Candidates};
ghost use Rattle.cand_pool.specs.Pools.{candidate, spare, IsHeld};
ghost use Rattle.cand_pool.specs.Moves.{IsFirst, IsNamed, IsTaken, IsDrawn, IsFreed, IsWritten, IsAppended, IsTagTaken};
ghost use Rattle.cand_pool.specs.Sieves.{IsSieve, IsSifted};
ghost use Rattle.cand_pool.specs.declared.ends.Ends.{Ends};

use crate::ends::{Ends, NONE};
use crate::numbers::Numbers;
use crate::pool::Pool;

/// What is left of a list, and the list that its first was put after.
#[derive(Clone, Copy)]
pub(crate) struct Moved {
    pub(crate) rest: Ends,
    pub(crate) to: Ends,
}

impl Pool {
    /// Cuts the first slot off a list that is not empty. Answers the first slot of what is left.
    pub(crate) fn take_first(&mut self, first: u32) -> u32
        requires live { IsFirst self.old first }
        requires some { first ≢ NONE }
        ensures taken { (last : ℕ) (x : Candidate) (xs : Candidates) → IsHeld self.old first last (x ∷ xs)
            → IsTaken self.old first last x xs self.new result }
    {
        let rest = self.links[first as usize];
        self.links[first as usize] = NONE;
        rest
    }

    /// Takes the first free slot.
    pub(crate) fn draw(&mut self) -> u32
        requires { 0 < spare self.old }
        ensures drawn { IsDrawn self.old self.new }
        ensures slot { result ≡ self.old.free }
    {
        let slot = self.free;
        self.free = self.links[slot as usize];
        self.links[slot as usize] = NONE;
        self.sure = self.sure.saturating_sub(1);
        slot
    }

    /// Gives the slot of a list of one back.
    pub(crate) fn give(&mut self, slot: u32)
        requires { IsHeld self.old slot slot (candidate self.old slot ∷ []) }
        ensures { IsFreed self.old slot self.new }
    {
        self.links[slot as usize] = self.free;
        self.free = slot;
        self.sure = self.sure.saturating_add(1);
    }

    /// Writes the slot of a list of one.
    pub(crate) fn write(&mut self, slot: u32, q: i128, c: u64, tag: u64)
        requires { IsHeld self.old slot slot (candidate self.old slot ∷ []) }
        ensures written { IsWritten self.old slot self.new }
        ensures there { candidate self.new slot ≡ record { q = q; c = c; tag = tag } }
    {
        self.candidates[slot as usize] = Numbers { q, c, tag };
    }

    /// Writes the q and the c of the slot of a list of one.
    pub(crate) fn rewrite(&mut self, slot: u32, q: i128, c: u64)
        requires { IsHeld self.old slot slot (candidate self.old slot ∷ []) }
        ensures written { IsWritten self.old slot self.new }
        ensures there { let old =
            candidate self.old slot in candidate self.new slot ≡ record { q = q; c = c; tag = old.tag } }
    {
        let numbers = &mut self.candidates[slot as usize];
        numbers.q = q;
        numbers.c = c;
    }

    /// Puts one list after the end of another one. Answers the ends of both together.
    pub(crate) fn put_after(&mut self, a: Ends, b: Ends) -> Ends
        requires one { IsNamed self.old a.first a.last }
        requires two { IsNamed self.old b.first b.last }
        requires differ { a.first ≡ b.first → b.first ≡ NONE }
        ensures { IsAppended self.old a.first a.last b.first b.last self.new result.first result.last }
    {
        if b.first == NONE {
            return a;
        }
        if a.first == NONE {
            return b;
        }
        self.links[a.last as usize] = b.first;
        Ends {
            first: a.first,
            last: b.last,
        }
    }

    /// Puts the slot of a list of one after the end of a list.
    pub(crate) fn put_last(&mut self, list: &mut Ends, slot: u32)
        requires one { IsNamed self.old list.old.first list.old.last }
        requires two { IsNamed self.old slot slot }
        requires some { slot ≢ NONE }
        requires differ { list.old.first ≢ slot }
        ensures { IsAppended self.old list.old.first list.old.last slot slot self.new list.new.first list.new.last }
    {
        if list.first == NONE {
            list.first = slot;
            list.last = slot;
            return;
        }
        self.links[list.last as usize] = slot;
        list.last = slot;
    }

    /// Takes the first off a list that is not empty, writes it anew, and puts it after another list.
    pub(crate) fn move_formed(&mut self, rest: Ends, to: Ends, q: i128, c: u64, tag: u64) -> Moved
        requires one { IsNamed self.old rest.first rest.last }
        requires two { IsNamed self.old to.first to.last }
        requires some { rest.first ≢ NONE }
        requires differ { rest.first ≢ to.first }
        ensures { (b : Ends) (x : Candidate) (xs ps rs : Candidates) → IsSieve self.old rest to b (x ∷ xs) ps rs
            → IsSifted self.old self.new rest to b result.rest result.to xs ps rs (record { q = q; c = c; tag = tag }) }
    {
        let slot = rest.first;
        let next = self.take_first(slot);
        self.write(slot, q, c, tag);
        let one = Ends {
            first: slot,
            last: slot,
        };
        let to = self.put_after(to, one);
        Moved {
            rest: Ends {
                first: next,
                last: rest.last,
            },
            to,
        }
    }

    /// Takes the first slot off a list that is not empty, and frees it. Answers its tag, and what is left.
    pub(crate) fn free_first(&mut self, ends: Ends) -> (u64, Ends)
        requires live { IsNamed self.old ends.first ends.last }
        requires some { ends.first ≢ NONE }
        ensures taken { (x : Candidate) (xs : Candidates) → IsHeld self.old ends.first ends.last (x ∷ xs)
            → (result.0 ≡ x.tag) × IsTagTaken self.old ends.first ends.last x xs self.new result.1.first result.1.last }
    {
        let first = ends.first;
        let rest = self.take_first(first);
        let tag = self.candidate(first).tag;
        self.give(first);
        (
            tag,
            Ends {
                first: rest,
                ..ends
            },
        )
    }
}
