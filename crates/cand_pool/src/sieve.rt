//! A sieve of three lists.

ghost use Rattle.std.specs.Prelude.{◌≡◌, ◌≢◌, ℕ, ◌∷◌, ℤ};
ghost use Rattle.cand_pool.specs.Candidates.{Candidate, Candidates};
ghost use Rattle.cand_pool.specs.Pools.{items};
ghost use Rattle.cand_pool.specs.Sieves.{Sifts, IsTurned};

use crate::ends::{EMPTY, Ends, NONE};
use crate::pool::Pool;

/// What is left of a list, what was kept and what was dropped, and the greatest q that was kept.
#[derive(Clone, Copy)]
pub(crate) struct Sieve {
    pub(crate) rest: Ends,
    pub(crate) kept: Ends,
    pub(crate) dropped: Ends,
    pub(crate) best: i128,
}

impl Pool {
    /// Puts the first of the rest, with this q and c, after the kept ones if its q is over the best, else after the
    /// dropped ones.
    pub(crate) fn turn(&mut self, at: &mut Sieve, q: i128, c: u64)
        requires three { Sifts self.old at.old (items self.old at.old.rest.first) (items self.old at.old.kept.first)
            (items self.old at.old.dropped.first) }
        requires some { at.old.rest.first ≢ NONE }
        ensures { (x : Candidate) (xs ks ds : Candidates) → Sifts self.old at.old (x ∷ xs) ks ds
            → IsTurned self.old self.new at.old at.new xs ks ds (record { q = q; c = c; tag = x.tag }) }
    {
        // What does not change is not copied, and stays in registers.
        let slot = at.rest.first;
        at.rest.first = self.take_first(slot);
        self.rewrite(slot, q, c);
        if q > at.best {
            self.put_last(&mut at.kept, slot);
            at.best = q;
        } else {
            self.put_last(&mut at.dropped, slot);
        }
    }

    /// Puts the first of the rest, which has this q, after the kept ones if its q is over the best, else after the
    /// dropped ones.
    pub(crate) fn pass(&mut self, at: &mut Sieve, q: i128)
        requires three { Sifts self.old at.old (items self.old at.old.rest.first) (items self.old at.old.kept.first)
            (items self.old at.old.dropped.first) }
        requires some { at.old.rest.first ≢ NONE }
        ensures { (x : Candidate) (xs ks ds : Candidates) → Sifts self.old at.old (x ∷ xs) ks ds → q ≡ x.q
            → IsTurned self.old self.new at.old at.new xs ks ds (record { q = q; c = x.c; tag = x.tag }) }
    {
        let slot = at.rest.first;
        at.rest.first = self.take_first(slot);
        if q > at.best {
            self.put_last(&mut at.kept, slot);
            at.best = q;
        } else {
            self.put_last(&mut at.dropped, slot);
        }
    }
}
