//! Places in lists, and the numbers that stand there.

ghost use Rattle.std.specs.Prelude.{◌≡◌, suc, [], ◌∷◌, MatchOption};
ghost use Rattle.cand_pool.specs.Candidates.{Candidate, Candidates};
ghost use Rattle.cand_pool.specs.Pools.{Holds, IsPlace};

use crate::ends::{Cand, List, NONE};
use crate::pool::Pool;
use crate::steps::Steps;
use std::sync::ledger::Ledger;

impl Pool {
    /// The first place of a list. `None`: it is empty.
    pub fn first(&self, list: &List) -> Option<Cand>
        ensures { (xs : Candidates) → Holds self.now list.now xs
            → MatchOption result (xs ≡ []) (λ cand. IsPlace self.now cand xs) }
    {
        if list.ends.first == NONE {
            None
        } else {
            Some(Cand {
                slot: list.ends.first,
            })
        }
    }

    /// The place after this one. `None`: it is the last of its list.
    pub fn next(&self, cand: Cand) -> Option<Cand>
        requires { (xs : Candidates) × IsPlace self.now cand xs }
        ensures { (x : Candidate) (xs : Candidates) → IsPlace self.now cand (x ∷ xs)
            → MatchOption result (xs ≡ []) (λ cand. IsPlace self.now cand xs) }
    {
        let slot = self.links[cand.slot as usize];
        if slot == NONE {
            None
        } else {
            Some(Cand { slot })
        }
    }

    /// The q, the c and the tag of a candidate.
    pub fn tell<L: Ledger>(&self, cand: Cand, steps: &mut Steps<L>) -> (i128, u64, u64)
        requires { (xs : Candidates) × IsPlace self.now cand xs }
        ensures told { (x : Candidate) (xs : Candidates) → IsPlace self.now cand (x ∷ xs)
            → (result.0 ≡ x.q) × (result.1 ≡ x.c) × (result.2 ≡ x.tag) }
        ensures step { steps.new ≡ suc steps.old }
    {
        steps.tick();
        let x = self.candidate(cand.slot);
        (x.q, x.c, x.tag)
    }
}
