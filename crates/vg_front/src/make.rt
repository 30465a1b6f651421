//! Candidates that are made of proposals.

ghost use Rattle.std.specs.Prelude.{◌≡◌, [], ◌∷◌, ◌++◌, IfOk, OnOk, OnErr, MatchResult};
ghost use Rattle.sol_arena.specs.Arenas.{slots_of, made_of};
ghost use Rattle.vg_front.specs.Held.{AreHeld, IsGiven};
ghost use Rattle.vg_front.specs.Making.{IsMakable, IsSolutionOf, IsMade, AreFromSome, AreMadeOf};
ghost use Rattle.vg_front.specs.declared.offer.Candidate.{Candidate as CandidateSpec};

use crate::list::give_up;
use crate::offer::{Candidate, Origin, Proposal};
use sol_arena::{Arena, Sol};
use std::alloc::Global;
use vg_num::Memory;

/// A new solution. The caller holds its use. Answers `Memory` where there is no room; nothing changes then.
fn solution(arena: &mut Arena, origin: Origin) -> Result<Sol, Memory>
    requires { IsMakable (made_of arena.old) origin }
    ensures made { IfOk result (λ sol. IsSolutionOf (slots_of arena.old) (slots_of arena.new) origin sol) }
    ensures unchanged { OnErr result (slots_of arena.new ≡ slots_of arena.old) }
{
    match origin {
        Origin::Cell { node, rep, below } => {
            let sol = arena.cell(node, rep, below)?;
            Ok(sol)
        }
        Origin::Join { a, b } => {
            let sol = arena.join(a, b)?;
            Ok(sol)
        }
    }
}

/// Puts a candidate at the end of others. Where there is no room, its use is given up, and `Memory` is answered.
fn put(arena: &mut Arena, made: &mut Vec<Candidate>, z: Candidate) -> Result<(), Memory>
    requires held { AreHeld (slots_of arena.old) (z ∷ []) }
    ensures put { OnOk result (made.new.items ≡ made.old.items ++ z ∷ []) }
    ensures same { OnOk result (slots_of arena.new ≡ slots_of arena.old) }
    ensures unchanged { OnErr result (made.new.items ≡ made.old.items) }
    ensures gone { OnErr result (IsGiven (slots_of arena.old) (z ∷ []) (slots_of arena.new) []) }
{
    if made.push(z).is_err() {
        arena.release(z.sol);
        return Err(Memory);
    }
    Ok(())
}

/// Makes the candidate of a proposal, and puts it at the end of others.
fn add(arena: &mut Arena, x: Proposal, made: &mut Vec<Candidate>) -> Result<(), Memory>
    requires { IsMakable (made_of arena.old) x.origin }
    ensures added { OnOk result ((z : CandidateSpec) × (made.new.items ≡ made.old.items ++ z ∷ [])
        × IsMade (slots_of arena.old) (slots_of arena.new) x z) }
    ensures unchanged { OnErr result (made.new.items ≡ made.old.items) }
    ensures gone { OnErr result (IsGiven (slots_of arena.old) [] (slots_of arena.new) []) }
{
    let sol = solution(arena, x.origin)?;
    let offer = x.offer;
    put(arena, made, Candidate { offer, sol })?;
    Ok(())
}

/// Makes the candidates of all these proposals, one after the other.
fn make_each(
    arena: &mut Arena,
    proposals: &[Proposal],
    made: &mut Vec<Candidate>,
) -> Result<(), Memory>
    requires from { AreFromSome (slots_of arena.old) proposals.now }
    requires none { made.old.items ≡ [] }
    ensures held { AreHeld (slots_of arena.new) made.new.items }
    ensures given { IsGiven (slots_of arena.old) [] (slots_of arena.new) made.new.items }
    ensures all { OnOk result (AreMadeOf (made_of arena.old) (made_of arena.new) proposals.now made.new.items) }
{
    'proposals: for x in proposals {
        add(arena, *x, made)?;
    }
    Ok(())
}

/// The candidates of all these proposals. Answers `Memory` where there is no room; nothing is made then.
pub(crate) fn make_all(
    alloc: Global,
    arena: &mut Arena,
    proposals: &[Proposal],
) -> Result<Vec<Candidate>, Memory>
    requires from { AreFromSome (slots_of arena.old) proposals.now }
    ensures given { MatchResult result (λ made. IsGiven (slots_of arena.old) [] (slots_of arena.new) made.items)
        (λ _. IsGiven (slots_of arena.old) [] (slots_of arena.new) []) }
    ensures all { IfOk result (λ made. AreMadeOf (made_of arena.old) (made_of arena.new) proposals.now made.items) }
{
    let mut made = Vec::with_capacity(alloc, proposals.len())?;
    if make_each(arena, proposals, &mut made).is_err() {
        give_up(made, arena);
        return Err(Memory);
    }
    Ok(made)
}
