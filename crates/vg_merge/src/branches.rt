//! The linear merge of two branches (van Ginneken 1990).

ghost use Rattle.std.specs.Prelude.{◌≡◌, ◌≢◌, ◌⊎◌, ℕ, ◌+◌, ◌*◌, ◌≤◌, ◌<◌, ◌++◌, ◌∷◌, [], length, MatchOption, MatchResult, IfOk, OnOk, OnErr};
ghost use Rattle.std.specs.Option.{ForSome};
ghost use Rattle.sol_arena.specs.Arenas.{slots_of, made_of};
ghost use Rattle.sol_arena.specs.Changes.{IsReleased};
ghost use Rattle.sol_arena.specs.Meanings.{cells_of, AreApart};
ghost use Rattle.sol_arena.specs.Slots.{none};
ghost use Rattle.sol_arena.specs.Uses.{held_of};
ghost use Rattle.cand_pool.specs.Candidates.{Candidate, Candidates, AreModest, formed};
ghost use Rattle.cand_pool.specs.Pools.{spare, Holds, IsLive, items_of, name, Differ, KeepsOthers};
ghost use Rattle.cand_pool.specs.Sequences.{left_of, spare_after};
ghost use Rattle.cand_uses.specs.Uses.{HoldsFor, IsExchange};
ghost use Rattle.vg_merge.specs.Branches.{AreAt, AreLive, names, all_of, IsFirst, IsJoined};
ghost use Rattle.vg_merge.specs.Merges.{CanMeet, IsMergeOf};

use cand_pool::{List, Pool, Steps};
use cand_uses::end_list;
use sol_arena::{Arena, Sol};
use std::sync::ledger::Ledger;
use vg_num::Memory;

/// The list that is made, and what is left of the two branches.
struct Branches {
    list: List,
    a: List,
    b: List,
}

/// The solutions of the first candidates of both branches. `None`: one of them is empty.
fn first_solutions<L: Ledger>(
    pool: &Pool,
    at: &Branches,
    steps: &mut Steps<L>,
) -> Option<(Sol, Sol)>
    requires { AreLive pool.now at.now }
    ensures firsts { MatchOption result ((items_of pool.now at.now.a ≡ []) ⊎ (items_of pool.now at.now.b ≡ []))
        (λ sols. IsFirst (items_of pool.now at.now.a) sols.0.0 × IsFirst (items_of pool.now at.now.b) sols.1.0) }
    ensures steps { MatchOption result (steps.new ≡ steps.old) (λ _. steps.new ≡ steps.old + 2) }
{
    let a = pool.first(&at.a)?;
    let b = pool.first(&at.b)?;
    let (_, _, x) = pool.tell(a, steps);
    let (_, _, y) = pool.tell(b, steps);
    Some((Sol(x), Sol(y)))
}

/// Gives up the use of a solution that was taken off a list, if one was.
fn release_taken(arena: &mut Arena, tag: Option<u64>)
    requires { ForSome tag (λ sol. sol ≢ none → 0 < held_of (slots_of arena.old) sol) }
    ensures { MatchOption tag (slots_of arena.new ≡ slots_of arena.old) (λ sol.
        IsReleased (slots_of arena.old) (slots_of arena.new) sol) }
{
    if let Some(tag) = tag {
        arena.release(Sol(tag));
    }
}

/// Joins the first candidates of both branches, which have these solutions. Answers `Memory` when out of memory;
/// nothing changes then.
fn turn<L: Ledger>(
    pool: &mut Pool,
    arena: &mut Arena,
    at: &mut Branches,
    sols: (Sol, Sol),
    steps: &mut Steps<L>,
) -> Result<(), Memory>
    requires live { AreLive pool.old at.old }
    requires first_a { IsFirst (items_of pool.old at.old.a) sols.0.0 }
    requires first_b { IsFirst (items_of pool.old at.old.b) sols.1.0 }
    requires modest_a { AreModest (items_of pool.old at.old.a) }
    requires modest_b { AreModest (items_of pool.old at.old.b) }
    requires held { HoldsFor (slots_of arena.old) (items_of pool.old at.old.a ++ items_of pool.old at.old.b) }
    requires apart { AreApart (cells_of (made_of arena.old) sols.0.0) (cells_of (made_of arena.old) sols.1.0) }
    ensures joined { OnOk result ((x y : Candidate) (zs xs ys : Candidates) → AreAt pool.old at.old zs (x ∷ xs) (y ∷ ys)
        → (sol : ℕ) × AreAt pool.new at.new (zs ++ formed x y sol ∷ []) (left_of x y xs) (left_of y x ys)
        × IsJoined (slots_of arena.old) (slots_of arena.new) x y sol
        × (spare pool.new ≡ spare_after x y (spare pool.old))) }
    ensures unchanged { OnErr result ((pool.new ≡ pool.old) × (at.new ≡ at.old)
        × (slots_of arena.new ≡ slots_of arena.old)) }
    ensures others { KeepsOthers pool.old (names at.old) pool.new (names at.new) }
    ensures steps { steps.new ≤ steps.old + 2 }
{
    let (x, y) = sols;
    let sol = arena.join(x, y)?;
    let Some(taken) = pool.join_pair(&mut at.list, &mut at.a, &mut at.b, sol.0, steps) else {
        unreachable!()
    };
    release_taken(arena, taken.a);
    release_taken(arena, taken.b);
    Ok(())
}

/// Joins first candidates until one of the branches is empty. Answers `Memory` when out of memory; what was made and
/// what is left stay then.
fn join_firsts<L: Ledger>(
    pool: &mut Pool,
    arena: &mut Arena,
    at: &mut Branches,
    steps: &mut Steps<L>,
) -> Result<(), Memory>
    requires live { AreLive pool.old at.old }
    requires made { items_of pool.old at.old.list ≡ [] }
    requires meet { CanMeet (slots_of arena.old) (items_of pool.old at.old.a) (items_of pool.old at.old.b) }
    ensures live { AreLive pool.new at.new }
    ensures merge { OnOk result
        (IsMergeOf (made_of arena.old) (made_of arena.new) (items_of pool.old at.old.a) (items_of pool.old at.old.b)
        (items_of pool.new at.new.list)) }
    ensures uses { IsExchange (slots_of arena.old) (all_of pool.old at.old) (slots_of arena.new)
        (all_of pool.new at.new) }
    ensures spare { spare pool.new + length (all_of pool.new at.new)
        ≡ spare pool.old + length (all_of pool.old at.old) }
    ensures others { KeepsOthers pool.old (names at.old) pool.new (names at.new) }
    ensures steps { steps.new
        ≤ steps.old + 4 * (length (items_of pool.old at.old.a) + length (items_of pool.old at.old.b)) }
{
    'turns: while let Some(sols) = first_solutions(pool, at, steps) {
        turn(pool, arena, at, sols, steps)?;
    }
    Ok(())
}

/// Ends what is left of both branches. The list that was made stays.
fn end_branches(pool: &mut Pool, arena: &mut Arena, at: Branches) -> List
    requires live { AreLive pool.old at }
    requires held { HoldsFor (slots_of arena.old) (items_of pool.old at.a ++ items_of pool.old at.b) }
    ensures list { Holds pool.new result (items_of pool.old at.list) }
    ensures uses { IsExchange (slots_of arena.old) (items_of pool.old at.a ++ items_of pool.old at.b)
        (slots_of arena.new) [] }
    ensures spare { spare pool.new ≡ spare pool.old + length (items_of pool.old at.a)
        + length (items_of pool.old at.b) }
    ensures others { KeepsOthers pool.old (names at) pool.new (name result ∷ []) }
{
    let Branches { list, a, b } = at;
    end_list(pool, arena, a);
    end_list(pool, arena, b);
    list
}

/// Merges two branches of a net: of all pairs of their candidates those together that no other ones dominate, with the
/// lesser time (zs) and the sum of the loads (aF), by rising load, each with the cells of both solutions. The lists of
/// both branches end, and the uses of their solutions are given up. Answers `Memory` when out of memory; both lists end
/// then too, and nothing is made.
pub fn merge<L: Ledger>(
    pool: &mut Pool,
    arena: &mut Arena,
    a: List,
    b: List,
    steps: &mut Steps<L>,
) -> Result<List, Memory>
    requires live { IsLive pool.old a × IsLive pool.old b }
    requires differ { Differ (name a) (name b) }
    requires meet { CanMeet (slots_of arena.old) (items_of pool.old a) (items_of pool.old b) }
    ensures live { IfOk result (λ list. IsLive pool.new list) }
    ensures merge { (xs ys : Candidates) → Holds pool.old a xs → Holds pool.old b ys
        → IfOk result (λ list. IsMergeOf (made_of arena.old) (made_of arena.new) xs ys (items_of pool.new list)) }
    ensures uses { (xs ys : Candidates) → Holds pool.old a xs → Holds pool.old b ys
        → MatchResult result (λ list.
        IsExchange (slots_of arena.old) (xs ++ ys) (slots_of arena.new) (items_of pool.new list))
        (λ _. IsExchange (slots_of arena.old) (xs ++ ys) (slots_of arena.new) []) }
    ensures spare { (xs ys : Candidates) → Holds pool.old a xs → Holds pool.old b ys
        → MatchResult result (λ list. spare pool.new + length (items_of pool.new list)
        ≡ spare pool.old + length xs + length ys)
        (λ _. spare pool.new ≡ spare pool.old + length xs + length ys) }
    ensures others { MatchResult result (λ list. KeepsOthers pool.old (name a ∷ name b ∷ []) pool.new (name list ∷ []))
        (λ _. KeepsOthers pool.old (name a ∷ name b ∷ []) pool.new []) }
    ensures steps { (xs ys : Candidates) → Holds pool.old a xs → Holds pool.old b ys
        → steps.new ≤ steps.old + 4 * (length xs + length ys) }
{
    let mut at = Branches {
        list: pool.none(),
        a,
        b,
    };
    let joined = join_firsts(pool, arena, &mut at, steps);
    let list = end_branches(pool, arena, at);
    if joined.is_err() {
        end_list(pool, arena, list);
        return Err(Memory);
    }
    Ok(list)
}
