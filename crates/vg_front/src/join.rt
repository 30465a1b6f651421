//! The candidates of two branches together.

ghost use Rattle.std.specs.Prelude.{◌≡◌, ◌+◌, ◌<◌, Bool, true, [], ◌++◌, length, IfOk, MatchResult};
ghost use Rattle.elmore.specs.Problems.{is_live};
ghost use Rattle.elmore.specs.Trees.{parent_of};
ghost use Rattle.sol_arena.specs.Arenas.{slots_of, made_of};
ghost use Rattle.vg_front.specs.Branches.{list_of, all_of};
ghost use Rattle.vg_front.specs.Fronts.{IsOpenAt};
ghost use Rattle.vg_front.specs.Held.{AreBounded, AreHeld, IsGiven};
ghost use Rattle.vg_front.specs.Joining.{AreAllApart, AreMet, IsCarriedAt};

use crate::branch::Branch;
use crate::list::give_up;
use crate::make::make_all;
use crate::meet::meet_lists;
use crate::offer::Candidate;
use crate::propose::Desk;
use elmore::Problem;
use sol_arena::Arena;
use std::alloc::Global;
use vg_num::Memory;

/// The candidates of two lists together within the cap; these stay.
fn meet_all(
    alloc: Global,
    arena: &mut Arena,
    xs: &[Candidate],
    ys: &[Candidate],
    cap: Option<u64>,
    desk: &mut Desk,
) -> Result<Vec<Candidate>, Memory>
    requires bounded_first { AreBounded xs.now }
    requires bounded_second { AreBounded ys.now }
    requires held { AreHeld (slots_of arena.old) (xs.now ++ ys.now) }
    requires apart { AreAllApart (made_of arena.old) xs.now ys.now }
    ensures given { MatchResult result (λ met. IsGiven (slots_of arena.old) [] (slots_of arena.new) met.items)
        (λ _. IsGiven (slots_of arena.old) [] (slots_of arena.new) []) }
    ensures met { IfOk result (λ met. AreMet cap (made_of arena.old) (made_of arena.new) xs.now ys.now met.items) }
{
    meet_lists(alloc, xs, ys, cap, desk)?;
    let met = make_all(alloc, arena, &desk.made)?;
    Ok(met)
}

impl Branch {
    /// The candidates of this branch and of another one together within the cap; these stay.
    fn met_with(
        &self,
        alloc: Global,
        arena: &mut Arena,
        lower: &Branch,
        cap: Option<u64>,
        desk: &mut Desk,
    ) -> Result<Branch, Memory>
        requires bounded_upper { (odd : Bool) → AreBounded (list_of self.now odd) }
        requires bounded_lower { (odd : Bool) → AreBounded (list_of lower.now odd) }
        requires held { AreHeld (slots_of arena.old) (all_of self.now ++ all_of lower.now) }
        requires apart { (odd : Bool) → AreAllApart (made_of arena.old) (list_of self.now odd) (list_of lower.now odd) }
        ensures given { MatchResult result (λ met. IsGiven (slots_of arena.old) [] (slots_of arena.new) (all_of met))
            (λ _. IsGiven (slots_of arena.old) [] (slots_of arena.new) []) }
        ensures met { IfOk result (λ met. (odd : Bool)
            → AreMet cap (made_of arena.old) (made_of arena.new) (list_of self.now odd) (list_of lower.now odd)
            (list_of met odd)) }
    {
        let even = meet_all(alloc, arena, &self.even, &lower.even, cap, desk)?;
        match meet_all(alloc, arena, &self.odd, &lower.odd, cap, desk) {
            Ok(odd) => Ok(Branch { even, odd }),
            Err(memory) => {
                give_up(even, arena);
                Err(memory)
            }
        }
    }

    /// The candidates of a node, of which these are those with the children that came in before, together with those of
    /// one more child, above its wire. Both branches are given up. Answers `Memory` where there is no room.
    pub fn meet(
        self,
        alloc: Global,
        arena: &mut Arena,
        p: &Problem,
        node: usize,
        lower: Branch,
        cap: Option<u64>,
        desk: &mut Desk,
    ) -> Result<Branch, Memory>
        requires below_root { 0 < node }
        requires node { node < length p.now.tree.nodes }
        requires live { is_live p.now.tree.nodes p.now.sinks node ≡ true }
        requires held { AreHeld (slots_of arena.old) (all_of self ++ all_of lower) }
        requires upper { IsOpenAt p.now cap (node + 1) (parent_of p.now.tree.nodes node)
            (made_of arena.old) (list_of self) }
        requires lower { IsCarriedAt p.now cap node 0 (made_of arena.old) (list_of lower) }
        ensures given { MatchResult result (λ met.
            IsGiven (slots_of arena.old) (all_of self ++ all_of lower) (slots_of arena.new) (all_of met))
            (λ _. IsGiven (slots_of arena.old) (all_of self ++ all_of lower) (slots_of arena.new) []) }
        ensures opened { IfOk result (λ met.
            IsOpenAt p.now cap node (parent_of p.now.tree.nodes node) (made_of arena.new) (list_of met)) }
    {
        let (mut upper, mut lower) = (self, lower);
        upper.prune(arena, &mut desk.stairs);
        lower.prune(arena, &mut desk.stairs);
        let met = upper.met_with(alloc, arena, &lower, cap, desk);
        upper.give_up(arena);
        lower.give_up(arena);
        met
    }
}
