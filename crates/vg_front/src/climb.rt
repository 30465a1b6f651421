//! The way up a net, from its last node to its root.

ghost use Rattle.std.specs.Prelude.{◌≡◌, ℕ, ◌+◌, ◌<◌, ◌≤◌, List, [], ◌++◌, length, OnOk, IfOk, MatchResult, Option};
ghost use Rattle.elmore.specs.Trees.{parent_of};
ghost use Rattle.sol_arena.specs.Arenas.{slots_of, made_of};
ghost use Rattle.sol_arena.specs.declared.slot.Slot.{Slot};
ghost use Rattle.vg_front.specs.Held.{AreHeld, IsGiven};
ghost use Rattle.vg_front.specs.Parts.{held_in, IsPart, all_held, AreParts};

use crate::part::Part;
use crate::propose::Desk;
use elmore::Problem;
use sol_arena::Arena;
use std::alloc::Global;
use std::mem;
use vg_num::Memory;

/// The parts of all nodes, to which no child came in yet.
pub(crate) fn start(
    alloc: Global,
    arena: &Arena,
    p: &Problem,
    parts: &mut Vec<Part>,
) -> Result<(), Memory>
    requires none { parts.old.items ≡ [] }
    ensures given { OnOk result ((slots : List Slot) → IsGiven slots [] slots (all_held parts.new.items)) }
    ensures parts { OnOk result ((cap : Option ℕ)
        → AreParts p.now cap (length p.now.tree.nodes) (made_of arena.now) parts.new.items) }
{
    'nodes: for node in 0..p.tree.nodes.len() {
        let part = Part::start(alloc, arena, p, node)?;
        parts.push(part)?;
    }
    Ok(())
}

/// What the part of a node comes to when a child comes in to it, whose part has all that is below the child. Answers
/// `Memory` where there is no room; both parts are given up then.
fn take_in(
    upper: Part,
    part: Part,
    alloc: Global,
    arena: &mut Arena,
    p: &Problem,
    node: usize,
    cap: Option<u64>,
    desk: &mut Desk,
) -> Result<Part, Memory>
    requires below_root { 0 < node }
    requires node { node < length p.now.tree.nodes }
    requires held { AreHeld (slots_of arena.old) (held_in upper ++ held_in part) }
    requires upper { IsPart p.now cap (node + 1) (parent_of p.now.tree.nodes node) (made_of arena.old) upper }
    requires whole { IsPart p.now cap (node + 1) node (made_of arena.old) part }
    ensures given { MatchResult result (λ taken.
        IsGiven (slots_of arena.old) (held_in upper ++ held_in part) (slots_of arena.new) (held_in taken))
        (λ _. IsGiven (slots_of arena.old) (held_in upper ++ held_in part) (slots_of arena.new) []) }
    ensures part { IfOk result (λ taken.
        IsPart p.now cap node (parent_of p.now.tree.nodes node) (made_of arena.new) taken) }
{
    match part {
        Part::Dead(c) => Ok(upper.take_dead(p, node, c)),
        Part::Live(branch) => match branch.close(alloc, arena, p, node, cap, desk) {
            Ok(branch) => {
                let taken = upper.take_live(alloc, arena, p, node, branch, cap, desk)?;
                Ok(taken)
            }
            Err(memory) => {
                upper.give_up(arena);
                Err(memory)
            }
        },
    }
}

/// The last node, to which all its children came in, comes in to its parent.
fn turn(
    alloc: Global,
    arena: &mut Arena,
    p: &Problem,
    parts: &mut Vec<Part>,
    cap: Option<u64>,
    desk: &mut Desk,
) -> Result<(), Memory>
    requires more { 1 < length parts.old.items }
    requires within { length parts.old.items ≤ length p.now.tree.nodes }
    requires held { AreHeld (slots_of arena.old) (all_held parts.old.items) }
    requires parts { AreParts p.now cap (length parts.old.items) (made_of arena.old) parts.old.items }
    ensures fewer { length parts.new.items + 1 ≡ length parts.old.items }
    ensures given { IsGiven (slots_of arena.old) (all_held parts.old.items) (slots_of arena.new)
        (all_held parts.new.items) }
    ensures parts { OnOk result (AreParts p.now cap (length parts.new.items) (made_of arena.new) parts.new.items) }
{
    let Some(part) = parts.pop() else {
        unreachable!()
    };
    let node = parts.len();
    let parent = p.tree.nodes.as_slice()[node].parent as usize;
    let upper = mem::replace(&mut parts[parent], Part::Dead(0));
    parts[parent] = take_in(upper, part, alloc, arena, p, node, cap, desk)?;
    Ok(())
}

/// All nodes but the root come in, each to its parent, from the last to the first.
pub(crate) fn climb(
    alloc: Global,
    arena: &mut Arena,
    p: &Problem,
    parts: &mut Vec<Part>,
    cap: Option<u64>,
    desk: &mut Desk,
) -> Result<(), Memory>
    requires held { AreHeld (slots_of arena.old) (all_held parts.old.items) }
    requires parts { AreParts p.now cap (length p.now.tree.nodes) (made_of arena.old) parts.old.items }
    ensures given { IsGiven (slots_of arena.old) (all_held parts.old.items) (slots_of arena.new)
        (all_held parts.new.items) }
    ensures parts { OnOk result (AreParts p.now cap 1 (made_of arena.new) parts.new.items) }
{
    'nodes: while parts.len() > 1 {
        turn(alloc, arena, p, parts, cap, desk)?;
    }
    Ok(())
}

/// Gives up the lists of all parts, with the uses of their solutions.
pub(crate) fn give_up_all(parts: &mut Vec<Part>, arena: &mut Arena)
    requires held { AreHeld (slots_of arena.old) (all_held parts.old.items) }
    ensures given { IsGiven (slots_of arena.old) (all_held parts.old.items) (slots_of arena.new) [] }
{
    'parts: while let Some(part) = parts.pop() {
        part.give_up(arena);
    }
}
