//! The way up a net, from all nodes to its root, depth first.

ghost use Rattle.std.specs.Prelude.{◌≡◌, ◌≢◌, ℕ, ◌+◌, ◌<◌, ◌≤◌, Bool, [], ◌++◌, length, sum, OnOk, IfOk, MatchResult};
ghost use Rattle.elmore.specs.Trees.{parent_of};
ghost use Rattle.sol_arena.specs.Arenas.{made_of};
ghost use Rattle.cand_turns.specs.Swaps.{Slots, AreHeld, IsSwap, IsTurn, search, at_slots};
ghost use Rattle.cand_turns.specs.declared.part.Part.TheVariants.{Live};
ghost use Rattle.cand_turns.specs.Branches.{classes_in, lists_of};
ghost use Rattle.cand_turns.specs.Parts.{lists_in};
ghost use Rattle.cand_turns.specs.Solved.{CanWiden, IsClosedAt};
ghost use Rattle.cand_turns.specs.Tooled.{AreToolsOf, added_at};
ghost use Rattle.vg_slack.specs.Climbs.{all_lists, part_at, without, IsAboveSoFar, IsSoFar, AreBegun, AreParts};
ghost use Rattle.vg_slack.specs.Kept.{lists_at, AreEmpty, IsKeptOf, AreKept};
ghost use Rattle.vg_slack.specs.Waits.{last_at, IsWaiting, IsAtRoot};

use crate::lists::Lists;
use crate::waiting::{Waiting, parent_of};
use cand_pool::{Pool, Steps};
use cand_turns::{Branch, Part, Tools};
use elmore::Problem;
use sol_arena::Arena;
use std::mem;
use std::sync::ledger::Ledger;
use vg_num::Memory;
use wire_widths::Width;

/// The parts of all nodes, to which no child came in yet.
pub(crate) fn start(
    pool: &mut Pool,
    arena: &Arena,
    p: &Problem,
    widths: &[Width],
    parts: &mut Vec<Part>,
) -> Result<(), Memory>
    requires widths { CanWiden p.now widths.now }
    requires none { parts.old.items ≡ [] }
    ensures all { OnOk result (length parts.new.items ≡ length p.now.tree.nodes) }
    ensures turn { OnOk result ((slots : Slots)
        → IsTurn (at_slots pool.old slots) [] (at_slots pool.new slots) (all_lists parts.new.items)) }
    ensures begun { OnOk result (AreBegun p.now widths.now (made_of arena.now) pool.new parts.new.items) }
{
    'nodes: for node in 0..p.tree.nodes.len() {
        pool.reserve(1)?;
        let part = Part::start(pool, arena, p, widths, node);
        parts.push(part)?;
    }
    Ok(())
}

/// Takes the part of a node away. One without lists stands for it.
pub(crate) fn take(parts: &mut Vec<Part>, node: usize) -> Part
    requires { node < length parts.old.items }
    ensures part { result ≡ part_at parts.old.items node }
    ensures left { parts.new.items ≡ without parts.old.items node }
{
    mem::replace(&mut parts[node], Part::Dead(0))
}

/// Gives up the lists of a part, with the uses of their solutions.
fn give_up_part(part: Part, pool: &mut Pool, arena: &mut Arena)
    requires held { AreHeld (search pool.old arena.old) (lists_in part) }
    ensures swap { IsSwap (search pool.old arena.old) (lists_in part) (search pool.new arena.new) [] }
{
    part.give_up(pool, arena);
}

/// The candidates of a node to which all its children came in, with and without a cell there. They are kept, where
/// lists are kept at all. Answers `Memory` when out of memory; the branch is given up then.
pub(crate) fn close<L: Ledger>(
    branch: Branch,
    pool: &mut Pool,
    arena: &mut Arena,
    p: &Problem,
    widths: &[Width],
    node: usize,
    tools: &mut Tools,
    lists: &mut Lists,
    steps: &mut Steps<L>,
) -> Result<Branch, Memory>
    requires node { node < length p.now.tree.nodes }
    requires widths { CanWiden p.now widths.now }
    requires tools { AreToolsOf p.now tools.old }
    requires held { AreHeld (search pool.old arena.old) (lists_of branch) }
    requires whole { IsSoFar p.now widths.now (node + 1) node (made_of arena.old) pool.old (Live branch) }
    requires none { AreEmpty (lists_at lists.old node) }
    ensures tools { AreToolsOf p.now tools.new }
    ensures turn { MatchResult result
        (λ closed. IsTurn (search pool.old arena.old) (lists_of branch) (search pool.new arena.new) (lists_of closed))
        (λ _. IsSwap (search pool.old arena.old) (lists_of branch) (search pool.new arena.new) []) }
    ensures closed { IfOk result (λ closed.
        IsClosedAt p.now widths.now node (made_of arena.new) (classes_in pool.new closed)) }
    ensures few { IfOk result (λ closed. (odd : Bool)
        → length (classes_in pool.new closed odd) ≤ length (classes_in pool.old branch odd) + added_at p.now node) }
    ensures nodes { length lists.new.nodes.items ≡ length lists.old.nodes.items }
    ensures others { (v : ℕ) → v ≢ node → lists_at lists.new v ≡ lists_at lists.old v }
    ensures kept { IfOk result (λ _. IsKeptOf p.now widths.now lists.new node) }
{
    let branch = branch.close(pool, arena, p, widths, node, tools, steps)?;
    if let Err(memory) = lists.keep(pool, &branch, node, steps) {
        branch.give_up(pool, arena);
        return Err(memory);
    }
    Ok(branch)
}

/// What the part of a node comes to when a child comes in to it, whose part has all that is below the child. The
/// candidates of the child are kept, where lists are kept at all. Answers `Memory` when out of memory; both parts are
/// given up then.
fn take_in<L: Ledger>(
    upper: Part,
    part: Part,
    pool: &mut Pool,
    arena: &mut Arena,
    p: &Problem,
    widths: &[Width],
    node: usize,
    tools: &mut Tools,
    lists: &mut Lists,
    steps: &mut Steps<L>,
) -> Result<Part, Memory>
    requires below_root { 0 < node }
    requires node { node < length p.now.tree.nodes }
    requires widths { CanWiden p.now widths.now }
    requires tools { AreToolsOf p.now tools.old }
    requires held { AreHeld (search pool.old arena.old) (lists_in upper ++ lists_in part) }
    requires upper { IsAboveSoFar p.now widths.now node (made_of arena.old) pool.old upper }
    requires whole { IsSoFar p.now widths.now (node + 1) node (made_of arena.old) pool.old part }
    requires none { AreEmpty (lists_at lists.old node) }
    ensures tools { AreToolsOf p.now tools.new }
    ensures turn { MatchResult result
        (λ taken.
        IsTurn (search pool.old arena.old) (lists_in upper ++ lists_in part)
        (search pool.new arena.new) (lists_in taken))
        (λ _. IsSwap (search pool.old arena.old) (lists_in upper ++ lists_in part) (search pool.new arena.new) []) }
    ensures part { IfOk result (λ taken.
        IsSoFar p.now widths.now node (parent_of p.now.tree.nodes node) (made_of arena.new) pool.new taken) }
    ensures nodes { length lists.new.nodes.items ≡ length lists.old.nodes.items }
    ensures others { (v : ℕ) → v ≢ node → lists_at lists.new v ≡ lists_at lists.old v }
    ensures kept { IfOk result (λ _. IsKeptOf p.now widths.now lists.new node) }
{
    match part {
        Part::Dead(c) => Ok(upper.take_dead(pool, p, widths, node, c, steps)),
        Part::Live(branch) => match close(
            branch, pool, arena, p, widths, node, tools, lists, steps,
        ) {
            Ok(branch) => {
                let taken = upper.take_live(pool, arena, p, widths, node, branch, tools, steps)?;
                Ok(taken)
            }
            Err(memory) => {
                give_up_part(upper, pool, arena);
                Err(memory)
            }
        },
    }
}

/// A node to which all its children came in comes in to its parent.
fn turn<L: Ledger>(
    pool: &mut Pool,
    arena: &mut Arena,
    p: &Problem,
    widths: &[Width],
    node: usize,
    parts: &mut Vec<Part>,
    waiting: &mut Waiting,
    tools: &mut Tools,
    lists: &mut Lists,
    steps: &mut Steps<L>,
) -> Result<(), Memory>
    requires below_root { 0 < node }
    requires waiting { IsWaiting p.now waiting.old node }
    requires whole { last_at waiting.old node ≡ node }
    requires widths { CanWiden p.now widths.now }
    requires tools { AreToolsOf p.now tools.old }
    requires held { AreHeld (search pool.old arena.old) (all_lists parts.old.items) }
    requires parts { AreParts p.now widths.now waiting.old (made_of arena.old) pool.old parts.old.items }
    requires kept { AreKept p.now widths.now waiting.old lists.old }
    ensures waiting { OnOk result (IsWaiting p.now waiting.new (parent_of p.now.tree.nodes node)) }
    ensures fewer { OnOk result (sum waiting.new.last.items < sum waiting.old.last.items) }
    ensures tools { AreToolsOf p.now tools.new }
    ensures turn { IsTurn (search pool.old arena.old) (all_lists parts.old.items) (search pool.new arena.new)
        (all_lists parts.new.items) }
    ensures parts { OnOk result (AreParts p.now widths.now waiting.new (made_of arena.new) pool.new parts.new.items) }
    ensures nodes { length lists.new.nodes.items ≡ length lists.old.nodes.items }
    ensures kept { OnOk result (AreKept p.now widths.now waiting.new lists.new) }
{
    let parent = parent_of(p, node);
    let part = take(parts, node);
    let upper = take(parts, parent);
    parts[parent] = take_in(
        upper, part, pool, arena, p, widths, node, tools, lists, steps,
    )?;
    waiting.cross_off(p, node);
    Ok(())
}

/// All nodes but the root come in, each to its parent, depth first: a node as soon as all nodes below it are in.
pub(crate) fn climb<L: Ledger>(
    pool: &mut Pool,
    arena: &mut Arena,
    p: &Problem,
    widths: &[Width],
    parts: &mut Vec<Part>,
    waiting: &mut Waiting,
    tools: &mut Tools,
    lists: &mut Lists,
    steps: &mut Steps<L>,
) -> Result<(), Memory>
    requires waiting { IsWaiting p.now waiting.old 0 }
    requires widths { CanWiden p.now widths.now }
    requires tools { AreToolsOf p.now tools.old }
    requires held { AreHeld (search pool.old arena.old) (all_lists parts.old.items) }
    requires parts { AreParts p.now widths.now waiting.old (made_of arena.old) pool.old parts.old.items }
    requires kept { AreKept p.now widths.now waiting.old lists.old }
    ensures root { OnOk result (IsAtRoot p.now waiting.new) }
    ensures tools { AreToolsOf p.now tools.new }
    ensures turn { IsTurn (search pool.old arena.old) (all_lists parts.old.items) (search pool.new arena.new)
        (all_lists parts.new.items) }
    ensures parts { OnOk result (AreParts p.now widths.now waiting.new (made_of arena.new) pool.new parts.new.items) }
    ensures nodes { length lists.new.nodes.items ≡ length lists.old.nodes.items }
    ensures kept { OnOk result (AreKept p.now widths.now waiting.new lists.new) }
{
    let mut at = 0;
    'nodes: loop {
        let last = waiting.last(at);
        if last != at {
            at = last;
        } else if at != 0 {
            turn(
                pool, arena, p, widths, at, parts, waiting, tools, lists, steps,
            )?;
            at = parent_of(p, at);
        } else {
            return Ok(());
        }
    }
}

/// Gives up the lists of all parts, with the uses of their solutions.
pub(crate) fn give_up(pool: &mut Pool, arena: &mut Arena, parts: &mut Vec<Part>)
    requires held { AreHeld (search pool.old arena.old) (all_lists parts.old.items) }
    ensures swap { IsSwap (search pool.old arena.old) (all_lists parts.old.items) (search pool.new arena.new) [] }
{
    'parts: while let Some(part) = parts.pop() {
        give_up_part(part, pool, arena);
    }
}
