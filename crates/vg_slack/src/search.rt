//! The search for a best placement of a net.

ghost use Rattle.std.specs.Prelude.{◌≡◌, ◌≢◌, ℕ, ◌<◌, [], length, IfOk, OnOk};
ghost use Rattle.sol_arena.specs.Arenas.{slots_of, made_of};
ghost use Rattle.sol_arena.specs.Reach.{IsRestored};
ghost use Rattle.cand_turns.specs.Swaps.{AreHeld, IsSwap, search};
ghost use Rattle.cand_turns.specs.Parts.{lists_in};
ghost use Rattle.cand_turns.specs.Tooled.{AreToolsOf};
ghost use Rattle.vg_slack.specs.Climbs.{all_lists, IsSoFar, AreParts};
ghost use Rattle.vg_slack.specs.Bests.{IsAnswer};
ghost use Rattle.vg_slack.specs.Choices.{AreChoices};
ghost use Rattle.cand_turns.specs.Solved.{CanWiden};
ghost use Rattle.vg_slack.specs.Kept.{lists_at, AreEmpty, IsKeptOf, AreKept, AreAllKept, AreListsOf};
ghost use Rattle.vg_slack.specs.Waits.{IsWaiting};

use crate::answer::{Answer, best_placement};
use crate::choices::{Choices, choices_of};
use crate::climb::{climb, close, give_up, start, take};
use crate::lists::Lists;
use crate::root::best_candidate;
use crate::waiting::Waiting;
use cand_pool::{Pool, Steps};
use cand_turns::{Part, Tools};
use elmore::Problem;
use sol_arena::Arena;
use std::alloc::Global;
use std::sync::ledger::Ledger;
use vg_num::Memory;
use wire_widths::{PLAIN, Width};

/// What the part of the root comes to when all other nodes came in: what a best solution chooses, or none. The part is
/// given up. Answers `Memory` when out of memory.
fn choices_at_root<L: Ledger>(
    alloc: Global,
    pool: &mut Pool,
    arena: &mut Arena,
    p: &Problem,
    widths: &[Width],
    part: Part,
    tools: &mut Tools,
    lists: &mut Lists,
    steps: &mut Steps<L>,
) -> Result<Option<Choices>, Memory>
    requires widths { CanWiden p.now widths.now }
    requires tools { AreToolsOf p.now tools.old }
    requires held { AreHeld (search pool.old arena.old) (lists_in part) }
    requires whole { IsSoFar p.now widths.now 1 0 (made_of arena.old) pool.old part }
    requires none { AreEmpty (lists_at lists.old 0) }
    requires below { (v : ℕ) → v < length p.now.tree.nodes → v ≢ 0 → IsKeptOf p.now widths.now lists.old v }
    ensures answer { IfOk result (AreChoices p.now widths.now) }
    ensures swap { IsSwap (search pool.old arena.old) (lists_in part) (search pool.new arena.new) [] }
    ensures nodes { length lists.new.nodes.items ≡ length lists.old.nodes.items }
    ensures kept { IfOk result (λ _. AreAllKept p.now widths.now lists.new) }
{
    let Part::Live(branch) = part else {
        unreachable!()
    };
    let branch = close(branch, pool, arena, p, widths, 0, tools, lists, steps)?;
    let choice = best_candidate(pool, p, &branch.even, steps);
    let found = choices_of(alloc, arena, p, widths, choice);
    branch.give_up(pool, arena);
    found
}

/// What the parts of all nodes come to: what a best solution chooses, or none. The parts are given up. Answers `Memory`
/// when out of memory.
fn choices_of_parts<L: Ledger>(
    alloc: Global,
    pool: &mut Pool,
    arena: &mut Arena,
    p: &Problem,
    widths: &[Width],
    parts: &mut Vec<Part>,
    waiting: &mut Waiting,
    tools: &mut Tools,
    lists: &mut Lists,
    steps: &mut Steps<L>,
) -> Result<Option<Choices>, Memory>
    requires waiting { IsWaiting p.now waiting.old 0 }
    requires widths { CanWiden p.now widths.now }
    requires tools { AreToolsOf p.now tools.old }
    requires held { AreHeld (search pool.old arena.old) (all_lists parts.old.items) }
    requires parts { AreParts p.now widths.now waiting.old (made_of arena.old) pool.old parts.old.items }
    requires kept { AreKept p.now widths.now waiting.old lists.old }
    ensures answer { IfOk result (AreChoices p.now widths.now) }
    ensures swap { IsSwap (search pool.old arena.old) (all_lists parts.old.items) (search pool.new arena.new) [] }
    ensures nodes { length lists.new.nodes.items ≡ length lists.old.nodes.items }
    ensures kept { IfOk result (λ _. AreAllKept p.now widths.now lists.new) }
{
    if let Err(memory) = climb(pool, arena, p, widths, parts, waiting, tools, lists, steps) {
        give_up(pool, arena, parts);
        return Err(memory);
    }
    let root = take(parts, 0);
    choices_at_root(alloc, pool, arena, p, widths, root, tools, lists, steps)
}

/// What a best solution of a problem chooses, or none, by a search whose lists stand in a lent pool, and its solutions
/// in a lent arena. Answers `Memory` when out of memory.
fn choices_in<L: Ledger>(
    alloc: Global,
    p: &Problem,
    widths: &[Width],
    pool: &mut Pool,
    arena: &mut Arena,
    lists: &mut Lists,
    steps: &mut Steps<L>,
) -> Result<Option<Choices>, Memory>
    requires widths { CanWiden p.now widths.now }
    requires none { (v : ℕ) → AreEmpty (lists_at lists.old v) }
    ensures answer { IfOk result (AreChoices p.now widths.now) }
    ensures swap { OnOk result (IsSwap (search pool.old arena.old) [] (search pool.new arena.new) []) }
    ensures restored { IsRestored (slots_of arena.old) (slots_of arena.new) }
    ensures nodes { length lists.new.nodes.items ≡ length lists.old.nodes.items }
    ensures kept { IfOk result (λ _. AreAllKept p.now widths.now lists.new) }
{
    let mut parts = Vec::new(alloc);
    let mut waiting = Waiting::of(alloc, p)?;
    let mut tools = Tools::new(alloc, p)?;
    start(pool, arena, p, widths, &mut parts)?;
    choices_of_parts(
        alloc,
        pool,
        arena,
        p,
        widths,
        &mut parts,
        &mut waiting,
        &mut tools,
        lists,
        steps,
    )
}

/// A best placement of a problem, or none where no placement is good. With `keep`, the undominated candidates of each
/// node come with it. The lists of the search stand in a lent pool, which loses no slot to them, and its solutions in a
/// lent arena, which afterwards is as before. Answers `Memory` when out of memory.
pub(crate) fn best_with<L: Ledger>(
    alloc: Global,
    p: &Problem,
    keep: bool,
    pool: &mut Pool,
    arena: &mut Arena,
    steps: &mut Steps<L>,
) -> Result<Answer, Memory>
    ensures found { IfOk result (λ answer. IsAnswer p.now answer.found) }
    ensures lists { IfOk result (λ answer. AreListsOf p.now keep answer.lists) }
    ensures swap { OnOk result (IsSwap (search pool.old arena.old) [] (search pool.new arena.new) []) }
    ensures restored { IsRestored (slots_of arena.old) (slots_of arena.new) }
{
    let nodes = if keep { p.tree.nodes.len() } else { 0 };
    let mut lists = Lists::new(alloc, nodes)?;
    let widths = [PLAIN];
    let choices = choices_in(alloc, p, &widths, pool, arena, &mut lists, steps)?;
    let found = best_placement(alloc, p, choices)?;
    Ok(Answer { found, lists })
}

/// A best placement of a problem (van Ginneken 1990; Lillis, Cheng and Lin 1996), or none where no placement is good.
/// With `keep`, the undominated candidates of each node come with it. The solutions of the search stand in the lent
/// arena, which afterwards is as before. Answers `Memory` when out of memory.
pub fn best_in<L: Ledger>(
    alloc: Global,
    p: &Problem,
    keep: bool,
    arena: &mut Arena,
    steps: &mut Steps<L>,
) -> Result<Answer, Memory>
    ensures found { IfOk result (λ answer. IsAnswer p.now answer.found) }
    ensures lists { IfOk result (λ answer. AreListsOf p.now keep answer.lists) }
    ensures restored { IsRestored (slots_of arena.old) (slots_of arena.new) }
{
    let mut pool = Pool::new(alloc);
    best_with(alloc, p, keep, &mut pool, arena, steps)
}

/// A best placement of a problem, or none where no placement is good. With `keep`, the undominated candidates of each
/// node come with it. Answers `Memory` when out of memory.
pub fn best<L: Ledger>(
    alloc: Global,
    p: &Problem,
    keep: bool,
    steps: &mut Steps<L>,
) -> Result<Answer, Memory>
    ensures found { IfOk result (λ answer. IsAnswer p.now answer.found) }
    ensures lists { IfOk result (λ answer. AreListsOf p.now keep answer.lists) }
{
    let mut arena = Arena::new(alloc);
    best_in(alloc, p, keep, &mut arena, steps)
}

/// What a best choice of cells and of a width for each wire is (Lillis, Cheng and Lin 1996), or none where no placement
/// is good with any widths. With all widths the loads of the net stay within its limit. Answers `Memory` when out of
/// memory.
pub fn best_choices<L: Ledger>(
    alloc: Global,
    p: &Problem,
    widths: &[Width],
    steps: &mut Steps<L>,
) -> Result<Option<Choices>, Memory>
    requires widths { CanWiden p.now widths.now }
    ensures { IfOk result (AreChoices p.now widths.now) }
{
    let mut pool = Pool::new(alloc);
    let mut arena = Arena::new(alloc);
    let mut lists = Lists::new(alloc, 0)?;
    choices_in(alloc, p, widths, &mut pool, &mut arena, &mut lists, steps)
}
