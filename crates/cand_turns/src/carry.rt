//! The wire of a branch, under each of the widths that it may have (Lillis, Cheng and Lin 1996).

ghost use Rattle.std.specs.Prelude.{◌≡◌, ◌+◌, ◌*◌, ◌^◌, ◌<◌, ◌≤◌, Bool, true, None, [], ◌∷◌, map, length, IfOk, OnOk, MatchResult};
ghost use Rattle.std.specs.List.{All};
ghost use Rattle.elmore.specs.Problems.{is_live};
ghost use Rattle.elmore.specs.Trees.{resistance};
ghost use Rattle.sol_arena.specs.Arenas.{made_of};
ghost use Rattle.cand_pool.specs.Pools.{IsLive, items_of};
ghost use Rattle.cand_uses.specs.Pairs.{pairs_of};
ghost use Rattle.vg_convex.specs.Lists.{AreBareAt};
ghost use Rattle.cand_turns.specs.Swaps.{AreHeld, IsSwap, IsTurn, search};
ghost use Rattle.cand_turns.specs.Solved.{CanWiden, IsCarriedClass};
ghost use Rattle.cand_turns.specs.Widened.{AreChosen, IsClosedClass, IsUnderRows, chosen_for};

use cand_lists::{absorb, wire};
use cand_pool::{List, Pool, Steps};
use cand_uses::end_list;
use elmore::{Pair, Problem};
use sol_arena::Arena;
use std::sync::ledger::Ledger;
use vg_convex::{Made, list_of};
use vg_num::Memory;
use wire_widths::Width;

/// The resistance (mΩ) of the wire above a node.
fn resistance_of(p: &Problem, node: usize) -> u64
    requires { node < length p.now.tree.nodes }
    ensures { result ≡ resistance p.now.tree.nodes node }
{
    p.tree.nodes.as_slice()[node].r
}

/// The site of the wire above a node: sites number the nodes, and after them the wires.
fn site_of(p: &Problem, node: usize) -> u32
    requires { node < length p.now.tree.nodes }
    ensures { result ≡ length p.now.tree.nodes + node }
{
    (p.tree.nodes.len() + node) as u32
}

/// Reads the candidates of a list, each with what is to be chosen for it and with more load (aF).
fn read<L: Ledger>(
    pool: &Pool,
    from: &List,
    row: u32,
    added: u64,
    chosen: &mut Vec<Made>,
    steps: &mut Steps<L>,
) -> Result<(), Memory>
    requires live { IsLive pool.now from.now }
    requires modest { All (λ x. x.c + added ≤ 10 ^ 11) (items_of pool.now from.now) }
    ensures { OnOk result (chosen.new.items ≡ map (chosen_for row added) (items_of pool.now from.now)) }
{
    chosen.clear();
    let mut next = pool.first(from);
    'walk: while let Some(place) = next {
        let (q, c, tag) = pool.tell(place, steps);
        let pair = Pair { q, c: c + added };
        chosen.push(Made {
            pair,
            rep: row,
            tag,
        })?;
        next = pool.next(place);
    }
    Ok(())
}

/// The candidates of a list, each with a choice at a site at which none has one, and with more load (aF). The list
/// stays. Answers `Memory` where there is no room.
fn widened<L: Ledger>(
    pool: &mut Pool,
    arena: &mut Arena,
    from: &List,
    site: u32,
    row: u32,
    added: u64,
    chosen: &mut Vec<Made>,
    steps: &mut Steps<L>,
) -> Result<List, Memory>
    requires held { AreHeld (search pool.old arena.old) (from.now ∷ []) }
    requires bare { AreBareAt (made_of arena.old) site (items_of pool.old from.now) }
    requires modest { All (λ x. x.c + added ≤ 10 ^ 11) (items_of pool.old from.now) }
    ensures turn { MatchResult result
        (λ list. IsTurn (search pool.old arena.old) [] (search pool.new arena.new) (list ∷ []))
        (λ _. IsSwap (search pool.old arena.old) [] (search pool.new arena.new) []) }
    ensures chosen { IfOk result (λ list. AreChosen (made_of arena.old) (made_of arena.new) site row added
        (items_of pool.old from.now) (items_of pool.new list)) }
{
    let number = pool.len(from);
    pool.reserve(number)?;
    read(pool, from, row, added, chosen, steps)?;
    let list = list_of(pool, arena, site, chosen)?;
    Ok(list)
}

/// What the wire of a node, under one of its widths, makes of a list there, with a load (aF) beside its upper end. The
/// list stays. Answers `Memory` where there is no room.
fn under<L: Ledger>(
    pool: &mut Pool,
    arena: &mut Arena,
    p: &Problem,
    widths: &[Width],
    node: usize,
    c: u64,
    row: usize,
    from: &List,
    chosen: &mut Vec<Made>,
    steps: &mut Steps<L>,
) -> Result<List, Memory>
    requires node { node < length p.now.tree.nodes }
    requires below_root { 0 < node }
    requires live { is_live p.now.tree.nodes p.now.sinks node ≡ true }
    requires widths { CanWiden p.now widths.now }
    requires load { c ≤ 10 ^ 11 }
    requires some { 0 < row }
    requires row { row < length widths.now }
    requires held { AreHeld (search pool.old arena.old) (from.now ∷ []) }
    requires closed { (odd : Bool) × IsClosedClass p.now widths.now node odd (made_of arena.old)
        (items_of pool.old from.now) }
    ensures turn { MatchResult result
        (λ list. IsTurn (search pool.old arena.old) [] (search pool.new arena.new) (list ∷ []))
        (λ _. IsSwap (search pool.old arena.old) [] (search pool.new arena.new) []) }
    ensures rows { IfOk result (λ list. (odd : Bool)
        → IsClosedClass p.now widths.now node odd (made_of arena.old) (items_of pool.old from.now)
        → IsUnderRows p.now widths.now node c odd (pairs_of (items_of pool.old from.now)) row (row + 1)
        (made_of arena.new) (items_of pool.new list)) }
    ensures few { IfOk result (λ list. length (items_of pool.new list) ≤ length (items_of pool.old from.now)) }
{
    let width = widths[row];
    let r = resistance_of(p, node);
    let site = site_of(p, node);
    let added = width.added(r);
    let mut list = widened(pool, arena, from, site, row as u32, added, chosen, steps)?;
    wire(pool, arena, &mut list, width.resistance(r), c, steps);
    Ok(list)
}

/// What the wire of a node makes of a list under the widths from the second one up to this one, where `all` is what it
/// makes of it under those before. The list stays. Answers `Memory` where there is no room; `all` is given up then.
fn with_next<L: Ledger>(
    pool: &mut Pool,
    arena: &mut Arena,
    p: &Problem,
    widths: &[Width],
    node: usize,
    c: u64,
    row: usize,
    from: &List,
    all: List,
    chosen: &mut Vec<Made>,
    steps: &mut Steps<L>,
) -> Result<List, Memory>
    requires node { node < length p.now.tree.nodes }
    requires below_root { 0 < node }
    requires live { is_live p.now.tree.nodes p.now.sinks node ≡ true }
    requires widths { CanWiden p.now widths.now }
    requires load { c ≤ 10 ^ 11 }
    requires some { 0 < row }
    requires row { row < length widths.now }
    requires held { AreHeld (search pool.old arena.old) (all ∷ from.now ∷ []) }
    requires class { (odd : Bool)
        × IsClosedClass p.now widths.now node odd (made_of arena.old) (items_of pool.old from.now)
        × IsUnderRows p.now widths.now node c odd (pairs_of (items_of pool.old from.now)) 1 row
        (made_of arena.old) (items_of pool.old all) }
    ensures turn { MatchResult result
        (λ list. IsTurn (search pool.old arena.old) (all ∷ []) (search pool.new arena.new) (list ∷ []))
        (λ _. IsSwap (search pool.old arena.old) (all ∷ []) (search pool.new arena.new) []) }
    ensures rows { IfOk result (λ list. (odd : Bool)
        → IsClosedClass p.now widths.now node odd (made_of arena.old) (items_of pool.old from.now)
        → IsUnderRows p.now widths.now node c odd (pairs_of (items_of pool.old from.now)) 1 row
        (made_of arena.old) (items_of pool.old all)
        → IsUnderRows p.now widths.now node c odd (pairs_of (items_of pool.old from.now)) 1 (row + 1)
        (made_of arena.new) (items_of pool.new list)) }
    ensures few { IfOk result (λ list. length (items_of pool.new list)
        ≤ length (items_of pool.old all) + length (items_of pool.old from.now)) }
{
    let mut all = all;
    match under(pool, arena, p, widths, node, c, row, from, chosen, steps) {
        Ok(other) => {
            absorb(pool, arena, &mut all, other, steps);
            Ok(all)
        }
        Err(memory) => {
            end_list(pool, arena, all);
            Err(memory)
        }
    }
}

/// What the wire of a node makes of a list there under all its widths but the first, with a load (aF) beside its upper
/// end. The list stays. Answers `Memory` where there is no room.
fn wider<L: Ledger>(
    pool: &mut Pool,
    arena: &mut Arena,
    p: &Problem,
    widths: &[Width],
    node: usize,
    c: u64,
    from: &List,
    chosen: &mut Vec<Made>,
    steps: &mut Steps<L>,
) -> Result<List, Memory>
    requires node { node < length p.now.tree.nodes }
    requires below_root { 0 < node }
    requires live { is_live p.now.tree.nodes p.now.sinks node ≡ true }
    requires widths { CanWiden p.now widths.now }
    requires load { c ≤ 10 ^ 11 }
    requires held { AreHeld (search pool.old arena.old) (from.now ∷ []) }
    requires closed { (odd : Bool) × IsClosedClass p.now widths.now node odd (made_of arena.old)
        (items_of pool.old from.now) }
    ensures turn { MatchResult result
        (λ list. IsTurn (search pool.old arena.old) [] (search pool.new arena.new) (list ∷ []))
        (λ _. IsSwap (search pool.old arena.old) [] (search pool.new arena.new) []) }
    ensures rows { IfOk result (λ list. (odd : Bool)
        → IsClosedClass p.now widths.now node odd (made_of arena.old) (items_of pool.old from.now)
        → IsUnderRows p.now widths.now node c odd (pairs_of (items_of pool.old from.now)) 1 (length widths.now)
        (made_of arena.new) (items_of pool.new list)) }
    ensures few { IfOk result (λ list. length (items_of pool.new list) + length (items_of pool.old from.now)
        ≤ length widths.now * length (items_of pool.old from.now)) }
{
    let mut all = pool.none();
    'rows: for row in 1..widths.len() {
        all = with_next(
            pool, arena, p, widths, node, c, row, from, all, chosen, steps,
        )?;
    }
    Ok(all)
}

/// What the wire of a node makes of the candidates of one class there under each of its widths, with a load (aF) beside
/// its upper end. Answers `Memory` where there is no room; the list is given up then.
pub(crate) fn carry<L: Ledger>(
    pool: &mut Pool,
    arena: &mut Arena,
    p: &Problem,
    widths: &[Width],
    node: usize,
    c: u64,
    list: List,
    chosen: &mut Vec<Made>,
    steps: &mut Steps<L>,
) -> Result<List, Memory>
    requires node { node < length p.now.tree.nodes }
    requires below_root { 0 < node }
    requires live { is_live p.now.tree.nodes p.now.sinks node ≡ true }
    requires widths { CanWiden p.now widths.now }
    requires load { c ≤ 10 ^ 11 }
    requires held { AreHeld (search pool.old arena.old) (list ∷ []) }
    requires closed { (odd : Bool) × IsClosedClass p.now widths.now node odd (made_of arena.old)
        (items_of pool.old list) }
    ensures turn { MatchResult result
        (λ carried. IsTurn (search pool.old arena.old) (list ∷ []) (search pool.new arena.new) (carried ∷ []))
        (λ _. IsSwap (search pool.old arena.old) (list ∷ []) (search pool.new arena.new) []) }
    ensures carried { IfOk result (λ carried. (odd : Bool)
        → IsClosedClass p.now widths.now node odd (made_of arena.old) (items_of pool.old list)
        → IsCarriedClass p.now widths.now node c odd (pairs_of (items_of pool.old list))
        (made_of arena.new) (items_of pool.new carried)) }
    ensures few { IfOk result (λ carried. length (items_of pool.new carried)
        ≤ length widths.now * length (items_of pool.old list)) }
{
    let mut list = list;
    match wider(pool, arena, p, widths, node, c, &list, chosen, steps) {
        Ok(others) => {
            wire(pool, arena, &mut list, resistance_of(p, node), c, steps);
            absorb(pool, arena, &mut list, others, steps);
            Ok(list)
        }
        Err(memory) => {
            end_list(pool, arena, list);
            Err(memory)
        }
    }
}
