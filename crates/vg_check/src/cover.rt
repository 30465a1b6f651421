//! Whether the lists of a node cover what comes up to it.

ghost use Rattle.std.specs.Prelude.{◌≡◌, ◌↔◌, ◌<◌, Bool, not, true, false, List, length, slice_index_or, ◌≤ℤ◌, Some, IfOk, OnOk, IsTrue};
ghost use Rattle.std.specs.List.{All, AllPairs, Contains};
ghost use Rattle.elmore.specs.Allowances.{allowed_at, Allows};
ghost use Rattle.elmore.specs.Cells.{rep_at};
ghost use Rattle.elmore.specs.Pairs.{IsBelow};
ghost use Rattle.elmore.specs.declared.pair.Pair.{Pair as PairSpec};
ghost use Rattle.elmore.specs.declared.rep.Rep.{Rep as RepSpec};
ghost use Rattle.cand_pairs.specs.Candidates.{IsCoveredBy, past_cell};
ghost use Rattle.cand_pairs.specs.Merging.{AreCoveredBy, IsChoiceAt, IsGreatestBy, IsGreatestOf};
ghost use Rattle.cand_pairs.specs.Parts.{list_of};
ghost use Rattle.vg_cert.specs.Fits.{list_of as entries_of};
ghost use Rattle.vg_check.specs.Covers.{AreWorked, CoversCells, CoversFrom, CoversJoins, CoversOwns, IsCountWithin, IsWorked};
ghost use Rattle.vg_check.specs.Hulls.{AreWithin, IsHull};
ghost use Rattle.vg_check.specs.Orders.{IsOrder};

use crate::hull::{Hull, find_greatest};
use crate::order::Rank;
use cand_pairs::Classes;
use elmore::{Pair, Problem, Rep};
use vg_cert::NodeLists;
use vg_num::Memory;

/// From how many repeaters on a hull is worth its making: fewer are tried on each pair in less time.
const HULL_FROM: usize = 8;

/// Whether each of the pairs is dominated by an entry. Both lists rise.
fn covers(entries: &[Pair], pairs: &[Pair]) -> bool
    requires entries { AllPairs IsBelow entries.now }
    requires pairs { AllPairs IsBelow pairs.now }
    ensures { IsTrue result ↔ AreCoveredBy (Contains pairs.now) entries.now }
{
    let mut at = 0;
    let mut next = 0;
    'walk: while next < pairs.len() {
        if at == entries.len() {
            return false;
        }
        let entry = entries[at];
        let pair = pairs[next];
        if entry.q < pair.q {
            at += 1;
        } else if entry.c <= pair.c {
            next += 1;
        } else {
            return false;
        }
    }
    true
}

/// How many entries have no more than a load (aF), found by halves.
fn count_within(entries: &[Pair], load: u64) -> usize
    requires { AllPairs IsBelow entries.now }
    ensures { IsCountWithin entries.now load result }
{
    let mut low = 0;
    let mut high = entries.len();
    'search: while low < high {
        let middle = low + (high - low) / 2;
        if entries[middle].c <= load {
            low = middle + 1;
        } else {
            high = middle;
        }
    }
    low
}

/// Whether a pair has no more time than another.
fn is_no_later(a: Pair, b: Pair) -> bool
    ensures { IsTrue result ↔ a.q ≤ℤ b.q }
{
    a.q <= b.q
}

/// Whether a pair is dominated by an entry: of those with no more load the last has the most time.
fn is_dominated(entries: &[Pair], pair: Pair) -> bool
    requires { AllPairs IsBelow entries.now }
    ensures { IsTrue result ↔ IsCoveredBy (Contains entries.now) pair }
{
    let count = count_within(entries, pair.c);
    if count == 0 {
        return false;
    }
    is_no_later(pair, entries[count - 1])
}

/// Whether the pairs that a repeater makes of those of a list are dominated by an entry: the greatest of them, if there
/// is one, is enough.
fn covers_greatest(entries: &[Pair], found: Option<Pair>) -> bool
    requires entries { AllPairs IsBelow entries.now }
    ensures { (rep : RepSpec) (pairs : List PairSpec) → IsGreatestOf rep pairs found
        → IsTrue result ↔ AreCoveredBy (IsGreatestBy rep pairs) entries.now }
{
    match found {
        Some(pair) => is_dominated(entries, pair),
        None => true,
    }
}

/// The entries of the class that a repeater makes of a signal of the class.
fn above<'a>(rep: &Rep, odd: bool, lists: &'a NodeLists) -> &'a [Pair]
    ensures { result.now ≡ entries_of lists.now (past_cell (Some rep.now) odd) }
{
    if rep.inverts != odd {
        &lists.odd
    } else {
        &lists.even
    }
}

/// Whether a node allows a repeater.
fn allows(p: &Problem, node: usize, rep: usize) -> bool
    requires node { node < length p.now.tree.nodes }
    requires rep { rep < length p.now.reps }
    ensures { IsTrue result ↔ Allows (allowed_at p.now.allowed node) rep }
{
    p.allowed.as_slice()[node].allows(rep as u32)
}

/// Whether a node is a place.
fn is_place(p: &Problem, node: usize) -> bool
    requires node { node < length p.now.tree.nodes }
    ensures { result ≡ slice_index_or p.now.places node false }
{
    p.places.as_slice()[node]
}

/// Whether the lists of a node cover what a repeater makes of the pairs of one class, if the node allows that one. The
/// hull may go on to its limit. Answers `Memory` where there is no room.
fn covers_rep(
    p: &Problem,
    node: usize,
    rep: usize,
    odd: bool,
    pairs: &[Pair],
    lists: &NodeLists,
    hull: &mut Hull,
) -> Result<bool, Memory>
    requires node { node < length p.now.tree.nodes }
    requires rep { rep < length p.now.reps }
    requires pairs { IsWorked pairs.now }
    requires lists { (class : Bool) → AllPairs IsBelow (entries_of lists.now class) }
    requires hull { IsHull pairs.now hull.old.next hull.old.points.items }
    requires within { AreWithin (rep_at p.now.reps rep).limit pairs.now hull.old.next }
    ensures hull { OnOk result (IsHull pairs.now hull.new.next hull.new.points.items) }
    ensures within { OnOk result (AreWithin (rep_at p.now.reps rep).limit pairs.now hull.new.next) }
    ensures covers { IfOk result (λ covers. IsTrue covers ↔ (Allows (allowed_at p.now.allowed node) rep
        → AreCoveredBy (IsGreatestBy (rep_at p.now.reps rep) pairs.now)
        (entries_of lists.now (past_cell (Some (rep_at p.now.reps rep)) odd)))) }
{
    if !allows(p, node, rep) {
        return Ok(true);
    }
    let rep = &p.reps.as_slice()[rep];
    let few = p.reps.len() < HULL_FROM;
    let found = find_greatest(rep, pairs, few, hull)?;
    Ok(covers_greatest(above(rep, odd, lists), found))
}

/// Whether the lists of a place cover what the repeaters that may stand there make of the pairs of one class. Answers
/// `Memory` where there is no room.
fn covers_from(
    p: &Problem,
    node: usize,
    order: &[Rank],
    odd: bool,
    pairs: &[Pair],
    lists: &NodeLists,
    hull: &mut Hull,
) -> Result<bool, Memory>
    requires node { node < length p.now.tree.nodes }
    requires place { slice_index_or p.now.places node false ≡ true }
    requires order { IsOrder p.now.reps order.now }
    requires pairs { IsWorked pairs.now }
    requires lists { (class : Bool) → AllPairs IsBelow (entries_of lists.now class) }
    ensures { IfOk result (λ covers. IsTrue covers ↔ CoversFrom p.now node odd pairs.now (entries_of lists.now)) }
{
    hull.clear();
    'reps: for at in 0..order.len() {
        if !covers_rep(p, node, order[at].rep as usize, odd, pairs, lists, hull)? {
            return Ok(false);
        }
    }
    Ok(true)
}

/// Whether the lists of a node cover what the repeaters that may stand there make of its pairs. Answers `Memory` where
/// there is no room.
fn covers_cells(
    p: &Problem,
    node: usize,
    order: &[Rank],
    lists: &NodeLists,
    joins: &Classes,
    hull: &mut Hull,
) -> Result<bool, Memory>
    requires node { node < length p.now.tree.nodes }
    requires order { IsOrder p.now.reps order.now }
    requires lists { (odd : Bool) → AllPairs IsBelow (entries_of lists.now odd) }
    requires joins { AreWorked (list_of joins.now) }
    ensures { IfOk result (λ covers. IsTrue covers
        ↔ CoversCells p.now node (list_of joins.now) (entries_of lists.now)) }
{
    if !is_place(p, node) {
        return Ok(true);
    }
    if !covers_from(p, node, order, false, &joins.evens, lists, hull)? {
        return Ok(false);
    }
    let covers = covers_from(p, node, order, true, &joins.odds, lists, hull)?;
    Ok(covers)
}

/// Whether the lists of a node cover the pairs that come up to it.
fn covers_joins(lists: &NodeLists, joins: &Classes) -> bool
    requires lists { (odd : Bool) → AllPairs IsBelow (entries_of lists.now odd) }
    requires joins { AreWorked (list_of joins.now) }
    ensures { IsTrue result ↔ CoversJoins (list_of joins.now) (entries_of lists.now) }
{
    covers(&lists.even, &joins.evens) && covers(&lists.odd, &joins.odds)
}

/// Whether the lists of a node cover all that it comes to, with and without a cell, by the pairs that come up to it. The
/// repeaters stand by their limits. Answers `Memory` where there is no room.
pub(crate) fn covers_owns(
    p: &Problem,
    node: usize,
    order: &[Rank],
    lists: &NodeLists,
    joins: &Classes,
    hull: &mut Hull,
) -> Result<bool, Memory>
    requires node { node < length p.now.tree.nodes }
    requires order { IsOrder p.now.reps order.now }
    requires lists { (odd : Bool) → AllPairs IsBelow (entries_of lists.now odd) }
    requires joins { AreWorked (list_of joins.now) }
    ensures { IfOk result (λ covers. IsTrue covers
        ↔ CoversOwns p.now node (list_of joins.now) (entries_of lists.now)) }
{
    if !covers_joins(lists, joins) {
        return Ok(false);
    }
    let covers = covers_cells(p, node, order, lists, joins, hull)?;
    Ok(covers)
}
