//! Problems and placements by their parts, in mΩ, aF and zs.

ghost use Rattle.std.specs.Prelude.{◌≡◌, ℕ, ◌<◌, true, false, Some, None, is_some, length, slice_index_or, IfOk, IsTrue};
ghost use Rattle.std.specs.List.{list_any, All, AllPairs};
ghost use Rattle.elmore.specs.Allowances.{AreAllowances};
ghost use Rattle.elmore.specs.Placed.{IsPlacementOf};
ghost use Rattle.elmore.specs.Problems.{is_sink, AreRising};
ghost use Rattle.tests_search.specs.Allowances.{IsAllowance};

use elmore::{Allowed, Driver, Node, Placement, Problem, Rep, Sink, Tree};
use std::alloc::{AllocError, Global};
use std::test::Fail;
use vg_num::Row;

/// Which repeaters a node allows: all, or those of the first three that are marked.
#[derive(Clone, Copy, PartialEq, Eq)]
pub enum Choice {
    All,
    Marked([bool; 3]),
}

impl Choice {
    /// What it allows of so many repeaters.
    fn allowed(self, alloc: Global, reps: u32) -> Result<Allowed, AllocError> {
        let Choice::Marked(marks) = self else {
            return Ok(Allowed::All);
        };
        let mut numbers = Vec::new(alloc);
        for (b, marked) in (0..reps).zip(marks.iter()) {
            if *marked {
                numbers.push(b)?;
            }
        }
        Ok(Allowed::Only(Row::from_vec(numbers)))
    }
}

/// What the nodes allow of so many repeaters.
pub fn allowed_of(alloc: Global, choices: &[Choice], reps: usize) -> Result<Row<Allowed>, Fail> {
    let reps = u32::try_from(reps).map_err(|_| "too many repeaters")?;
    let mut allowed = Vec::new(alloc);
    for choice in choices {
        allowed.push(choice.allowed(alloc, reps)?)?;
    }
    Ok(Row::from_vec(allowed))
}

/// The problem of these parts. Fails where they are none of a problem, or beyond the limits.
pub fn problem_with(
    alloc: Global,
    nodes: &[Node],
    driver: Driver,
    sinks: &[Option<Sink>],
    free: &[bool],
    reps: &[Rep],
    allowed: Row<Allowed>,
) -> Result<Problem, Fail> {
    let n = nodes.len();
    if !are_parts(n, sinks, free, reps) || !are_allowances(n, reps.len(), allowed.as_slice()) {
        return Err("not the parts of a problem".into());
    }
    let tree = tree_of(alloc, nodes)?;
    let sinks = Row::from_vec(sinks.to_vec(alloc)?);
    let reps = Row::from_vec(reps.to_vec(alloc)?);
    let made = Problem::new(alloc, tree, driver, sinks, free, reps, allowed)?;
    let problem = made.ok_or("beyond the limits")?;
    Ok(problem)
}

/// The tree of these nodes.
fn tree_of(alloc: Global, nodes: &[Node]) -> Result<Tree, Fail>
    ensures { IfOk result (λ tree. tree.nodes ≡ nodes.now) }
{
    let tree = Tree::new(Row::from_vec(nodes.to_vec(alloc)?)).ok_or("no tree")?;
    Ok(tree)
}

/// Whether these parts belong to a net of `n` nodes.
fn are_parts(n: usize, sinks: &[Option<Sink>], free: &[bool], reps: &[Rep]) -> bool
    ensures sinks_each { IsTrue result → length sinks.now ≡ n }
    ensures free_each { IsTrue result → length free.now ≡ n }
    ensures some_sink { IsTrue result → list_any is_some sinks.now ≡ true }
    ensures root { IsTrue result → slice_index_or free.now 0 false ≡ false }
    ensures no_sink { IsTrue result → (v : ℕ) → is_sink sinks.now v ≡ true → slice_index_or free.now v false ≡ false }
    ensures rising { IsTrue result → AreRising reps.now }
{
    n > 0
        && sinks.len() == n
        && free.len() == n
        && !free[0]
        && has_sink(sinks)
        && !has_free_sink(sinks, free)
        && is_rising(reps)
}

fn has_sink(sinks: &[Option<Sink>]) -> bool
    ensures { result ≡ list_any is_some sinks.now }
{
    sinks.iter().any(|sink| sink.is_some())
}

fn has_free_sink(sinks: &[Option<Sink>], free: &[bool]) -> bool
    requires { length free.now ≡ length sinks.now }
    ensures { result ≡ false → (v : ℕ) → is_sink sinks.now v ≡ true → slice_index_or free.now v false ≡ false }
{
    'sinks: for v in 0..sinks.len() {
        if sinks[v].is_some() && free[v] {
            return true;
        }
    }
    false
}

fn is_rising(reps: &[Rep]) -> bool
    ensures { result ≡ true → AreRising reps.now }
{
    'reps: for i in 1..reps.len() {
        if reps[i].r < reps[i - 1].r {
            return false;
        }
    }
    true
}

/// Whether this is what each of `n` nodes allows of so many repeaters.
fn are_allowances(n: usize, reps: usize, allowed: &[Allowed]) -> bool
    ensures { IsTrue result → AreAllowances n reps allowed.now }
{
    allowed.len() == n && are_each_allowed(reps, allowed)
}

fn are_each_allowed(reps: usize, allowed: &[Allowed]) -> bool
    ensures { IsTrue result → All (IsAllowance reps) allowed.now }
{
    allowed.iter().all(|allowed| is_allowance(reps, allowed))
}

/// Whether this is all of so many repeaters, or names some of them by rising numbers.
fn is_allowance(reps: usize, allowed: &Allowed) -> bool
    ensures { IsTrue result → IsAllowance reps allowed.now }
{
    match allowed {
        Allowed::All => true,
        Allowed::Only(numbers) => {
            do_rise(numbers.as_slice()) && are_below(numbers.as_slice(), reps)
        }
    }
}

fn do_rise(numbers: &[u32]) -> bool
    ensures { result ≡ true → AllPairs (λ a b. a < b) numbers.now }
{
    'numbers: for i in 1..numbers.len() {
        if numbers[i] <= numbers[i - 1] {
            return false;
        }
    }
    true
}

fn are_below(numbers: &[u32], reps: usize) -> bool
    ensures { IsTrue result → All (λ b. b < reps) numbers.now }
{
    numbers.iter().all(|b| (*b as usize) < reps)
}

/// The placement of these cells in a net of `n` nodes with so many repeaters to choose from.
pub fn placement_of(
    alloc: Global,
    n: usize,
    reps: usize,
    cells: &[Option<u32>],
) -> Result<Placement, Fail>
    ensures { IfOk result (λ at. IsPlacementOf n reps at.cells) }
{
    if cells.len() != n || !are_named(reps, cells) {
        return Err("no placement".into());
    }
    let cells = cells.to_vec(alloc)?;
    Ok(Placement {
        cells: Row::from_vec(cells),
    })
}

fn are_named(reps: usize, cells: &[Option<u32>]) -> bool
    ensures { result ≡ true → (v b : ℕ) → slice_index_or cells.now v None ≡ Some b → b < reps }
{
    'cells: for cell in cells {
        if let Some(b) = cell {
            if *b as usize >= reps {
                return false;
            }
        }
    }
    true
}
