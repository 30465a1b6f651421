//! Worked nets for tests, in mΩ, aF and zs.

ghost use Rattle.std.specs.Prelude.{◌≡◌, ℕ, true, false, is_some, length, slice_index_or, IfOk, IsTrue};
ghost use Rattle.std.specs.List.{list_any};
ghost use Rattle.elmore.specs.Allowances.{AreAllowances};
ghost use Rattle.elmore.specs.Problems.{is_sink, AreRising};

use elmore::{Allowed, Driver, Node, Problem, Rep, Sink, Tree};
use std::alloc::Global;
use std::test::Fail;
use vg_num::Row;

/// The root, `u1:Z`.
pub(crate) const ROOT: Node = Node {
    parent: 0,
    r: 0,
    c: 0,
};

/// `n1:1`.
pub(crate) const TRUNK: Node = Node {
    parent: 0,
    r: 1_000_000,
    c: 100_000,
};

/// The sink `u2:A` with its pin.
pub(crate) const LEAF: Node = Node {
    parent: 1,
    r: 1_000_000,
    c: 102_000,
};

pub(crate) const BUF: Rep = Rep {
    inverts: false,
    cin: 2_000,
    k: 20_000_000_000,
    r: 500_000,
    cost: 2_000,
    limit: None,
};

pub(crate) const INV: Rep = Rep {
    inverts: true,
    cin: 1_000,
    k: 10_000_000_000,
    r: 500_000,
    cost: 1_000,
    limit: None,
};

pub(crate) const DRIVER: Driver = Driver {
    k: 10_000_000_000,
    r: 1_000_000,
    arrival: 0,
    limit: None,
};

/// The problem of these parts, each node of which allows all repeaters, or none beyond the limits.
pub(crate) fn worked_problem(
    alloc: Global,
    nodes: &[Node],
    driver: Driver,
    sinks: &[Option<Sink>],
    free: &[bool],
    reps: &[Rep],
) -> Result<Option<Problem>, Fail> {
    let allowed = Allowed::everywhere(alloc, nodes.len())?;
    let problem = problem_with(alloc, nodes, driver, sinks, free, reps, allowed)?;
    Ok(problem)
}

/// The problem of these parts, or none beyond the limits.
pub(crate) fn problem_with(
    alloc: Global,
    nodes: &[Node],
    driver: Driver,
    sinks: &[Option<Sink>],
    free: &[bool],
    reps: &[Rep],
    allowed: Row<Allowed>,
) -> Result<Option<Problem>, Fail>
    requires { (reps : ℕ) → AreAllowances (length nodes.now) reps allowed }
{
    if !are_parts(nodes.len(), sinks, free, reps) {
        return Err("not the parts of a problem".into());
    }
    let tree = tree_of(alloc, nodes)?;
    let sinks = Row::from_vec(sinks.to_vec(alloc)?);
    let reps = Row::from_vec(reps.to_vec(alloc)?);
    let problem = Problem::new(alloc, tree, driver, sinks, free, reps, allowed)?;
    Ok(problem)
}

/// The tree of these nodes.
pub(crate) fn tree_of(alloc: Global, nodes: &[Node]) -> Result<Tree, Fail>
    ensures { IfOk result (λ tree. tree.nodes ≡ nodes.now) }
{
    let tree = Tree::new(Row::from_vec(nodes.to_vec(alloc)?)).ok_or("no tree")?;
    Ok(tree)
}

/// Whether these parts belong to a net of `n` nodes.
fn are_parts(n: usize, sinks: &[Option<Sink>], free: &[bool], reps: &[Rep]) -> bool
    ensures sinks_each { IsTrue result → length sinks.now ≡ n }
    ensures free_each { IsTrue result → length free.now ≡ n }
    ensures some_sink { IsTrue result → list_any is_some sinks.now ≡ true }
    ensures root { IsTrue result → slice_index_or free.now 0 false ≡ false }
    ensures no_sink { IsTrue result → (v : ℕ) → is_sink sinks.now v ≡ true → slice_index_or free.now v false ≡ false }
    ensures rising { IsTrue result → AreRising reps.now }
{
    n > 0
        && sinks.len() == n
        && free.len() == n
        && !free[0]
        && has_sink(sinks)
        && !has_free_sink(sinks, free)
        && is_rising(reps)
}

fn has_sink(sinks: &[Option<Sink>]) -> bool
    ensures { result ≡ list_any is_some sinks.now }
{
    sinks.iter().any(|sink| sink.is_some())
}

fn has_free_sink(sinks: &[Option<Sink>], free: &[bool]) -> bool
    requires { length free.now ≡ length sinks.now }
    ensures { result ≡ false → (v : ℕ) → is_sink sinks.now v ≡ true → slice_index_or free.now v false ≡ false }
{
    'sinks: for v in 0..sinks.len() {
        if sinks[v].is_some() && free[v] {
            return true;
        }
    }
    false
}

fn is_rising(reps: &[Rep]) -> bool
    ensures { result ≡ true → AreRising reps.now }
{
    'reps: for i in 1..reps.len() {
        if reps[i].r < reps[i - 1].r {
            return false;
        }
    }
    true
}
