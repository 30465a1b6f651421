//! Runs of candidates of one cost.

ghost use Rattle.std.specs.Prelude.{◌≡◌, ◌+◌, ◌<◌, ◌≤◌, ◌^◌, length, IfOk, IsTrue};
ghost use Rattle.vg_front.specs.Held.{AreBounded};
ghost use Rattle.vg_front.specs.Meeting.{IsRunAt, GoesOn};
ghost use Rattle.vg_front.specs.Runs.{run_in as run_in_spec, IsRunOf, AreRunsOf};

use crate::offer::Candidate;
use std::alloc::Global;
use vg_num::Memory;

/// The candidates of a list from number `from` to before number `end`: all have this cost (thousandths), and rise by
/// load.
#[derive(Clone, Copy, PartialEq, Eq, PartialOrd, Ord)]
pub(crate) struct Run {
    pub cost: u64,
    pub from: usize,
    pub end: usize,
}

/// Whether a run that begins at number `from` goes on with number `end`.
fn goes_on(xs: &[Candidate], from: usize, end: usize) -> bool
    requires from { from < end }
    requires within { end ≤ length xs.now }
    ensures { IsTrue result → GoesOn xs.now from end }
{
    end < xs.len()
        && xs[end].offer.cost == xs[from].offer.cost
        && xs[end - 1].offer.c <= xs[end].offer.c
}

/// Where the candidates end that have the cost of the one of number `from`, and rise by load.
pub(crate) fn run_end(xs: &[Candidate], from: usize) -> usize
    requires { from < length xs.now }
    ensures { IsRunAt xs.now from result }
{
    let mut end = from + 1;
    'run: while goes_on(xs, from, end) {
        end += 1;
    }
    end
}

/// The runs of a list.
pub(crate) fn runs_of(alloc: Global, xs: &[Candidate]) -> Result<Vec<Run>, Memory>
    requires bounded { AreBounded xs.now }
    ensures { IfOk result (λ runs. AreRunsOf xs.now xs.now runs.items) }
{
    let mut runs = Vec::new(alloc);
    let mut from = 0;
    'runs: while from < xs.len() {
        let end = run_end(xs, from);
        let cost = xs[from].offer.cost;
        runs.push(Run { cost, from, end })?;
        from = end;
    }
    Ok(runs)
}

/// The candidates of a run.
pub(crate) fn run_in(xs: &[Candidate], run: Run) -> &[Candidate]
    requires { IsRunOf xs.now run }
    ensures { result.now ≡ run_in_spec xs.now run }
{
    &xs[run.from..run.end]
}
