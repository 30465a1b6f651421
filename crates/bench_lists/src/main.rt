//! Times the operations on lists of candidates. With no words it shows what each of them gives for a small list, the
//! same on each run; with the words TASK SIZE ORDER ROUNDS it prints nanoseconds (docs/BENCHMARKS.md).
#![tactic(auto)]

mod branches;
mod cells;
mod lists;
mod operation;
mod plan;
mod random;
mod run;
mod task;
mod turns;

use crate::plan::Plan;
use crate::run::{print_shown, print_times};
use anyhow::{Context, Result};
use std::env;

fn main(rt: HostRuntime) -> Result<()> {
    // The first word is the program's own name.
    let words: Vec<String> = env::args(&rt)?.skip(1).collect(rt.alloc())?;
    if words.is_empty() {
        return print_shown(&rt);
    }
    let plan = Plan::read(&words).context("usage: bench_lists TASK SIZE fresh|scattered ROUNDS")?;
    print_times(&rt, plan)
}
