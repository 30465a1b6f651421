//! Mode `repair`: the cheapest placements of repeaters with slack enough, and the files in which their cells are put.
#![tactic(auto)]

mod nets;
mod outcome;
mod repair;
mod totals;

pub use outcome::{Goal, Outcome};
pub use repair::repair_for;
pub use totals::Totals;
